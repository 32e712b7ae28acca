//! A version that an append read, and to which it adds a snapshot.
ghost use Rattle.icb_append.specs.Ready.{IsReady};

use crate::reading::Wrapper;
use icb_meta::TableMeta;

/// A version that an append read, and to which it adds a snapshot.
#[derive(Drop)]
pub struct Tried {
    /// Its number.
    pub version: u64,
    /// Its metadata.
    pub meta: TableMeta,
    /// The key that seals the key of the new list.
    pub wrapper: Wrapper,
    /// The id of the new snapshot.
    pub id: i64,
    /// How many rows it adds.
    pub rows: u64,
    ghost ready: { IsReady version meta id rows },
}
