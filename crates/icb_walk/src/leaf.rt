//! A live data file that a walk gives.

use icb_base::{KeyMeta, ObjPath};
use icb_manifest::DataFile;

/// A live data file.
#[derive(Debug, Drop)]
pub struct Leaf {
    /// Its path.
    pub path: ObjPath,
    /// The key metadata by which it opens.
    pub key: KeyMeta,
    /// Its recorded length in bytes.
    pub length: u64,
    /// What its entry says of it.
    pub file: DataFile,
    /// The position in the list, from 0, of its manifest's row.
    pub row: u64,
}
