//! The manifest list of a snapshot, and how it opens.

ghost use Rattle.std.specs.Prelude.{◌≡◌};
ghost use Rattle.icb_chain.specs.Opening.{keys_of, list_key_of};
ghost use Rattle.icb_meta.specs.Answers.{shown_of};
ghost use Rattle.icb_table.specs.Snapshots.{key_opened, list_of};
ghost use Rattle.icb_walk.specs.Judged.{listing};
ghost use Rattle.icb_walk.specs.Start.{Finds, IsBadList, list_at};

use crate::fault::{TreeFault, What};
use crate::listing::Listing;
use icb_base::KeyMeta;
use icb_chain::{Chain, ChainFault, Keyring};
use icb_meta::{Snapshot, TableMeta};
use icb_schema::Text;
use std::alloc::Global;

/// The list of a snapshot as a file, or the first refusal.
#[tactic(auto, unfolding(icb_table::specs::Snapshots::list_of))]
pub(crate) fn list_of(
    alloc: Global,
    meta: &TableMeta,
    ring: &Keyring,
    id: i64,
) -> Result<Listing, TreeFault>
    ensures { Finds listing result (list_of (shown_of meta.now) ring.now id) }
{
    let Some(snapshot) = meta.snapshot(id) else {
        return Err(TreeFault::NoSnapshot { id });
    };
    let Some(key) = &snapshot.key else {
        return Err(TreeFault::PlainList { snapshot: id });
    };
    let opened = key_of(alloc, meta, ring, key)?;
    list_at(alloc, meta, id, &snapshot.list, opened)
}

/// The key metadata of a list, by its entry's id.
fn key_of(
    alloc: Global,
    meta: &TableMeta,
    ring: &Keyring,
    entry: &Text,
) -> Result<KeyMeta, TreeFault>
    ensures { Finds (λ key. key) result
        (key_opened (list_key_of (keys_of meta.now) ring.now entry.now)) }
{
    let mut chain = Chain::new(alloc, 1)?;
    match chain.list_key(alloc, meta, ring, entry) {
        Ok(key) => Ok(key),
        Err(ChainFault::NoMemory) => Err(TreeFault::NoMemory),
        Err(ChainFault::NoKey { id }) => Err(TreeFault::Chain(ChainFault::NoKey { id })),
        Err(ChainFault::KeyRefused { id }) => {
            Err(TreeFault::Chain(ChainFault::KeyRefused { id }))
        }
    }
}

/// The list that a snapshot names, by its key metadata.
fn list_at(
    alloc: Global,
    meta: &TableMeta,
    id: i64,
    file: &Text,
    key: KeyMeta,
) -> Result<Listing, TreeFault>
    ensures { Finds listing result
        (list_at (shown_of meta.now).heading.location id file.now key) }
{
    let Some(path) = meta.resolve(alloc, file)? else {
        return Err(bad_list(alloc, id, file, What::OutsideTable));
    };
    let Some(length) = key.length() else {
        return Err(bad_list(alloc, id, file, What::NoLength));
    };
    Ok(Listing { path, key, length })
}

/// The list of a snapshot isn't read.
fn bad_list(alloc: Global, id: i64, file: &Text, what: What) -> TreeFault
    ensures { IsBadList id file.now what result }
{
    match file.copy(alloc) {
        Ok(file) => TreeFault::BadList {
            snapshot: id,
            file,
            what,
        },
        Err(_) => TreeFault::NoMemory,
    }
}
