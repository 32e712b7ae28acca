//! The version that an append puts: the metadata with its snapshot, and the key of its list.
ghost use Rattle.std.specs.Prelude.{◌≡◌, ◌<◌, ◌^◌, IfOk, IsErr};
ghost use Rattle.icb_append.specs.Committing.{IsListEntry, IsNextVersion, PutsVersion, nonce_of, snapshot_of};
ghost use Rattle.icb_base.specs.Calls.{DrawsText};
ghost use Rattle.icb_meta.specs.Answers.{json_of, shown_of};

use crate::tried::Tried;
use icb_base::{Draws, Failed, KeyMeta, NoMemory, ObjPath, Put, Store};
use icb_chain::seal_entry;
use icb_edits::with_snapshot;
use icb_keymeta::encode;
use icb_meta::{KeyEntry, Snapshot};
use icb_schema::{Octets, Text};
use icb_tree::version_path;
use icb_turns::{JobFault, full_path, put_version};
use std::alloc::Global;

/// The most bytes that an entry seals. Key metadata whose prefix is a path are far shorter.
const MOST_SEALED: usize = 67108864;

/// Puts the version behind the one that was read, with a snapshot whose list is at this path and opens by
/// this key metadata, under a nonce that is drawn. `Random` comes before `Limit`, which comes exactly where
/// the text is too long.
pub fn put_next_version<S: Store, D: Draws>(
    alloc: Global,
    tried: &Tried,
    path: &ObjPath,
    list: &KeyMeta,
    store: &mut S,
    draws: &mut D,
    now_ms: u64,
) -> Result<Put, JobFault>
    requires { now_ms < 2 ^ 63 }
    ensures { PutsVersion S.Store D.Draws (IsNextVersion (json_of tried.now.meta)
        (shown_of tried.now.meta) tried.now.wrapper tried.now.version tried.now.id path.now list.now
        tried.now.rows now_ms) tried.now.version result store.old store.new draws.old draws.new }
{
    let Ok(nonce) = draw_nonce(draws) else {
        return Err(JobFault::Random);
    };
    let Ok(text) = next_version(alloc, tried, path, list, &nonce, now_ms) else {
        return Err(JobFault::NoMemory);
    };
    put_version(alloc, store, tried.version + 1, text.as_slice())
}

/// Draws the nonce of an entry.
fn draw_nonce<D: Draws>(draws: &mut D) -> Result<[u8; 12], Failed>
    ensures { DrawsText D.Draws (nonce_of result) (IsErr result) draws.old draws.new }
{
    let mut nonce = [0; 12];
    match draws.fill(&mut nonce) {
        Ok(()) => Ok(nonce),
        Err(Failed) => Err(Failed),
    }
}

/// The text of the version behind the one that was read.
pub fn next_version(
    alloc: Global,
    tried: &Tried,
    path: &ObjPath,
    list: &KeyMeta,
    nonce: &[u8; 12],
    now_ms: u64,
) -> Result<Octets, NoMemory>
    requires { now_ms < 2 ^ 63 }
    ensures { IfOk result (IsNextVersion (json_of tried.now.meta) (shown_of tried.now.meta)
        tried.now.wrapper tried.now.version tried.now.id path.now list.now tried.now.rows now_ms
        nonce.now) }
{
    let entry = list_entry(alloc, tried, list, nonce)?;
    let snapshot = snapshot_of(alloc, tried, path, &entry.id, now_ms)?;
    let previous = version_path(alloc, tried.version)?;
    let previous = full_path(alloc, tried.meta.location(), &previous)?;
    let next = with_snapshot(alloc, &tried.meta, snapshot, entry, &previous, now_ms)?;
    next.to_bytes(alloc)
}

/// The entry that holds the list's key metadata.
fn list_entry(
    alloc: Global,
    tried: &Tried,
    list: &KeyMeta,
    nonce: &[u8; 12],
) -> Result<KeyEntry, NoMemory>
    ensures { IfOk result (IsListEntry (shown_of tried.now.meta) tried.now.wrapper nonce.now
        list.now) }
{
    let meta = &tried.meta;
    let id = meta.next_key_id(alloc)?;
    let Ok(by) = tried.wrapper.id.copy(alloc) else {
        return Err(NoMemory);
    };
    let bytes = encode(alloc, list)?;
    if bytes.as_slice().len() > MOST_SEALED {
        return Err(NoMemory);
    }
    seal_entry(
        alloc,
        meta.uuid(),
        &tried.wrapper.key,
        id,
        by,
        nonce,
        bytes.as_slice(),
    )
}

/// The snapshot, whose list is at this path and has a key of this id.
fn snapshot_of(
    alloc: Global,
    tried: &Tried,
    path: &ObjPath,
    key: &Text,
    now_ms: u64,
) -> Result<Snapshot, NoMemory>
    requires { now_ms < 2 ^ 63 }
    ensures { IfOk result (λ snapshot. snapshot ≡ snapshot_of (shown_of tried.now.meta)
        tried.now.id path.now tried.now.rows key.now now_ms) }
{
    let meta = &tried.meta;
    let list = full_path(alloc, meta.location(), path)?;
    let (Ok(operation), Ok(key)) = (Text::from_str(alloc, "append"), key.copy(alloc)) else {
        return Err(NoMemory);
    };
    Ok(Snapshot {
        id: tried.id,
        parent: meta.current(),
        sequence: meta.last_sequence() + 1,
        ms: now_ms as i64,
        list,
        operation,
        schema: Some(meta.schema().id),
        first_row: Some(meta.next_row_id()),
        added: Some(tried.rows as i64),
        key: Some(key),
    })
}
