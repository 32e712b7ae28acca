//! The turn that reads: the next version, whose keys a new master sealed, or the first refusal.
ghost use Rattle.std.specs.Prelude.{◌≡◌, ◌<◌, ◌^◌, map, IfOk, true};
ghost use Rattle.icb_meta.specs.Answers.{json_of, shown_of};
ghost use Rattle.icb_schema.specs.Names.{are_distinct};
ghost use Rattle.icb_rotate.specs.Drafting.{Drafts, DraftsOf, IsNextText, current_fault};

use crate::draft::Draft;
use crate::keys::rotated_keys;
use icb_base::{Draws, NoMemory, Store};
use icb_chain::Keyring;
use icb_edits::with_keys;
use icb_meta::{KeyEntries, TableMeta};
use icb_schema::{Octets, Text};
use icb_tree::{CurrentFault, read_version, version_path};
use icb_turns::{JobFault, full_path, retries};
use std::alloc::Global;

/// Reads the metadata of a version and drafts the next one.
pub(crate) fn read_draft<S: Store, D: Draws>(
    alloc: Global,
    store: &mut S,
    version: u64,
    ring: &Keyring,
    id: &Text,
    draws: &mut D,
    now_ms: u64,
) -> Result<Draft, JobFault>
    requires { now_ms < 2 ^ 63 }
    ensures { Drafts S.Store D.Draws ring.now version id.now now_ms result store.old store.new
        draws.old draws.new }
{
    match read_version(alloc, store, version) {
        Ok(meta) => draft_of(alloc, &meta, version, ring, id, draws, now_ms),
        Err(fault) => Err(current_fault(fault)),
    }
}

/// Drafts the version behind the one that has this metadata. All memory that the put needs beside its
/// path is taken here.
fn draft_of<D: Draws>(
    alloc: Global,
    meta: &TableMeta,
    version: u64,
    ring: &Keyring,
    id: &Text,
    draws: &mut D,
    now_ms: u64,
) -> Result<Draft, JobFault>
    requires { now_ms < 2 ^ 63 }
    ensures { DraftsOf D.Draws (json_of meta.now) (shown_of meta.now) ring.now version id.now now_ms
        result draws.old draws.new }
{
    let entries = match rotated_keys(alloc, meta, version, ring, id, draws) {
        Ok(entries) => entries,
        Err(fault) => return Err(fault),
    };
    match next_text(alloc, meta, version, id, entries, now_ms) {
        Ok(text) => Ok(Draft {
            from: version,
            text,
            retries: retries(meta),
        }),
        Err(NoMemory) => Err(JobFault::NoMemory),
    }
}

/// The text of the version behind this one, with other keys and another master key.
fn next_text(
    alloc: Global,
    meta: &TableMeta,
    version: u64,
    id: &Text,
    entries: KeyEntries,
    now_ms: u64,
) -> Result<Octets, NoMemory>
    requires distinct { are_distinct (map (λ e. e.id) entries) ≡ true }
    requires time { now_ms < 2 ^ 63 }
    ensures { IfOk result (IsNextText (json_of meta.now) (shown_of meta.now) version entries id.now
        now_ms) }
{
    let path = version_path(alloc, version)?;
    let previous = full_path(alloc, meta.location(), &path)?;
    let next = with_keys(alloc, meta, entries, id, &previous, now_ms)?;
    next.to_bytes(alloc)
}

/// The refusal of a job by a version's metadata that isn't read.
fn current_fault(fault: CurrentFault) -> JobFault
    ensures { result ≡ current_fault fault }
{
    match fault {
        CurrentFault::NoTable => JobFault::NoTable,
        CurrentFault::Limit { what, number } => JobFault::Limit { what, number },
        CurrentFault::BadMeta { field } => JobFault::BadMeta { field },
        CurrentFault::Store => JobFault::Store,
        CurrentFault::NoMemory => JobFault::NoMemory,
    }
}
