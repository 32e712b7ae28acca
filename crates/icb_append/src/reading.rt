//! What an append needs of a version's metadata, and what refuses it.
ghost use Rattle.std.specs.Prelude.{◌≡◌, ◌≤◌, ◌^◌, IfSome, int_lt, not, option_map, pos, slice_index, true};
ghost use Rattle.std.specs.List.{list_all};
ghost use Rattle.icb_append.specs.Committing.{next_sequence};
ghost use Rattle.icb_append.specs.Reading.{IsNextId, current_key, has_room, is_column_name, last_key, may_add, wrapper_for};
ghost use Rattle.icb_chain.specs.Opening.{kek_of, keys_of};
ghost use Rattle.icb_meta.specs.Answers.{shown_of};
ghost use Rattle.icb_turns.specs.Answers.{Answers, of_chain};
ghost use Rattle.icb_types.specs.Words.{begins_name, is_in_name};

use icb_aes::AesKey;
use icb_base::Limited;
use icb_chain::{Chain, ChainFault, Keyring, seals_key};
use icb_meta::{KeyEntry, TableMeta};
use icb_schema::Text;
use icb_turns::{CannotWhat, JobFault};
use icb_types::Column;
use icb_walk::TreeFault;
use std::alloc::Global;

/// The most versions that a table may have.
const MOST_VERSIONS: u64 = 1000000;

/// The most snapshots of a table to which one more is added.
const MOST_SNAPSHOTS: u64 = 100000;

/// The greatest sequence number and the greatest row id.
const MOST_NUMBER: u64 = 1 << 62;

/// The most bytes of a column's name.
const MOST_NAME: usize = 1000;

/// The key that seals the key of a list, and its id.
#[derive(Drop)]
pub struct Wrapper {
    /// Its id.
    pub id: Text,
    /// The key.
    pub key: AesKey,
}

/// What an append of so many rows behind this version needs of its metadata, or the first refusal.
#[tactic(auto, unfolding(crate::specs::Reading::wrapper_for))]
pub fn wrapper_for(
    alloc: Global,
    meta: &TableMeta,
    ring: &Keyring,
    version: u64,
    rows: u64,
) -> Result<Wrapper, JobFault>
    requires { rows ≤ 2 ^ 62 }
    ensures { Answers (wrapper_for (shown_of meta.now) ring.now version rows) result }
{
    let Some(entry) = current_key(meta) else {
        return Err(JobFault::Cannot {
            what: CannotWhat::NotEncrypted,
        });
    };
    if let Err(fault) = may_add(meta) {
        return Err(fault);
    }
    let key = match opened(alloc, meta, ring, &entry.id) {
        Ok(key) => key,
        Err(fault) => return Err(fault),
    };
    if let Err(fault) = has_room(meta, version, rows) {
        return Err(fault);
    }
    match entry.id.copy(alloc) {
        Ok(id) => Ok(Wrapper { id, key }),
        Err(_) => Err(JobFault::NoMemory),
    }
}

/// The current key-encryption key of an encrypted table.
fn current_key(meta: &TableMeta) -> Option<&KeyEntry>
    ensures { option_map (λ e. e.now) result ≡ current_key (keys_of meta.now) }
{
    if meta.master().is_none() {
        return None;
    }
    last_key(meta)
}

/// The last entry that seals a key-encryption key.
fn last_key(meta: &TableMeta) -> Option<&KeyEntry>
    ensures { option_map (λ e. e.now) result
        ≡ last_key (keys_of meta.now) (keys_of meta.now).entries }
{
    let mut last = None;
    for entry in meta.entries() {
        if seals_key(meta, entry) {
            last = Some(entry);
        }
    }
    last
}

/// Whether rows may be added to files of the table's layout.
fn may_add(meta: &TableMeta) -> Result<(), JobFault>
    ensures { result ≡ may_add (shown_of meta.now).layout }
{
    if meta.partitioned() {
        return Err(JobFault::Cannot {
            what: CannotWhat::Partitioned,
        });
    }
    if meta.sorted() {
        return Err(JobFault::Cannot {
            what: CannotWhat::Sorted,
        });
    }
    if !have_names(meta.schema().columns.as_slice()) {
        return Err(JobFault::Cannot {
            what: CannotWhat::ColumnName,
        });
    }
    Ok(())
}

/// Whether the names of columns may stand in a data file.
fn have_names(columns: &[Column]) -> bool
    ensures { result ≡ list_all (λ c. is_column_name c.name) columns.now }
{
    columns
        .iter()
        .all(|column| is_column_name(column.name.as_slice()))
}

/// Whether a name is an Avro name of 1 to 1,000 bytes.
fn is_column_name(name: &[u8]) -> bool
    ensures { result ≡ is_column_name name.now }
{
    begins_with_letter(name) && has_name_bytes(name) && name.len() <= MOST_NAME
}

/// Whether each byte may stand in a name.
fn has_name_bytes(name: &[u8]) -> bool
    ensures { result ≡ list_all is_in_name name.now }
{
    name.iter().all(|byte| is_in_name(*byte))
}

/// Whether the first byte may be the first of a name.
fn begins_with_letter(name: &[u8]) -> bool
    ensures { result ≡ begins_name (slice_index name.now 0) }
{
    match name.first() {
        Some(byte) => begins_name(*byte),
        None => false,
    }
}

/// Whether a byte may be the first of a name.
fn begins_name(byte: u8) -> bool
    ensures { result ≡ begins_name byte }
{
    byte.is_ascii_alphabetic() || byte == b'_'
}

/// Whether a byte may stand in a name.
fn is_in_name(byte: u8) -> bool
    ensures { result ≡ is_in_name byte }
{
    begins_name(byte) || byte.is_ascii_digit()
}

/// The key-encryption key of an id.
fn opened(alloc: Global, meta: &TableMeta, ring: &Keyring, id: &Text) -> Result<AesKey, JobFault>
    ensures { Answers (of_chain (kek_of (keys_of meta.now) ring.now id.now)) result }
{
    let Ok(mut chain) = Chain::new(alloc, 1) else {
        return Err(JobFault::NoMemory);
    };
    match chain.kek(alloc, meta, ring, id) {
        Ok(key) => Ok(key),
        Err(ChainFault::NoMemory) => Err(JobFault::NoMemory),
        Err(fault) => Err(JobFault::Tree(TreeFault::Chain(fault))),
    }
}

/// Whether one more version, one more snapshot, the next sequence number and so many more rows are within the
/// limits.
fn has_room(meta: &TableMeta, version: u64, rows: u64) -> Result<(), JobFault>
    requires { rows ≤ 2 ^ 62 }
    ensures { result ≡ has_room (shown_of meta.now) version rows }
{
    if version >= MOST_VERSIONS {
        return Err(limit(Limited::Versions, MOST_VERSIONS));
    }
    if meta.snapshots().len() as u64 >= MOST_SNAPSHOTS {
        return Err(limit(Limited::Snapshots, MOST_SNAPSHOTS));
    }
    if meta.last_sequence() >= MOST_NUMBER as i64 {
        return Err(limit(Limited::Sequence, MOST_NUMBER));
    }
    if meta.next_row_id() > MOST_NUMBER as i64 - rows as i64 {
        return Err(limit(Limited::RowIds, MOST_NUMBER));
    }
    Ok(())
}

/// The refusal that one more would pass a limit.
fn limit(what: Limited, number: u64) -> JobFault
    ensures { result ≡ JobFault.Limit what number }
{
    JobFault::Limit { what, number }
}

/// The least number from the next sequence number upward that is no snapshot's id. A sequence number is above
/// 0 and within its limit, and there are fewer than 2^32 - 1 snapshots: else none is found.
pub fn next_id(meta: &TableMeta) -> Option<i64>
    ensures least { IfSome result (IsNextId (shown_of meta.now).state.snapshots
        (next_sequence (shown_of meta.now))) }
    ensures above { IfSome result (λ id. int_lt (pos 0) id ≡ true) }
{
    let last = meta.last_sequence();
    if last < 0 || last >= MOST_NUMBER as i64 {
        return None;
    }
    for more in 0..u32::MAX {
        let id = last + 1 + more as i64;
        if meta.snapshot(id).is_none() {
            return Some(id);
        }
    }
    None
}
