//! A file as its parent names it, and the tests of its parent's record.

ghost use Rattle.std.specs.Prelude.{◌≡◌, IfOk, option_map};
ghost use Rattle.icb_meta.specs.Ids.{behind, resolved};
ghost use Rattle.icb_keymeta.specs.Decoded.{key_metadata_of};
ghost use Rattle.icb_table.specs.Listed.{key_in, length_of, listed_by, said_length};
ghost use Rattle.icb_table.specs.Tests.{data_file_of, has_deletes, has_none, has_rows, is_avro, is_deleted, is_passed, manifest_of};
ghost use Rattle.icb_walk.specs.Judged.{IsTold, Lists, ReadsKey};

use crate::fault::{Broken, Cause, What};
use crate::trouble::Trouble;
use icb_base::{KeyMeta, NoMemory, ObjPath, PathFault};
use icb_keymeta::{DecodeFault, decode};
use icb_list::ListRow;
use icb_manifest::{DataFile, Entry};
use icb_schema::{Octets, Text};
use std::alloc::Global;

/// The path of an object, how it opens, and its recorded length in bytes.
#[derive(Debug, Drop)]
pub(crate) struct Listing {
    pub(crate) path: ObjPath,
    pub(crate) key: KeyMeta,
    pub(crate) length: u64,
}

/// Whether a row of a list is passed over: its manifest has delete files, none of which is live.
pub(crate) fn is_passed(row: &ListRow) -> bool
    ensures { result ≡ is_passed row.now }
{
    has_deletes(row) && has_none(row)
}

/// Whether a row's manifest has delete files.
fn has_deletes(row: &ListRow) -> bool
    ensures { result ≡ has_deletes row.now }
{
    row.content == 1
}

/// Whether no file of a row's manifest was added, and none exists from before.
fn has_none(row: &ListRow) -> bool
    ensures { result ≡ has_none row.now }
{
    row.files[0] == 0 && row.files[1] == 0
}

/// The manifest of a row that isn't passed over, in the record at this place.
pub(crate) fn manifest_of(
    alloc: Global,
    location: &Text,
    place: u64,
    row: &ListRow,
) -> Result<Listing, Trouble>
    ensures { Lists result (manifest_of location.now place row.now) }
{
    if has_deletes(row) {
        return Err(unread(alloc, &row.path, What::DeleteManifest));
    }
    listed_by(alloc, location, place, &row.path, &row.key, row.length)
}

/// Whether an entry's file was deleted.
pub(crate) fn is_deleted(entry: &Entry) -> bool
    ensures { result ≡ is_deleted entry.now }
{
    entry.status == 2
}

/// Whether a file has rows.
fn has_rows(file: &DataFile) -> bool
    ensures { result ≡ has_rows file.now }
{
    file.content == 0
}

/// Whether a file's format is Avro, in letters of either case.
fn is_avro(file: &DataFile) -> bool
    ensures { result ≡ is_avro file.now }
{
    file.format.as_slice().eq_ignore_ascii_case(b"avro")
}

/// The data file of an entry that isn't deleted, in the record at this place.
pub(crate) fn data_file_of(
    alloc: Global,
    location: &Text,
    place: u64,
    file: &DataFile,
) -> Result<Listing, Trouble>
    ensures { Lists result (data_file_of location.now place file.now) }
{
    if !has_rows(file) {
        return Err(unread(alloc, &file.path, What::DeleteFile));
    }
    if !is_avro(file) {
        return Err(unread(alloc, &file.path, What::Format));
    }
    listed_by(alloc, location, place, &file.path, &file.key, file.size)
}

/// The file of a full path, with key metadata and a length that its record says.
#[tactic(auto, unfolding(icb_table::specs::Listed::listed_by))]
fn listed_by(
    alloc: Global,
    location: &Text,
    place: u64,
    full: &Text,
    key: &Option<Octets>,
    size: i64,
) -> Result<Listing, Trouble>
    ensures { Lists result (listed_by location.now place full.now key.now size) }
{
    let Some(bytes) = key else {
        return Err(plain_file(alloc, full));
    };
    let Some(path) = resolved(alloc, location.as_slice(), full.as_slice())? else {
        return Err(unread(alloc, full, What::OutsideTable));
    };
    let meta = key_in(alloc, place, bytes)?;
    let Some(length) = length_of(&meta, size) else {
        return Err(unread(alloc, full, What::NoLength));
    };
    Ok(Listing {
        path,
        key: meta,
        length,
    })
}

/// The length of a file: the one that its key metadata tells, or else the one that is said, where it
/// is above 0.
fn length_of(meta: &KeyMeta, said: i64) -> Option<u64>
    ensures { result ≡ length_of meta.now (said_length said) }
{
    if let Some(told) = meta.length() {
        return Some(told);
    }
    if said > 0 {
        return Some(said as u64);
    }
    None
}

/// The key metadata that bytes are, in the record at this place.
fn key_in(alloc: Global, place: u64, bytes: &Octets) -> Result<KeyMeta, Trouble>
    ensures { ReadsKey result (key_in place (key_metadata_of bytes.now)) }
{
    match decode(alloc, bytes.as_slice()) {
        Ok(meta) => Ok(meta),
        Err(DecodeFault::BadKeyMeta { .. }) => Err(Trouble::Cause(Cause::Malformed {
            place,
            what: Broken::KeyMeta,
        })),
        Err(DecodeFault::NoMemory) => Err(Trouble::NoMemory),
    }
}

/// A file that is named isn't read.
fn unread(alloc: Global, full: &Text, what: What) -> Trouble
    ensures { IsTold (Cause.Unsupported full.now what) result }
{
    match full.copy(alloc) {
        Ok(file) => Trouble::Cause(Cause::Unsupported { file, what }),
        Err(_) => Trouble::NoMemory,
    }
}

/// A file that is named has no key metadata.
fn plain_file(alloc: Global, full: &Text) -> Trouble
    ensures { IsTold (Cause.PlainFile full.now) result }
{
    match full.copy(alloc) {
        Ok(file) => Trouble::Cause(Cause::PlainFile { file }),
        Err(_) => Trouble::NoMemory,
    }
}

/// The object path behind a location and `/`.
#[tactic(auto, unfolding(icb_meta::specs::Ids::resolved))]
fn resolved(alloc: Global, location: &[u8], full: &[u8]) -> Result<Option<ObjPath>, NoMemory>
    ensures { IfOk result (λ path. path ≡ resolved location.now full.now) }
{
    let Some(part) = behind(location, full) else {
        return Ok(None);
    };
    match ObjPath::read(alloc, part) {
        Ok(path) => Ok(Some(path)),
        Err(PathFault::BadPath) => Ok(None),
        Err(PathFault::NoMemory) => Err(NoMemory),
    }
}

/// What stands behind a location and `/`.
fn behind<'f>(location: &[u8], full: &'f [u8]) -> Option<&'f [u8]>
    ensures { option_map (λ part. part.now) result ≡ behind location.now full.now }
{
    full.strip_prefix(location)?.strip_prefix(b"/".as_slice())
}
