//! Paths and key ids that metadata names.
ghost use Rattle.std.specs.Prelude.{◌≡◌, IfOk, option_map};
ghost use Rattle.std.specs.List.{list_any};
ghost use Rattle.icb_meta.specs.Ids.{IsNextOf, behind, is_taken, is_text, key_name, names_key, resolved};

use crate::records::KeyEntry;
use icb_base::{NoMemory, ObjPath, PathFault};
use icb_schema::Text;
use std::alloc::Global;

/// The object path behind a location and `/`.
#[tactic(auto, unfolding(crate::specs::Ids::resolved))]
pub(crate) fn resolved(
    alloc: Global,
    location: &[u8],
    full: &[u8],
) -> Result<Option<ObjPath>, NoMemory>
    ensures { IfOk result (λ path. path ≡ resolved location.now full.now) }
{
    let Some(part) = behind(location, full) else {
        return Ok(None);
    };
    match ObjPath::read(alloc, part) {
        Ok(path) => Ok(Some(path)),
        Err(PathFault::BadPath) => Ok(None),
        Err(PathFault::NoMemory) => Err(NoMemory),
    }
}

/// What stands behind a location and `/`.
fn behind<'f>(location: &[u8], full: &'f [u8]) -> Option<&'f [u8]>
    ensures { option_map (λ part. part.now) result ≡ behind location.now full.now }
{
    full.strip_prefix(location)?.strip_prefix(b"/".as_slice())
}

/// `key-N` with the least N from 1 up that isn't taken.
pub(crate) fn next_key_id(
    alloc: Global,
    entries: &[KeyEntry],
    master: Option<&Text>,
) -> Result<Text, NoMemory>
    ensures { IfOk result (λ id. IsNextOf entries.now (option_map (λ m. m.now) master.entry) id) }
{
    for number in 1..u64::MAX {
        let id = key_name(alloc, number)?;
        if !is_taken(entries, master, id.as_slice()) {
            return Ok(id);
        }
    }
    Err(NoMemory)
}

/// `key-N`.
fn key_name(alloc: Global, number: u64) -> Result<Text, NoMemory>
    ensures { IfOk result (λ name. name ≡ key_name number) }
{
    let name = format!(in alloc; "key-{number}")?;
    Ok(Text::from_string(name))
}

/// Whether an id is a key's, or that of one that sealed another, or the master key's.
fn is_taken(entries: &[KeyEntry], master: Option<&Text>, id: &[u8]) -> bool
    ensures { result ≡ is_taken entries.now (option_map (λ m. m.now) master.entry) id.now }
{
    is_named(master, id) || names_key(entries, id)
}

/// Whether an entry has the id or was sealed by it.
fn names_key(entries: &[KeyEntry], id: &[u8]) -> bool
    ensures { result ≡ list_any (names_key id.now) entries.now }
{
    for entry in entries {
        if entry.id.as_slice() == id || is_named(entry.by.as_ref(), id) {
            return true;
        }
    }
    false
}

/// Whether the id is there and is this one.
fn is_named(name: Option<&Text>, id: &[u8]) -> bool
    ensures { result ≡ is_text id.now (option_map (λ n. n.now) name.entry) }
{
    match name {
        Some(name) => name.as_slice() == id,
        None => false,
    }
}
