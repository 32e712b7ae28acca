//! Opening the entries of a table's keys.
ghost use Rattle.std.specs.Prelude.{◌≡◌, option_map, IfOk, MatchResult, Ok};
ghost use Rattle.icb_chain.specs.ChainCalls.{IsFault, Refuses};
ghost use Rattle.icb_meta.specs.Forms.{text_named};
ghost use Rattle.icb_chain.specs.Opening.{is_scheme_1, kek_of, key_entry, keys_of, list_entry, master_of, opened_entry, opened_key, opened_metadata, seals_key};

use crate::fault::ChainFault;
use crate::keyring::Keyring;
use icb_aes::AesKey;
use icb_base::{Bytes, KeyMeta, NoMemory};
use icb_keymeta::{DecodeFault, decode};
use icb_meta::{KeyEntry, TableMeta};
use icb_schema::Text;
use icb_seal::{UnwrapFault, unwrap_key};
use std::alloc::Global;

/// Why a key isn't opened, before the id has memory of its own.
#[derive(Clone, Copy, Debug)]
pub(crate) enum Refusal<'a> {
    /// The id isn't that of an entry of the needed kind, or of a master in the keyring.
    NoKey(&'a Text),
    /// The entry of the id doesn't open to what it is to hold.
    KeyRefused(&'a Text),
    /// No memory was left.
    NoMemory,
}

impl Refusal<'_> {
    /// The fault, with an id of its own.
    pub(crate) fn fault(self, alloc: Global) -> ChainFault
        ensures { IsFault self.entry result }
    {
        match self {
            Refusal::NoKey(id) => match id.copy(alloc) {
                Ok(id) => ChainFault::NoKey { id },
                Err(_) => ChainFault::NoMemory,
            },
            Refusal::KeyRefused(id) => match id.copy(alloc) {
                Ok(id) => ChainFault::KeyRefused { id },
                Err(_) => ChainFault::NoMemory,
            },
            Refusal::NoMemory => ChainFault::NoMemory,
        }
    }
}

/// The key-encryption key of an id.
#[tactic(auto, unfolding(crate::specs::Opening::kek_of))]
pub(crate) fn open_kek<'a>(
    alloc: Global,
    meta: &'a TableMeta,
    ring: &Keyring,
    id: &'a Text,
) -> Result<AesKey, Refusal<'a>>
    ensures { let opened = kek_of (keys_of meta.now) ring.now id.now in
        MatchResult result (λ key. opened ≡ Ok key) (λ refusal. Refuses refusal opened) }
{
    let Some(entry) = key_entry(meta, id) else {
        return Err(Refusal::NoKey(id));
    };
    let Some(by) = master_of(meta, entry) else {
        return Err(Refusal::KeyRefused(id));
    };
    let Some(master) = ring.master(by) else {
        return Err(Refusal::NoKey(by));
    };
    match opened_key(alloc, master, entry) {
        Ok(Some(key)) => Ok(key),
        Ok(None) => Err(Refusal::KeyRefused(id)),
        Err(NoMemory) => Err(Refusal::NoMemory),
    }
}

/// The key-encryption entry of an id.
fn key_entry<'a>(meta: &'a TableMeta, id: &Text) -> Option<&'a KeyEntry>
    ensures { option_map (λ e. e.now) result ≡ key_entry (keys_of meta.now) id.now }
{
    let entry = meta.entry(id)?;
    if seals_key(meta, entry) {
        Some(entry)
    } else {
        None
    }
}

/// The list entry of an id.
pub(crate) fn list_entry<'a>(meta: &'a TableMeta, id: &Text) -> Option<&'a KeyEntry>
    ensures { option_map (λ e. e.now) result ≡ list_entry (keys_of meta.now) id.now }
{
    let entry = meta.entry(id)?;
    if seals_key(meta, entry) {
        None
    } else {
        Some(entry)
    }
}

/// Whether no entry sealed this one, so that it holds a key-encryption key.
pub fn seals_key(meta: &TableMeta, entry: &KeyEntry) -> bool
    ensures { result ≡ seals_key (keys_of meta.now) entry.now }
{
    match &entry.by {
        Some(by) => meta.entry(by).is_none(),
        None => true,
    }
}

/// The id of a key-encryption key's master.
fn master_of<'a>(meta: &'a TableMeta, entry: &'a KeyEntry) -> Option<&'a Text>
    ensures { option_map (λ id. id.now) result ≡ master_of (keys_of meta.now) entry.now }
{
    match &entry.by {
        Some(by) => Some(by),
        None => meta.master(),
    }
}

/// The key that an entry opens to, if it is one.
fn opened_key(alloc: Global, key: &AesKey, entry: &KeyEntry) -> Result<Option<AesKey>, NoMemory>
    ensures { IfOk result (λ opened. opened ≡ opened_key key.now entry.now) }
{
    match opened_entry(alloc, key, entry)? {
        Some(bytes) => Ok(AesKey::new(bytes.as_slice()).ok()),
        None => Ok(None),
    }
}

/// The key metadata that an entry opens to, if it is some.
pub(crate) fn opened_metadata(
    alloc: Global,
    key: &AesKey,
    entry: &KeyEntry,
) -> Result<Option<KeyMeta>, NoMemory>
    ensures { IfOk result (λ opened. opened ≡ opened_metadata key.now entry.now) }
{
    let Some(bytes) = opened_entry(alloc, key, entry)? else {
        return Ok(None);
    };
    match decode(alloc, bytes.as_slice()) {
        Ok(meta) => Ok(Some(meta)),
        Err(DecodeFault::BadKeyMeta { .. }) => Ok(None),
        Err(DecodeFault::NoMemory) => Err(NoMemory),
    }
}

/// What an entry opens to under a key, if it opens.
fn opened_entry(alloc: Global, key: &AesKey, entry: &KeyEntry) -> Result<Option<Bytes>, NoMemory>
    ensures { IfOk result (λ opened. opened ≡ opened_entry key.now entry.now) }
{
    if !is_scheme_1(entry) {
        return Ok(None);
    }
    match unwrap_key(alloc, key, entry.id.as_slice(), entry.sealed.as_slice()) {
        Ok(bytes) => Ok(Some(bytes)),
        Err(UnwrapFault::NotAuthentic) => Ok(None),
        Err(UnwrapFault::NoMemory) => Err(NoMemory),
    }
}

/// Whether an entry is sealed in the first way.
fn is_scheme_1(entry: &KeyEntry) -> bool
    ensures { result ≡ is_scheme_1 entry.now }
{
    match text_named(entry.properties.as_slice(), b"icb.scheme") {
        Some(scheme) => scheme.as_slice() == b"1".as_slice(),
        None => true,
    }
}

/// The text of a name.
fn text_named<'t>(texts: &'t [(Text, Text)], name: &[u8]) -> Option<&'t Text>
    ensures { option_map (λ text. text.now) result ≡ text_named name.now texts.now }
{
    for (other, text) in texts {
        if other.as_slice() == name {
            return Some(text);
        }
    }
    None
}
