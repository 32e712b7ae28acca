//! A table's keys under a new master: what refuses it, and the keys sealed again.
ghost use Rattle.std.specs.Prelude.{◌≡◌, ◌≢◌, ◌≤◌, ◌+◌, ◌*◌, ◌∷◌, List, drop, length, true, count_by, option_map, Err, IfErr, IfOk, IfSome, OnErr, OnOk, Some};
ghost use Rattle.std.specs.List.{list_any};
ghost use Rattle.icb_base.specs.Calls.{DrawsText};
ghost use Rattle.icb_chain.specs.Kept.{IsSound};
ghost use Rattle.icb_chain.specs.Opening.{keys_of, seals_key};
ghost use Rattle.icb_meta.specs.declared.records.KeyEntry.{KeyEntry};
ghost use Rattle.icb_turns.specs.Answers.{Answers};
ghost use Rattle.icb_rotate.specs.Keys.{all_ascend, all_open, encrypted_by, entry_opens, is_before, key_count, may_name, names_ascend, new_master_of, nonce_in, put_first, rewrapped, sealed_again};
ghost use Rattle.icb_rotate.specs.Rotating.{IsFault, RotatesKeys, drawn_bytes};

use icb_aes::AesKey;
use icb_base::{Bytes, Draws, Failed, Limited, NoMemory};
use icb_chain::{Chain, ChainFault, Keyring, seal_entry, seals_key};
use icb_meta::{KeyEntries, KeyEntry, TableMeta};
use icb_schema::Text;
use icb_turns::{CannotWhat, JobFault};
use icb_walk::TreeFault;
use std::alloc::Global;
use std::cmp::Ordering;

/// The most versions that a table may have.
const MOST_VERSIONS: u64 = 1000000;

/// How many bytes a nonce has.
const NONCE: usize = 12;

/// A master key.
#[derive(Drop)]
pub struct Master {
    /// Its id.
    pub id: Text,
    /// The key.
    pub key: AesKey,
}

/// The keys of a table, whose version has this number, sealed by the new master of an id: each
/// key-encryption key again, with a nonce of its own, and those of lists as they are. In the order of the
/// refusals: the table isn't encrypted; the new master is its own; its id is that of a key; a key doesn't
/// open; the new master isn't in the keyring; one more version would be too many; no bytes are drawn.
pub fn rotated_keys<D: Draws>(
    alloc: Global,
    meta: &TableMeta,
    version: u64,
    ring: &Keyring,
    id: &Text,
    draws: &mut D,
) -> Result<KeyEntries, JobFault>
    ensures { RotatesKeys D.Draws (keys_of meta.now) ring.now version id.now result
        draws.old draws.new }
{
    let key = match master_key(alloc, meta, ring, id) {
        Ok(key) => key,
        Err(fault) => return Err(fault),
    };
    if version >= MOST_VERSIONS {
        return Err(JobFault::Limit {
            what: Limited::Versions,
            number: MOST_VERSIONS,
        });
    }
    let drawn = match draw_nonces(alloc, draws, key_count(meta)) {
        Ok(drawn) => drawn,
        Err(fault) => return Err(fault),
    };
    match sealed_keys(alloc, meta, ring, id, key, drawn.as_slice()) {
        Ok(entries) => Ok(entries),
        Err(NoMemory) => Err(JobFault::NoMemory),
    }
}

/// The keys sealed again by a master, with the nonces that were drawn.
fn sealed_keys(
    alloc: Global,
    meta: &TableMeta,
    ring: &Keyring,
    id: &Text,
    key: AesKey,
    drawn: &[u8],
) -> Result<KeyEntries, NoMemory>
    ensures entries { IfOk result (λ entries. rewrapped (keys_of meta.now) ring.now
        (record { id = id.now; key = key }) (keys_of meta.now).entries drawn.now ≡ Some entries) }
    ensures ascend { IfOk result (λ entries. all_ascend entries ≡ true) }
{
    let Ok(id) = id.copy(alloc) else {
        return Err(NoMemory);
    };
    rewrapped(alloc, meta, ring, &Master { id, key }, drawn)
}

// ---- refusals

/// The key of the new master of an id, or the first refusal.
#[tactic(auto, unfolding(crate::specs::Keys::new_master_of))]
fn master_key(
    alloc: Global,
    meta: &TableMeta,
    ring: &Keyring,
    id: &Text,
) -> Result<AesKey, JobFault>
    ensures { Answers (new_master_of (keys_of meta.now) ring.now id.now) result }
{
    if let Err(fault) = may_name(alloc, meta, id) {
        return Err(fault);
    }
    if let Err(fault) = all_open(alloc, meta, ring) {
        return Err(fault);
    }
    if let Some(key) = ring.master(id) {
        return Ok(*key);
    }
    match id.copy(alloc) {
        Ok(id) => Err(JobFault::Tree(TreeFault::Chain(ChainFault::NoKey { id }))),
        Err(_) => Err(JobFault::NoMemory),
    }
}

/// Whether the id may be a new master's: the table is encrypted, and neither its master nor one of its
/// keys has the id.
fn may_name(alloc: Global, meta: &TableMeta, id: &Text) -> Result<(), JobFault>
    ensures { Answers (may_name (keys_of meta.now) id.now) result }
{
    let Some(master) = encrypted_by(meta) else {
        return Err(JobFault::Cannot {
            what: CannotWhat::NotEncrypted,
        });
    };
    let Ok(copy) = id.copy(alloc) else {
        return Err(JobFault::NoMemory);
    };
    if master.as_slice() == id.as_slice() {
        return Err(JobFault::SameKey { id: copy });
    }
    if meta.entry(id).is_some() {
        return Err(JobFault::KeyName { id: copy });
    }
    Ok(())
}

/// The id of an encrypted table's master.
fn encrypted_by(meta: &TableMeta) -> Option<&Text>
    ensures { option_map (λ id. id.now) result ≡ encrypted_by (keys_of meta.now) }
{
    if has_key(meta) { meta.master() } else { None }
}

/// Whether an entry seals a key-encryption key.
fn has_key(meta: &TableMeta) -> bool
    ensures { result ≡ list_any (seals_key (keys_of meta.now)) (keys_of meta.now).entries }
{
    for entry in meta.entries() {
        if seals_key(meta, entry) {
            return true;
        }
    }
    false
}

/// Each key-encryption key opens, or the first refusal.
fn all_open(alloc: Global, meta: &TableMeta, ring: &Keyring) -> Result<(), JobFault>
    ensures { Answers (all_open (keys_of meta.now) ring.now (keys_of meta.now).entries) result }
{
    let Ok(mut chain) = Chain::new(alloc, 1) else {
        return Err(JobFault::NoMemory);
    };
    for entry in meta.entries() {
        if let Err(fault) = entry_opens(alloc, &mut chain, meta, ring, entry) {
            return Err(fault);
        }
    }
    Ok(())
}

/// The entry opens, where it seals a key-encryption key.
fn entry_opens(
    alloc: Global,
    chain: &mut Chain,
    meta: &TableMeta,
    ring: &Keyring,
    entry: &KeyEntry,
) -> Result<(), JobFault>
    requires { IsSound (keys_of meta.now) ring.now chain.old }
    ensures opens { Answers (entry_opens (keys_of meta.now) ring.now entry.now) result }
    ensures sound { IsSound (keys_of meta.now) ring.now chain.new }
{
    if !seals_key(meta, entry) {
        return Ok(());
    }
    match chain.kek(alloc, meta, ring, &entry.id) {
        Ok(_) => Ok(()),
        Err(ChainFault::NoMemory) => Err(JobFault::NoMemory),
        Err(fault) => Err(JobFault::Tree(TreeFault::Chain(fault))),
    }
}

// ---- keys sealed again

/// How many entries seal key-encryption keys.
fn key_count(meta: &TableMeta) -> usize
    ensures { result ≡ key_count (keys_of meta.now) }
{
    let mut count = 0;
    for entry in meta.entries() {
        if seals_key(meta, entry) {
            count += 1;
        }
    }
    count
}

/// So many nonces, drawn in one fill.
fn draw_nonces<D: Draws>(alloc: Global, draws: &mut D, count: usize) -> Result<Bytes, JobFault>
    ensures draws { DrawsText D.Draws (drawn_bytes result) (result ≡ Err JobFault.Random)
        draws.old draws.new }
    ensures size { IfOk result (λ drawn. length drawn ≡ 12 * count) }
    ensures fault { IfErr result (IsFault JobFault.Random) }
{
    let Some(size) = count.checked_mul(NONCE) else {
        return Err(JobFault::NoMemory);
    };
    let Ok(mut drawn) = vec![in alloc; 0; size] else {
        return Err(JobFault::NoMemory);
    };
    match draws.fill(drawn.as_mut_slice()) {
        Ok(()) => Ok(Bytes::from_vec(drawn)),
        Err(Failed) => Err(JobFault::Random),
    }
}

/// The entries in their order, with the nonces that were drawn.
fn rewrapped(
    alloc: Global,
    meta: &TableMeta,
    ring: &Keyring,
    master: &Master,
    drawn: &[u8],
) -> Result<KeyEntries, NoMemory>
    ensures entries { IfOk result (λ entries. rewrapped (keys_of meta.now) ring.now master.now
        (keys_of meta.now).entries drawn.now ≡ Some entries) }
    ensures ascend { IfOk result (λ entries. all_ascend entries ≡ true) }
{
    let mut chain = Chain::new(alloc, 1)?;
    let mut sealed = KeyEntries::new(alloc);
    let mut at = 0;
    for entry in meta.entries() {
        let next = next_entry(alloc, &mut chain, meta, ring, master, drawn, &mut at, entry)?;
        sealed.push(next)?;
    }
    Ok(sealed)
}

/// The entry as it is, or where it seals a key-encryption key, sealed again with the nonce at a place,
/// behind which the next one is. The names of its properties ascend, as those that metadata show do.
fn next_entry(
    alloc: Global,
    chain: &mut Chain,
    meta: &TableMeta,
    ring: &Keyring,
    master: &Master,
    drawn: &[u8],
    at: &mut usize,
    entry: &KeyEntry,
) -> Result<KeyEntry, NoMemory>
    requires sound { IsSound (keys_of meta.now) ring.now chain.old }
    requires within { at.old ≤ length drawn.now }
    ensures entry { IfOk result (λ e. (more : List KeyEntry)
        → rewrapped (keys_of meta.now) ring.now master.now (entry.now ∷ more)
        (drop at.old drawn.now) ≡ put_first (Some e)
        (rewrapped (keys_of meta.now) ring.now master.now more (drop at.new drawn.now))) }
    ensures ascend { IfOk result (λ e. names_ascend e.properties ≡ true) }
    ensures within { OnOk result (at.new ≤ length drawn.now) }
    ensures sound { IsSound (keys_of meta.now) ring.now chain.new }
{
    if !names_ascend(entry.properties.as_slice()) {
        return Err(NoMemory);
    }
    if !seals_key(meta, entry) {
        let copy = entry.copy(alloc)?;
        return Ok(copy);
    }
    let Some(nonce) = nonce_at(drawn, *at) else {
        return Err(NoMemory);
    };
    *at += NONCE;
    let Ok(key) = chain.kek(alloc, meta, ring, &entry.id) else {
        return Err(NoMemory);
    };
    let sealed = sealed_again(alloc, meta.uuid(), master, &nonce, &key, entry)?;
    Ok(sealed)
}

/// The entry that holds a key, sealed by a master, with the properties of this one.
fn sealed_again(
    alloc: Global,
    table: u128,
    master: &Master,
    nonce: &[u8; 12],
    key: &AesKey,
    entry: &KeyEntry,
) -> Result<KeyEntry, NoMemory>
    ensures sealed { IfOk result (λ e. sealed_again master.now nonce.now key.now entry.now
        ≡ Some e) }
    ensures kept { IfOk result (λ e. e.properties ≡ entry.now.properties) }
{
    let copy = entry.copy(alloc)?;
    let Ok(by) = master.id.copy(alloc) else {
        return Err(NoMemory);
    };
    let new = seal_entry(alloc, table, &master.key, copy.id, by, nonce, key.bytes())?;
    Ok(KeyEntry {
        id: new.id,
        sealed: new.sealed,
        by: new.by,
        properties: copy.properties,
    })
}

/// The 12 bytes from a place on.
fn nonce_at(drawn: &[u8], at: usize) -> Option<[u8; 12]>
    requires { at ≤ length drawn.now }
    ensures nonce { result ≡ nonce_in (drop at drawn.now) }
    ensures within { IfSome result (λ _. at + 12 ≤ length drawn.now) }
{
    let rest = &drawn[at..];
    if rest.len() < NONCE {
        return None;
    }
    let mut nonce = [0; NONCE];
    nonce.copy_from_slice(&rest[..NONCE]);
    Some(nonce)
}

/// Whether the names of texts ascend.
fn names_ascend(texts: &[(Text, Text)]) -> bool
    ensures { result ≡ names_ascend texts.now }
{
    for i in 1..texts.len() {
        if !is_before(&texts[i - 1].0, &texts[i].0) {
            return false;
        }
    }
    true
}

/// Whether a name is less than another, byte by byte.
fn is_before(name: &Text, other: &Text) -> bool
    ensures { result ≡ is_before name.now other.now }
{
    matches!(name.as_slice().cmp(other.as_slice()), Ordering::Less)
}
