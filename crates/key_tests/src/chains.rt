//! Keys that a chain opens from the master down: which answer each entry gives, and which keys are kept
//! afterwards. The entries of `crates/key_tests/src/entries.rt` were sealed by Python's `cryptography`;
//! the answers follow from how they hang together, by hand.

ghost use Rattle.std.specs.Prelude.{◌≡◌, ◌≤◌, []};
ghost use Rattle.icb_chain.specs.Kept.{IsSound};
ghost use Rattle.icb_chain.specs.Opening.{KeyTable, keys_of};
ghost use Rattle.icb_chain.specs.Ring.{Ring};

use crate::entries::{BEFORE, ENTRIES};
use icb_aes::AesKey;
use icb_chain::{Chain, ChainFault, Keyring, seal_entry};
use icb_meta::{KeyEntry, TableMeta};
use icb_schema::Text;
use std::process::Abort;
use std::test::*;

/// The masters 00 to 0f and 10 to 2f.
const RING: &str =
    "m1=000102030405060708090a0b0c0d0e0f\nm2=101112131415161718191a1b1c1d1e1f202122232425262728292a2b2c2d2e2f";

/// What `kek` answers of an id: the key in hexadecimal digits, or the refusal.
const KEKS: &str = "key-1;202122232425262728292a2b2c2d2e2f
key-2;303132333435363738393a3b3c3d3e3f404142434445464748494a4b4c4d4e4f
key-3;505152535455565758595a5b5c5d5e5f6061626364656667
first;202122232425262728292a2b2c2d2e2f
absent;NoKey absent
m1;NoKey m1
l1;NoKey l1
self;NoKey self
below;NoKey below
lost;NoKey m9
moved;KeyRefused moved
wrong;KeyRefused wrong
short;KeyRefused short
second;KeyRefused second";

/// What `list_key` answers: the key, the prefix in hexadecimal digits and the length, or the refusal.
const LISTS: &str = "l1;000102030405060708090a0b0c0d0e0f 646174612f61 192
l2;000102030405060708090a0b0c0d0e0f - -
l3;000102030405060708090a0b0c0d0e0f 646174612f61 192
absent;NoKey absent
key-1;NoKey key-1
moved;NoKey moved
self;NoKey self
under;NoKey l1
below;NoKey m9
text;KeyRefused text
behind;KeyRefused behind
other;KeyRefused other";

/// A text.
fn text(rt: &(impl Abort + AllocGlobal), text: &str) -> Text {
    Text::from_str(rt.alloc(), text).expect(rt, "room")
}

/// Metadata with these properties and all the entries.
fn metadata(rt: &(impl Abort + AllocGlobal), properties: &str) -> TableMeta {
    let front = joined(rt, BEFORE, ",\"properties\":", properties);
    let front = joined(rt, front.as_str(), ",\"encryption-keys\":[", ENTRIES);
    let text = joined(rt, front.as_str(), "]", "}");
    TableMeta::read(rt.alloc(), text.as_str().as_bytes()).expect(rt, "metadata")
}

/// Three texts in a row.
fn joined(rt: &(impl Abort + AllocGlobal), front: &str, mid: &str, back: &str) -> String {
    let mut text = String::from_str(rt.alloc(), front).expect(rt, "room");
    text.push_str(mid).expect(rt, "room");
    text.push_str(back).expect(rt, "room");
    text
}

/// The keyring.
fn keyring(rt: &(impl Abort + AllocGlobal)) -> Keyring {
    Keyring::read(rt.alloc(), RING.as_bytes()).expect(rt, "a keyring")
}

/// A chain of this capacity.
fn new_chain(rt: &(impl Abort + AllocGlobal), capacity: usize) -> Chain
    requires { 1 ≤ capacity }
    ensures { result.pairs ≡ [] }
{
    Chain::new(rt.alloc(), capacity).expect(rt, "room")
}

/// A refusal in words.
fn told(rt: &(impl Abort + AllocGlobal), fault: &ChainFault) -> String {
    let words = match fault {
        ChainFault::NoKey { id } => format!(in rt.alloc(); "NoKey {}", id.as_str()),
        ChainFault::KeyRefused { id } => format!(in rt.alloc(); "KeyRefused {}", id.as_str()),
        ChainFault::NoMemory => format!(in rt.alloc(); "NoMemory"),
    };
    words.expect(rt, "room")
}

/// What a new chain answers of a key.
fn kek_in_words(
    rt: &(impl Abort + AllocGlobal),
    meta: &TableMeta,
    ring: &Keyring,
    id: &str,
) -> String {
    let id = text(rt, id);
    match new_chain(rt, 1).kek(rt.alloc(), meta, ring, &id) {
        Ok(key) => hex::encode(rt.alloc(), key.bytes()).expect(rt, "room"),
        Err(fault) => told(rt, &fault),
    }
}

/// What a new chain answers of a list's key.
fn list_in_words(
    rt: &(impl Abort + AllocGlobal),
    meta: &TableMeta,
    ring: &Keyring,
    id: &str,
) -> String {
    let id = text(rt, id);
    let found = match new_chain(rt, 1).list_key(rt.alloc(), meta, ring, &id) {
        Ok(found) => found,
        Err(fault) => return told(rt, &fault),
    };
    let key = hex::encode(rt.alloc(), found.key()).expect(rt, "room");
    let prefix = match found.prefix() {
        Some(prefix) => hex::encode(rt.alloc(), prefix).expect(rt, "room"),
        None => String::from_str(rt.alloc(), "-").expect(rt, "room"),
    };
    let words = match found.length() {
        Some(length) => format!(in rt.alloc(); "{key} {prefix} {length}"),
        None => format!(in rt.alloc(); "{key} {prefix} -"),
    };
    words.expect(rt, "room")
}

#[test]
fn keys_by_their_entries(rt: HostRuntime) {
    let meta = metadata(&rt, r#"{"encryption.key-id":"m1"}"#);
    let ring = keyring(&rt);
    for row in KEKS.lines() {
        let (id, words) = row.split_once(';').expect(&rt, "an id and words");
        let found = kek_in_words(&rt, &meta, &ring, id);
        assert!(rt; found.as_str() == words, "{row}: {found}");
    }
}

#[test]
fn keys_of_lists_by_their_entries(rt: HostRuntime) {
    let meta = metadata(&rt, r#"{"encryption.key-id":"m1"}"#);
    let ring = keyring(&rt);
    for row in LISTS.lines() {
        let (id, words) = row.split_once(';').expect(&rt, "an id and words");
        let found = list_in_words(&rt, &meta, &ring, id);
        assert!(rt; found.as_str() == words, "{row}: {found}");
    }
}

#[test]
fn a_key_without_a_master(rt: HostRuntime) {
    let ring = keyring(&rt);
    let meta = metadata(&rt, "{}");
    let found = kek_in_words(&rt, &meta, &ring, "key-3");
    assert!(rt; found.as_str() == "KeyRefused key-3");
    let meta = metadata(&rt, r#"{"encryption.key-id":"m3"}"#);
    let found = kek_in_words(&rt, &meta, &ring, "key-3");
    assert!(rt; found.as_str() == "NoKey m3");
    let found = list_in_words(&rt, &meta, &ring, "l3");
    assert!(rt; found.as_str() == "NoKey m3");
}

/// Whether a key is opened.
fn opens(
    rt: &(impl Abort + AllocGlobal),
    chain: &mut Chain,
    meta: &TableMeta,
    ring: &Keyring,
    id: &str,
) -> bool
    requires { IsSound (keys_of meta.now) ring.now chain.old }
    ensures { IsSound (keys_of meta.now) ring.now chain.new }
{
    let id = text(rt, id);
    chain.kek(rt.alloc(), meta, ring, &id).is_ok()
}

/// Whether a list's key is opened.
fn opens_list(
    rt: &(impl Abort + AllocGlobal),
    chain: &mut Chain,
    meta: &TableMeta,
    ring: &Keyring,
    id: &str,
) -> bool
    requires { IsSound (keys_of meta.now) ring.now chain.old }
    ensures { IsSound (keys_of meta.now) ring.now chain.new }
{
    let id = text(rt, id);
    chain.list_key(rt.alloc(), meta, ring, &id).is_ok()
}

/// The first byte of a key that is kept.
fn kept(rt: &(impl Abort + AllocGlobal), chain: &mut Chain, id: &str) -> Option<u8>
    ensures { (table : KeyTable) (ring : Ring) → IsSound table ring chain.old
        → IsSound table ring chain.new }
{
    let id = text(rt, id);
    chain.cached(&id)?.bytes().first().copied()
}

#[test]
fn the_last_used_keys_are_kept(rt: HostRuntime) {
    let meta = metadata(&rt, r#"{"encryption.key-id":"m1"}"#);
    let ring = keyring(&rt);
    let mut empty = new_chain(&rt, 2);
    assert!(rt; kept(&rt, &mut empty, "key-1").is_none());
    let mut chain = new_chain(&rt, 2);
    assert!(rt; opens(&rt, &mut chain, &meta, &ring, "key-1"));
    assert!(rt; opens(&rt, &mut chain, &meta, &ring, "key-2"));
    assert!(rt; !opens(&rt, &mut chain, &meta, &ring, "absent"));
    assert!(rt; kept(&rt, &mut chain, "key-1") == Some(0x20));
    assert!(rt; opens(&rt, &mut chain, &meta, &ring, "key-3"));
    assert!(rt; kept(&rt, &mut chain, "key-2").is_none());
    assert!(rt; kept(&rt, &mut chain, "key-1") == Some(0x20));
    assert!(rt; kept(&rt, &mut chain, "key-3") == Some(0x50));
}

#[test]
fn a_used_key_stays(rt: HostRuntime) {
    let meta = metadata(&rt, r#"{"encryption.key-id":"m1"}"#);
    let ring = keyring(&rt);
    let mut chain = new_chain(&rt, 2);
    assert!(rt; opens(&rt, &mut chain, &meta, &ring, "key-1"));
    assert!(rt; opens(&rt, &mut chain, &meta, &ring, "key-2"));
    assert!(rt; opens_list(&rt, &mut chain, &meta, &ring, "l1"));
    assert!(rt; opens(&rt, &mut chain, &meta, &ring, "key-3"));
    assert!(rt; kept(&rt, &mut chain, "key-2").is_none());
    assert!(rt; opens(&rt, &mut chain, &meta, &ring, "key-1"));
    assert!(rt; opens(&rt, &mut chain, &meta, &ring, "key-2"));
    assert!(rt; kept(&rt, &mut chain, "key-3").is_none());
    assert!(rt; kept(&rt, &mut chain, "key-2") == Some(0x30));
}

/// Whether a sealed entry is one of the metadata.
fn is_entry(meta: &TableMeta, sealed: &KeyEntry) -> bool {
    match meta.entry(&sealed.id) {
        Some(entry) => {
            entry.sealed.as_slice() == sealed.sealed.as_slice()
                && sealed.properties.as_slice().is_empty()
                && sealed.by.as_ref().map(|by| by.as_str())
                    == entry.by.as_ref().map(|by| by.as_str())
        }
        None => false,
    }
}

#[test]
fn entries_that_are_sealed(rt: HostRuntime) {
    let meta = metadata(&rt, "{}");
    let master = AesKey::new(&[0, 1, 2, 3, 4, 5, 6, 7, 8, 9, 10, 11, 12, 13, 14, 15]);
    let master = master.expect(&rt, "a key");
    let bytes = b" !\"#$%&'()*+,-./";
    let id = text(&rt, "key-1");
    let by = text(&rt, "m1");
    let sealed = seal_entry(rt.alloc(), 9, &master, id, by, &[1; 12], bytes.as_slice());
    assert!(rt; is_entry(&meta, &sealed.expect(&rt, "room")));
    let id = text(&rt, "short");
    let by = text(&rt, "m1");
    let sealed = seal_entry(rt.alloc(), 9, &master, id, by, &[8; 12], &[0; 15]);
    assert!(rt; is_entry(&meta, &sealed.expect(&rt, "room")));
}
