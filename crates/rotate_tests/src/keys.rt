//! Which keys a rotation gives, and in which order it is refused. The sealed keys are those of Python's
//! `cryptography`; the refusals follow from the order of the tests, by hand.

use crate::entries::{BEFORE, LOST, SEALED, SELF, TABLE, WRONG};
use crate::words::{add, refusal_in_words, text};
use icb_base::{ByteDraws, Bytes};
use icb_chain::Keyring;
use icb_meta::{KeyEntries, KeyEntry, TableMeta};
use icb_rotate::rotated_keys;
use icb_turns::JobFault;
use std::process::Abort;

/// The masters.
const RING: &str = "m1=000102030405060708090a0b0c0d0e0f
m2=101112131415161718191a1b1c1d1e1f202122232425262728292a2b2c2d2e2f
m3=303132333435363738393a3b3c3d3e3f4041424344454647";

/// The entries, the table's master, the version, the new master, and what is answered.
const REFUSED: &str = "table;m1;1;m1;SameKey m1
table;m1;1;key-1;KeyName key-1
table;m1;1;l2;KeyName l2
table;key-1;1;key-1;SameKey key-1
table;m9;1;m3;NoKey m9
table;m1;1;m9;NoKey m9
table;m1;999999;m9;NoKey m9
table;m1;1000000;m3;Limit 1000000
table;m1;1000000;m9;NoKey m9
table;-;1;m3;NotEncrypted
table;-;1;key-1;NotEncrypted
none;m1;1;m1;NotEncrypted
self;m1;1;m1;NotEncrypted
wrong;m1;1;m1;SameKey m1
wrong;m1;1;wrong;KeyName wrong
wrong;m1;1;m3;KeyRefused wrong
wrong;m1;1;m9;KeyRefused wrong
wrong lost;m1;1;m3;KeyRefused wrong
lost wrong;m1;1;m9;NoKey m8
table lost;m1;1000000;m3;NoKey m8
table self;m1;1;m1;SameKey m1";

/// The entries of a word.
fn entries_of(word: &str) -> &'static str {
    match word {
        "table" => TABLE,
        "wrong" => WRONG,
        "lost" => LOST,
        "self" => SELF,
        _ => "",
    }
}

/// Metadata with these entries and this master.
fn metadata(rt: &(impl Abort + AllocGlobal), words: &str, master: &str) -> TableMeta {
    let mut text = String::from_str(rt.alloc(), BEFORE).expect(rt, "room");
    if master != "-" {
        add(rt, &mut text, ",\"properties\":{\"encryption.key-id\":\"");
        add(rt, &mut text, master);
        add(rt, &mut text, "\"}");
    }
    add(rt, &mut text, ",\"encryption-keys\":[");
    for (at, word) in words.split(' ').enumerate() {
        if at > 0 {
            add(rt, &mut text, ",");
        }
        add(rt, &mut text, entries_of(word));
    }
    add(rt, &mut text, "]}");
    TableMeta::read(rt.alloc(), text.as_str().as_bytes()).expect(rt, "metadata")
}

/// An entry in words.
fn entry_in_words(rt: &(impl Abort + AllocGlobal), entry: &KeyEntry) -> String {
    let sealed = hex::encode(rt.alloc(), entry.sealed.as_slice()).expect(rt, "room");
    let by = match &entry.by {
        Some(by) => by.as_str(),
        None => "-",
    };
    let id = entry.id.as_str();
    let mut words = format!(in rt.alloc(); "{id} {by} {sealed}").expect(rt, "room");
    for (name, value) in entry.properties.as_slice() {
        add(rt, &mut words, " ");
        add(rt, &mut words, name.as_str());
        add(rt, &mut words, "=");
        add(rt, &mut words, value.as_str());
    }
    words
}

/// What a rotation answers, which draws from so many bytes, from 0 upwards.
fn rotate(
    rt: &(impl Abort + AllocGlobal),
    meta: &TableMeta,
    version: u64,
    master: &str,
    drawn: u8,
) -> Result<KeyEntries, JobFault> {
    let mut bytes = Vec::new(rt.alloc());
    for number in 0..drawn {
        bytes.push(number).expect(rt, "room");
    }
    let mut draws = ByteDraws::new(Bytes::from_vec(bytes), Vec::new(rt.alloc()));
    let ring = Keyring::read(rt.alloc(), RING.as_bytes()).expect(rt, "a keyring");
    let master = text(rt, master);
    rotated_keys(rt.alloc(), meta, version, &ring, &master, &mut draws)
}

#[test]
fn keys_are_sealed_again(rt: HostRuntime) {
    let meta = metadata(&rt, "table", "m1");
    let entries = rotate(&rt, &meta, 999999, "m3", 36).expect(&rt, "keys");
    let mut found = entries.as_slice().iter();
    for row in SEALED.lines() {
        let entry = found.next().expect(&rt, "an entry");
        let words = entry_in_words(&rt, entry);
        assert!(rt; words.as_str() == row, "{row}: {words}");
    }
    assert!(rt; found.next().is_none());
}

#[test]
fn refusals_in_their_order(rt: HostRuntime) {
    for row in REFUSED.lines() {
        let mut words = row.split(';');
        let entries = words.next().expect(&rt, "entries");
        let own = words.next().expect(&rt, "a master");
        let version = words.next().expect(&rt, "a version").parse::<u64>();
        let master = words.next().expect(&rt, "a new master");
        let answer = words.next().expect(&rt, "an answer");
        let meta = metadata(&rt, entries, own);
        let fault = match rotate(&rt, &meta, version.expect(&rt, "a number"), master, 0) {
            Ok(_) => JobFault::NoMemory,
            Err(fault) => fault,
        };
        let found = refusal_in_words(&rt, &fault);
        assert!(rt; found.as_str() == answer, "{row}: {found}");
    }
}

#[test]
fn too_few_bytes_are_drawn(rt: HostRuntime) {
    let meta = metadata(&rt, "table", "m1");
    let fault = rotate(&rt, &meta, 1, "m3", 35)
        .err()
        .expect(&rt, "a refusal");
    assert!(rt; matches!(fault, JobFault::Random));
}
