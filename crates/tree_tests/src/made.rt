//! Files of trees, put together from the parts of `table.rt`, and sealed.

use crate::table::PARTS;
use icb_base::{ByteDraws, Bytes, MemStore, ObjPath};
use icb_seal::{FileKey, KeySize};
use icb_stream::seal_stream;
use std::process::Abort;

/// How many bytes the plaintext of a file is filled up to.
const PLAIN: usize = 1600;

/// The marker of each file.
const MARKER: [u8; 16] = [9; 16];

/// An object path.
pub(crate) fn path(rt: &(impl Abort + AllocGlobal), text: &str) -> ObjPath {
    ObjPath::read(rt.alloc(), text.as_bytes()).expect(rt, "a path")
}

/// Adds bytes.
fn put(rt: &impl Abort, more: &[u8], bytes: &mut Vec<u8>) {
    bytes.extend_from_slice(more).expect(rt, "room");
}

/// Adds the bytes of a part.
pub(crate) fn put_part(rt: &(impl Abort + AllocGlobal), name: &str, bytes: &mut Vec<u8>) {
    for line in PARTS.lines() {
        let (found, digits) = line.split_once(' ').expect(rt, "a name and digits");
        if found == name {
            let part = hex::decode(rt.alloc(), digits).expect(rt, "hexadecimal digits");
            put(rt, part.as_slice(), bytes);
            return;
        }
    }
    panic!(rt; "no part {name}")
}

/// Adds a number as Avro spells it.
fn put_number(rt: &impl Abort, number: usize, bytes: &mut Vec<u8>) {
    assert!(rt; number < 1 << 20);
    let mut rest = 2 * number;
    for _ in 0..2 {
        if rest >= 128 {
            bytes.push((rest % 128 + 128) as u8).expect(rt, "room");
            rest /= 128;
        }
    }
    assert!(rt; rest < 128);
    bytes.push(rest as u8).expect(rt, "room");
}

/// Adds a block of records.
pub(crate) fn put_block(rt: &impl Abort, count: usize, records: &[u8], bytes: &mut Vec<u8>) {
    put_number(rt, count, bytes);
    put_number(rt, records.len(), bytes);
    put(rt, records, bytes);
    put(rt, &MARKER, bytes);
}

/// Adds a block of the records of these names, or behind a star the part as it is.
fn put_named(rt: &(impl Abort + AllocGlobal), names: &str, bytes: &mut Vec<u8>) {
    if let Some(name) = names.strip_prefix('*') {
        put_part(rt, name, bytes);
        return;
    }
    let mut records = Vec::new(rt.alloc());
    let mut count = 0usize;
    for name in names.split('.') {
        if name != "" {
            put_part(rt, name, &mut records);
            count = count.saturating_add(1);
        }
    }
    put_block(rt, count, records.as_slice(), bytes);
}

/// The plaintext of a file with this header and these blocks, whose last member fills it up.
pub(crate) fn plain(
    rt: &(impl Abort + AllocGlobal),
    header: &str,
    blocks: &[u8],
    fill: usize,
) -> Vec<u8> {
    let mut plain = Vec::new(rt.alloc());
    put_part(rt, header, &mut plain);
    put_number(rt, 1, &mut plain);
    put_number(rt, 4, &mut plain);
    put(rt, b"fill", &mut plain);
    put_number(rt, fill, &mut plain);
    for _ in 0..fill {
        plain.push(b'.').expect(rt, "room");
    }
    plain.push(0).expect(rt, "room");
    put(rt, &MARKER, &mut plain);
    put(rt, blocks, &mut plain);
    plain
}

/// A stream with blocks of this length under a prefix, by a key whose bytes are sevens.
pub(crate) fn sealed(
    rt: &(impl Abort + AllocGlobal),
    plain: &[u8],
    prefix: &str,
    block: u32,
) -> Bytes {
    assert!(rt; block == 256 || block == 4096);
    assert!(rt; plain.len() < 1 << 20);
    let drawn = Bytes::from_slice(rt.alloc(), &[7; 24]).expect(rt, "room");
    let mut draws = ByteDraws::new(drawn, Vec::new(rt.alloc()));
    let key = FileKey::draw(&mut draws, KeySize::Bytes16).expect(rt, "a key");
    let stream = seal_stream(rt.alloc(), key, prefix.as_bytes(), block, plain);
    let (bytes, _) = stream.expect(rt, "room");
    bytes
}

/// The bytes with a change: `cut=N` keeps so many, `flip=N` changes a bit of the byte at a place.
fn changed(rt: &(impl Abort + AllocGlobal), bytes: &[u8], change: &str) -> Bytes {
    let mut copy = bytes.to_vec(rt.alloc()).expect(rt, "room");
    match change.split_once('=') {
        Some(("cut", word)) => copy.truncate(number(rt, word)),
        Some(("flip", word)) => {
            let at = number(rt, word);
            assert!(rt; at < copy.len());
            copy[at] ^= 1;
        }
        _ => {}
    }
    Bytes::from_vec(copy)
}

/// The number that a word is.
pub(crate) fn number(rt: &impl Abort, word: &str) -> usize {
    word.parse::<usize>().ok().expect(rt, "a number")
}

/// Puts the object that a word tells: its name, its header, its blocks, and a change of its bytes or the
/// prefix that it is sealed under.
pub(crate) fn put_object(rt: &(impl Abort + AllocGlobal), word: &str, store: &mut MemStore) {
    let (name, file) = word.split_once('=').expect(rt, "a name");
    let (header, rest) = file.split_once(':').expect(rt, "a header");
    let (blocks, change) = rest.split_once(':').unwrap_or((rest, ""));
    let at = format!(in rt.alloc(); "meta/{name}").expect(rt, "room");
    let prefix = change.strip_prefix("prefix=").unwrap_or(at.as_str());
    let plain = filled(rt, header, body(rt, blocks).as_slice());
    let stream = sealed(rt, plain.as_slice(), prefix, 256);
    let object = changed(rt, stream.as_slice(), change);
    store.set(path(rt, at.as_str()), object).expect(rt, "room");
}

/// The blocks that words tell: none where they are a dash.
fn body(rt: &(impl Abort + AllocGlobal), blocks: &str) -> Vec<u8> {
    let mut body = Vec::new(rt.alloc());
    if blocks != "-" {
        for names in blocks.split('/') {
            put_named(rt, names, &mut body);
        }
    }
    body
}

/// The plaintext of a file with this header and these blocks, filled up.
pub(crate) fn filled(rt: &(impl Abort + AllocGlobal), header: &str, blocks: &[u8]) -> Vec<u8> {
    let least = plain(rt, header, blocks, 64).len();
    assert!(rt; least <= PLAIN);
    plain(rt, header, blocks, PLAIN - least + 64)
}

/// The objects that words tell, in a store that fails by a plan.
pub(crate) fn store(
    rt: &(impl Abort + AllocGlobal),
    words: &str,
    plan: Vec<(u64, bool)>,
) -> MemStore {
    let mut store = MemStore::new(rt.alloc(), plan);
    for word in words.split(' ') {
        put_object(rt, word, &mut store);
    }
    store
}
