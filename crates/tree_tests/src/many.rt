//! A walk over a list of 1,000 manifests of 10 files each: which files it gives, and how often it asks for each
//! object.

use crate::made::{filled, path, plain, put_block, put_part, sealed};
use crate::trees::{answer, next_file, walk};
use icb_base::{MemStore, ObjPath};
use icb_walk::Walk;
use std::process::Abort;

/// How many rows the list has, in blocks of 50.
const ROWS: usize = 1000;

/// The last four decimal digits of a number.
fn digits(number: usize) -> [u8; 4] {
    [
        48 + (number / 1000 % 10) as u8,
        48 + (number / 100 % 10) as u8,
        48 + (number / 10 % 10) as u8,
        48 + (number % 10) as u8,
    ]
}

/// The bytes of a part.
fn part(rt: &(impl Abort + AllocGlobal), name: &str) -> Vec<u8> {
    let mut part = Vec::new(rt.alloc());
    put_part(rt, name, &mut part);
    part
}

/// Adds a part with the digits of a number from a place on.
fn put_numbered(
    rt: &(impl Abort + AllocGlobal),
    part: &[u8],
    place: usize,
    number: usize,
    bytes: &mut Vec<u8>,
) {
    let mut part = part.to_vec(rt.alloc()).expect(rt, "room");
    for (at, digit) in digits(number).iter().enumerate() {
        let at = at.saturating_add(place);
        assert!(rt; at < part.len());
        part[at] = *digit;
    }
    bytes.extend_from_slice(part.as_slice()).expect(rt, "room");
}

/// A path of a folder, whose name is the digits of a number.
fn numbered(rt: &(impl Abort + AllocGlobal), folder: &[u8], number: usize) -> ObjPath {
    let mut name = folder.to_vec(rt.alloc()).expect(rt, "room");
    name.extend_from_slice(&digits(number)).expect(rt, "room");
    ObjPath::read(rt.alloc(), name.as_slice()).expect(rt, "a path")
}

/// Puts the list, whose rows name the manifests `meta/0000` to `meta/0999`.
fn put_list(rt: &(impl Abort + AllocGlobal), store: &mut MemStore) {
    let row = part(rt, "many");
    let mut blocks = Vec::new(rt.alloc());
    for block in 0..ROWS / 50 {
        let mut rows = Vec::new(rt.alloc());
        for at in 0..50 {
            put_numbered(rt, row.as_slice(), 15, 50 * block + at, &mut rows);
        }
        put_block(rt, 50, rows.as_slice(), &mut blocks);
    }
    let list = plain(rt, "L", blocks.as_slice(), 64);
    let object = sealed(rt, list.as_slice(), "meta/many", 4096);
    store.set(path(rt, "meta/list"), object).expect(rt, "room");
}

/// Puts the manifest of this number, whose ten files are those from ten times that number on.
fn put_manifest(
    rt: &(impl Abort + AllocGlobal),
    entry: &[u8],
    number: usize,
    store: &mut MemStore,
) {
    assert!(rt; number < ROWS);
    let mut entries = Vec::new(rt.alloc());
    for at in 0..10 {
        put_numbered(rt, entry, 20, 10 * number + at, &mut entries);
    }
    let mut blocks = Vec::new(rt.alloc());
    put_block(rt, 10, entries.as_slice(), &mut blocks);
    let manifest = filled(rt, "M", blocks.as_slice());
    let object = sealed(rt, manifest.as_slice(), "m", 256);
    store
        .set(numbered(rt, b"meta/", number), object)
        .expect(rt, "room");
}

/// All objects in a store.
fn objects(rt: &(impl Abort + AllocGlobal)) -> MemStore {
    let mut store = MemStore::new(rt.alloc(), Vec::new(rt.alloc()));
    put_list(rt, &mut store);
    let entry = part(rt, "of-many");
    for number in 0..ROWS {
        put_manifest(rt, entry.as_slice(), number, &mut store);
    }
    store
}

/// The next file that a walk gives is the one of this number.
fn check_next(
    rt: &(impl Abort + AllocGlobal),
    walk: &mut Walk,
    store: &mut MemStore,
    number: usize,
) {
    let leaf = next_file(rt, walk, store);
    let wanted = numbered(rt, b"data/", number);
    assert!(rt; leaf.path.as_str() == wanted.as_str());
    assert!(rt; leaf.row == (number / 10) as u64);
}

/// A manifest has 1,804 bytes in 7 cipher blocks. It is asked for its size, its first 8 bytes and each block once:
/// none of its numbers stands within 9 bytes before a block's end, where the next one is read too, and then again.
fn check_manifest(rt: &(impl Abort + AllocGlobal), store: &MemStore, number: usize) {
    let manifest = numbered(rt, b"meta/", number);
    assert!(rt; store.asked_of(&manifest) == 9 && store.moved_of(&manifest) == 1_804);
}

/// A walk gives all files in their order, and no more.
fn check_walk(rt: &(impl Abort + AllocGlobal), walk: &mut Walk, store: &mut MemStore) {
    for number in 0..10 * ROWS {
        check_next(rt, walk, store, number);
    }
    let (more, words) = answer(rt, walk, store);
    assert!(rt; !more && words.as_str() == "end");
}

/// The list has 60,601 bytes in 15 cipher blocks, of which the same holds as of a manifest.
fn check_list(rt: &(impl Abort + AllocGlobal), store: &MemStore) {
    let list = path(rt, "meta/list");
    assert!(rt; store.asked_of(&list) == 17 && store.moved_of(&list) == 60_601);
}

/// All files are given in their order, and each object is asked for that often.
fn check_all(rt: &(impl Abort + AllocGlobal)) {
    let mut store = objects(rt);
    let mut walk = walk(rt, 9).expect(rt, "a walk");
    check_walk(rt, &mut walk, &mut store);
    check_list(rt, &store);
    for number in 0..ROWS {
        check_manifest(rt, &store, number);
    }
}

#[test]
fn a_thousand_manifests_are_walked(rt: HostRuntime) {
    check_all(&rt);
}
