//! What a walk gives over a tree, file by file, and which objects it asks for.

use crate::made::{number, path, store};
use crate::table::{META, RING, STARTS, TREES};
use crate::words::{leaf, refusal};
use icb_base::MemStore;
use icb_chain::Keyring;
use icb_meta::TableMeta;
use icb_walk::{Leaf, TreeFault, Walk};
use std::process::Abort;

/// The part of a line of a table at a place, from 0.
pub(crate) fn part<'t>(rt: &impl Abort, line: &'t str, place: usize) -> &'t str {
    for (at, part) in line.split(';').enumerate() {
        if at == place {
            return part;
        }
    }
    panic!(rt; "a part is missing: {line}")
}

/// The metadata.
pub(crate) fn metadata(rt: &(impl Abort + AllocGlobal)) -> TableMeta {
    TableMeta::read(rt.alloc(), META.as_bytes()).expect(rt, "metadata")
}

/// The keyring.
pub(crate) fn keyring(rt: &(impl Abort + AllocGlobal)) -> Keyring {
    Keyring::read(rt.alloc(), RING.as_bytes()).expect(rt, "a keyring")
}

/// A walk below the list of a snapshot.
pub(crate) fn walk(rt: &(impl Abort + AllocGlobal), snapshot: usize) -> Result<Walk, TreeFault> {
    assert!(rt; snapshot < 100);
    Walk::new(rt.alloc(), &metadata(rt), &keyring(rt), snapshot as i64)
}

/// What the next call answers, and whether a file was given.
pub(crate) fn answer(
    rt: &(impl Abort + AllocGlobal),
    walk: &mut Walk,
    store: &mut MemStore,
) -> (bool, String) {
    match walk.next(rt.alloc(), store) {
        Ok(Some(found)) => (true, leaf(rt, &found)),
        Ok(None) => (false, format!(in rt.alloc(); "end").expect(rt, "room")),
        Err(fault) => (false, refusal(rt, &fault)),
    }
}

/// What a walk gives until it ends or is refused.
pub(crate) fn told(
    rt: &(impl Abort + AllocGlobal),
    walk: &mut Walk,
    store: &mut MemStore,
) -> String {
    let mut told = String::new(rt.alloc());
    for _ in 0..10 {
        let (more, words) = answer(rt, walk, store);
        told.push_str(words.as_str()).expect(rt, "room");
        if !more {
            return told;
        }
        told.push_str(", ").expect(rt, "room");
    }
    panic!(rt; "no end: {told}")
}

/// A walk gives this until it ends or is refused.
pub(crate) fn check_told(
    rt: &(impl Abort + AllocGlobal),
    walk: &mut Walk,
    store: &mut MemStore,
    wanted: &str,
) {
    let told = told(rt, walk, store);
    assert!(rt; told.as_str() == wanted, "{wanted}: {told}");
}

/// A walk ends in these words, and doesn't go on.
fn check_end(rt: &(impl Abort + AllocGlobal), walk: &mut Walk, store: &mut MemStore, wanted: &str) {
    let (more, again) = answer(rt, walk, store);
    assert!(rt;
        !more && wanted.ends_with(again.as_str()),
        "{wanted}: {again}"
    );
}

/// The names of the objects of these words that were asked for, in their order.
fn asked(rt: &(impl Abort + AllocGlobal), store: &MemStore, words: &str) -> String {
    let mut asked = String::new(rt.alloc());
    for word in words.split(' ') {
        let (name, _) = word.split_once('=').expect(rt, "a name");
        let at = format!(in rt.alloc(); "meta/{name}").expect(rt, "room");
        if store.asked_of(&path(rt, at.as_str())) > 0 {
            if asked.as_str() != "" {
                asked.push_str(" ").expect(rt, "room");
            }
            asked.push_str(name).expect(rt, "room");
        }
    }
    asked
}

/// Walks over the tree of a line of `TREES`.
fn check_tree(rt: &(impl Abort + AllocGlobal), line: &str) {
    let objects = part(rt, line, 2);
    let wanted = part(rt, line, 3);
    let mut store = store(rt, objects, Vec::new(rt.alloc()));
    let mut walk = walk(rt, number(rt, part(rt, line, 1))).expect(rt, "a walk");
    check_told(rt, &mut walk, &mut store, wanted);
    check_end(rt, &mut walk, &mut store, wanted);
    assert!(rt;
        asked(rt, &store, objects).as_str() == part(rt, line, 4),
        "{line}"
    );
}

#[test]
fn trees_are_walked(rt: HostRuntime) {
    for line in TREES.lines() {
        check_tree(&rt, line);
    }
}

/// The snapshot of a line of `STARTS` has no list that is read.
fn check_start(rt: &(impl Abort + AllocGlobal), line: &str) {
    let told = match walk(rt, number(rt, part(rt, line, 0))) {
        Ok(_) => panic!(rt; "{line}"),
        Err(fault) => refusal(rt, &fault),
    };
    assert!(rt; told.as_str() == part(rt, line, 1), "{line}: {told}");
}

#[test]
fn lists_are_refused(rt: HostRuntime) {
    for line in STARTS.lines() {
        check_start(&rt, line);
    }
}

/// The next file that a walk gives.
pub(crate) fn next_file(
    rt: &(impl Abort + AllocGlobal),
    walk: &mut Walk,
    store: &mut MemStore,
) -> Leaf {
    match walk.next(rt.alloc(), store) {
        Ok(Some(found)) => found,
        Ok(None) => panic!(rt; "the end"),
        Err(_) => panic!(rt; "a refusal"),
    }
}

/// A data file is that of the entry `n-a`.
fn check_file(rt: &impl Abort, leaf: &Leaf) {
    assert!(rt;
        leaf.key.key() == [7; 16].as_slice() && leaf.key.prefix() == Some(b"data/a".as_slice())
    );
    assert!(rt; leaf.key.length() == Some(100) && leaf.length == 100 && leaf.row == 0);
    assert!(rt;
        leaf.file.path.as_str() == "s3://b/t/data/a" && leaf.file.format.as_str() == "avro"
    );
    assert!(rt; leaf.file.records == 5 && leaf.file.size == 700 && leaf.file.content == 0);
    assert!(rt; leaf.file.values.as_slice() == [(2, 3)].as_slice() && leaf.file.nulls.is_empty());
    assert!(rt; leaf.file.first_row == Some(40));
}

/// The first data file of a tree of that entry.
fn check_first_file(rt: &(impl Abort + AllocGlobal)) {
    let mut store = store(rt, "list=K:k1 1=N:n-a", Vec::new(rt.alloc()));
    let mut walk = walk(rt, 1).expect(rt, "a walk");
    check_file(rt, &next_file(rt, &mut walk, &mut store));
}

#[test]
fn a_file_is_given_as_its_entry_says(rt: HostRuntime) {
    check_first_file(&rt);
}
