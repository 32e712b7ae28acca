//! What is printed of a table of which an object is another: changed, exchanged, cut, longer, missing.

use crate::outside::{NEVER, Seen, check_end, objects, part, path};
use icb_base::{Bytes, MemStore};
use std::process::Abort;

/// A change, the object, the words behind `scan t --columns n --keys k`, and what comes of it. The plaintexts of
/// `data/a`, `data/b` and `data/c` have 280, 250 and 276 bytes, their first blocks of rows end at 250, 250 and 246, and
/// a cipher block has 64 bytes, or a mebibyte in `data/d`.
const CHANGED: &str = r#"all data/b --range n --low 1 --high 2;0;[1]|[2]|;
all data/b;14;[1]|[2]|[3]|[4]|;Header "data/b" Magic 40465230|
last data/b;15;[1]|[2]|[3]|[4]|;Block "data/b" 3|
last data/a;15;[1]|[2]|;Block "data/a" 4|
exchanged data/a;15;;Block "data/a" 0|
exchanged data/b;15;[1]|[2]|[3]|[4]|;Block "data/b" 0|
cut data/c;13;[1]|[2]|[3]|[4]|[10]|[11]|;Short "data/c" 376|
longer data/a;0;[1]|[2]|[3]|[4]|[10]|[11]|[3]|[20]|[21]|;
longer meta/list77;0;[1]|[2]|[3]|[4]|[10]|[11]|[3]|[20]|[21]|;
blocks-of-128 data/a --skip 1;15;;Block "data/a" 0|
blocks-of-40 data/a --skip 1;14;;Header "data/a" BadLength 428|
blocks-of-0 data/a;14;;Header "data/a" BlockLength 0|
blocks-of-2097152 data/d --snapshot 80;0;[5]|[6]|;
missing data/b;12;[1]|[2]|[3]|[4]|;Missing "data/b"|
missing data/b --take 4;0;[1]|[2]|[3]|[4]|;
missing data/b --range n --low 3 --high 3;0;[3]|[3]|;
missing meta/2 --snapshot 76 --skip 5;0;[11]|;
missing meta/list77;12;;Missing "meta/list77"|
missing meta/list77 --take 0;0;;"#;

/// The byte at a place of a changed object, where it was another one.
fn changed(change: &str, at: u64, byte: u8) -> u8 {
    match (change, at) {
        ("all", _) => byte ^ 1,
        ("blocks-of-128", 4) => 128,
        ("blocks-of-40", 4) => 40,
        ("blocks-of-0", 4) => 0,
        ("blocks-of-2097152", 6) => 32,
        _ => byte,
    }
}

/// The place from which the byte at a place of a changed object comes: the first two of its blocks may be exchanged.
fn origin(change: &str, at: u64) -> u64 {
    match at {
        8..=99 if change == "exchanged" => at + 92,
        100..=191 if change == "exchanged" => at - 92,
        _ => at,
    }
}

/// A changed object.
fn object(rt: &(impl Abort + AllocGlobal), change: &str, bytes: &[u8]) -> Bytes {
    let mut made = Vec::new(rt.alloc());
    for at in 0..bytes.len() as u64 {
        let byte = bytes.get(origin(change, at) as usize).expect(rt, "a byte");
        made.push(changed(change, at, *byte)).expect(rt, "room");
    }
    end(rt, change, &mut made);
    Bytes::from_vec(made)
}

/// Changes the end of an object.
fn end(rt: &(impl Abort + AllocGlobal), change: &str, made: &mut Vec<u8>) {
    match change {
        "last" => {
            let last = made.pop().expect(rt, "a last byte");
            made.push(last ^ 1).expect(rt, "room");
        }
        "cut" => made.truncate(376),
        "longer" => made.push(7).expect(rt, "room"),
        "blocks-of-2097152" => {}
        _ => {}
    }
}

/// A store of the table's objects in which one was changed.
fn store(rt: &(impl Abort + AllocGlobal), change: &str, name: &str) -> MemStore {
    let mut store = objects(rt, NEVER);
    let path = path(rt, name);
    if change == "missing" {
        store.clear(&path);
        return store;
    }
    let made = object(rt, change, store.get(&path).expect(rt, "an object"));
    store.set(path, made).expect(rt, "room");
    store
}

/// Runs the row over a store in which the object of its change is another.
fn check_change(rt: &(impl Abort + AllocGlobal), row: &str) {
    let (change, rest) = part(rt, row, 0).split_once(' ').expect(rt, "a change");
    let (name, options) = match rest.split_once(' ') {
        Some((name, options)) => (name, options),
        None => (rest, "--skip 0"),
    };
    let mut seen = Seen::with(rt, store(rt, change, name));
    let words = format!(in rt.alloc(); "scan t --keys k --columns n {options}").expect(rt, "room");
    let ended = seen.run(rt, words.as_str());
    check_end(rt, &seen, ended, row, 1);
}

#[test]
fn changed_objects(rt: HostRuntime) {
    for row in CHANGED.lines() {
        check_change(&rt, row);
    }
}

/// A data file in the place of a shorter one, and an older list in the place of a longer one.
#[test]
fn objects_in_the_place_of_others(rt: HostRuntime) {
    for (name, other, row) in [
        (
            "data/b",
            "data/a",
            r#";15;[1]|[2]|[3]|[4]|;Block "data/b" 0|"#,
        ),
        (
            "meta/list77",
            "meta/list76",
            r#";13;;Short "meta/list77" 958|"#,
        ),
    ] {
        let mut store = objects(&rt, NEVER);
        let bytes = Bytes::from_slice(
            rt.alloc(),
            store.get(&path(&rt, other)).expect(&rt, "an object"),
        );
        store
            .set(path(&rt, name), bytes.expect(&rt, "room"))
            .expect(&rt, "room");
        let mut seen = Seen::with(&rt, store);
        let ended = seen.run(&rt, "scan t --keys k --columns n");
        check_end(&rt, &seen, ended, row, 1);
    }
}
