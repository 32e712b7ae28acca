//! Appends that are refused, and calls that fail: which refusal comes, and what was put till then. The table's
//! text is changed at one place, or the lines; what is wanted follows from the change by hand.

use crate::outside::{META, NEVER, answer, draws, hold, number, part, table};
use icb_base::{ByteDraws, MemStore};
use icb_turns::{CannotWhat, JobFault};
use std::process::Abort;

/// What is changed in the text of the first version, what stands in its place, the lines, and the refusal.
const REFUSED: &str = r#"file;file;[1] x [2];BadInput 2
file;file;[1] [2] [3,4];BadInput 3
"encryption.key-id":"m1",;;[1];NotEncrypted
"m1";"m2";[1];Chain
"name":"n";"name":"1n";[1];ColumnName
"name":"n";"name":"1n";[x];BadInput 1
"fields":[],"spec-id":0;"fields":[{"field-id":1000,"name":"p","source-id":1,"transform":"identity"}],"spec-id":0;[1];Partitioned
[],"order-id":0}],"default-sort-order-id":0;[{"direction":"asc","null-order":"nulls-first","source-id":1,"transform":"identity"}],"order-id":1}],"default-sort-order-id":1;[1];Sorted
"format-version":3;"format-version":2;[1];BadMeta
"next-row-id":0;"next-row-id":4611686018427387904;[1];Limit 4611686018427387904
"last-sequence-number":0;"last-sequence-number":4611686018427387904;[1];Limit 4611686018427387904"#;

/// A name in words.
fn one(rt: &(impl Abort + AllocGlobal), name: &str) -> String {
    String::from_str(rt.alloc(), name).expect(rt, "room")
}

/// A name and a number in words.
fn two(rt: &(impl Abort + AllocGlobal), name: &str, number: u64) -> String {
    let words = format!(in rt.alloc(); "{name} {number}");
    words.expect(rt, "room")
}

/// A refusal in words.
fn in_words(rt: &(impl Abort + AllocGlobal), fault: &JobFault) -> String {
    match fault {
        JobFault::BadInput { line, .. } => two(rt, "BadInput", *line),
        JobFault::Limit { number, .. } => two(rt, "Limit", *number),
        JobFault::Cannot { what } => one(rt, form_of(*what)),
        fault => one(rt, name_of(fault)),
    }
}

/// The name of a form.
fn form_of(what: CannotWhat) -> &'static str {
    match what {
        CannotWhat::NotEncrypted => "NotEncrypted",
        CannotWhat::Partitioned => "Partitioned",
        CannotWhat::Sorted => "Sorted",
        CannotWhat::ColumnName => "ColumnName",
        CannotWhat::NoRowIds => "NoRowIds",
    }
}

/// The name of a refusal that has no value.
fn name_of(fault: &JobFault) -> &'static str {
    match fault {
        JobFault::NoTable => "NoTable",
        JobFault::BadMeta { .. } => "BadMeta",
        JobFault::Tree(_) => "Chain",
        JobFault::NameTaken { .. } => "NameTaken",
        JobFault::Random => "Random",
        JobFault::Store => "Store",
        _ => "another",
    }
}

/// What an append of lines is refused with, in words; "none" where it isn't.
fn refusal(
    rt: &(impl Abort + AllocGlobal),
    words: &str,
    store: &mut MemStore,
    draws: &mut ByteDraws,
) -> String {
    match answer(rt, words, store, draws) {
        Ok(_) => one(rt, "none"),
        Err(fault) => in_words(rt, &fault),
    }
}

/// The text of the first version with the change of a row.
fn changed(rt: &(impl Abort + AllocGlobal), row: &str) -> String {
    let text = META.replace(rt.alloc(), part(rt, row, 0), part(rt, row, 1));
    text.expect(rt, "room")
}

/// Each puts nothing and draws nothing: the last append has all bytes that it needs.
#[test]
fn refusals_put_and_draw_nothing(rt: HostRuntime) {
    let mut draws = draws(&rt, 148);
    for row in REFUSED.lines() {
        let mut store = table(&rt, changed(&rt, row).as_str(), NEVER, false);
        let found = refusal(&rt, part(&rt, row, 2), &mut store, &mut draws);
        assert!(rt; found.as_str() == part(&rt, row, 3), "{row}: {found}");
        assert!(rt; store.objects() == 1, "{row}");
    }
    let mut store = table(&rt, META, NEVER, false);
    let found = refusal(&rt, "[1]", &mut store, &mut draws);
    assert!(rt; found.as_str() == "none", "{found}");
}

/// How many bytes there are to draw, the refusal, and the objects that are held then. The paths take 16; each
/// of the data file, the manifest and the list 16 for its key, 8 for nonces and 16 for its marker; the entry
/// of the list's key 12.
const DRAWN: &str = "15;Random;1
55;Random;1
95;Random;2
135;Random;3
147;Random;4
148;none;5";

#[test]
fn too_few_bytes_are_drawn(rt: HostRuntime) {
    for row in DRAWN.lines() {
        let mut store = table(&rt, META, NEVER, false);
        let count = number(&rt, row, 0);
        assert!(rt; count < 1000);
        let mut draws = draws(&rt, count as u32);
        let found = refusal(&rt, "[1]", &mut store, &mut draws);
        assert!(rt; found.as_str() == part(&rt, row, 1), "{row}: {found}");
        assert!(rt; store.objects() == number(&rt, row, 2), "{row}");
    }
}

/// The call that fails, the refusal, and the objects that are held where it left nothing behind, and where it
/// put. There are two probes, two calls that read version 1, and four puts.
const FAILED: &str = "0;Store;1;1
1;Store;1;1
2;Store;1;1
3;Store;1;1
4;Store;1;2
5;Store;2;3
6;Store;3;4
7;Store;4;5
8;none;5;5";

#[test]
fn each_call_fails_in_turn(rt: HostRuntime) {
    for row in FAILED.lines() {
        for puts in [false, true] {
            let mut store = table(&rt, META, number(&rt, row, 0), puts);
            let mut draws = draws(&rt, 148);
            let found = refusal(&rt, "[1]", &mut store, &mut draws);
            let held = if puts { 3 } else { 2 };
            assert!(rt; found.as_str() == part(&rt, row, 1), "{row}: {found}");
            assert!(rt; store.objects() == number(&rt, row, held), "{row}");
        }
    }
}

/// The paths of the files of the first append.
const PATHS: &str = "data/030a11181f262d343b424950575e656c-00000.avro;NameTaken;2
metadata/030a11181f262d343b424950575e656c-m0.avro;NameTaken;3
metadata/snap-1-1-030a11181f262d343b424950575e656c.avro;NameTaken;4";

#[test]
fn a_path_is_held(rt: HostRuntime) {
    for row in PATHS.lines() {
        let mut store = table(&rt, META, NEVER, false);
        hold(&rt, &mut store, part(&rt, row, 0), "held");
        let mut draws = draws(&rt, 148);
        let found = refusal(&rt, "[1]", &mut store, &mut draws);
        assert!(rt; found.as_str() == part(&rt, row, 1), "{row}: {found}");
        assert!(rt; store.objects() == number(&rt, row, 2), "{row}");
    }
}

#[test]
fn no_table(rt: HostRuntime) {
    let mut store = MemStore::new(rt.alloc(), Vec::new(rt.alloc()));
    let mut draws = draws(&rt, 148);
    let found = refusal(&rt, "[1]", &mut store, &mut draws);
    assert!(rt; found.as_str() == "NoTable", "{found}");
    assert!(rt; store.objects() == 0);
}
