//! Keyrings and inputs that are refused, and calls of the outside that fail in the midst of an append.

use crate::outside::{NEVER, RING, Seen, check_row, check_rows, sink, source, store};
use std::process::Abort;

/// A table of one column.
const CREATE: &str = "create t --keys k --master m1 --schema n:long!;;0;version 1|;;1";

/// The words of an append.
const APPEND: &str = "append t --keys k";

/// An append that is whole, of the lines that each test begins with.
const WHOLE: &str = "append t --keys k;[1]|[2]|;0;snapshot 1 version 2|;;5";

/// Keyrings, and what an append ends with over each.
const RINGS: [(&str, &str); 3] = [
    ("m1=00", "append t --keys k;[1]|;3;;BadKeyring 1|;1"),
    (
        "m2=101112131415161718191a1b1c1d1e1f",
        r#"append t --keys k;[1]|;8;;NoKey "m1"|;1"#,
    ),
    ("", r#"append t --keys k;[]|;4;;BadInput 1|;1"#),
];

/// The calls that an append makes of the store, behind the one of `create`: two probes, two to read version 1, the puts of
/// a data file, a manifest, a list and the next version; and how many objects are held when each fails.
const CALLS: [u64; 8] = [1, 1, 1, 1, 1, 2, 3, 4];

/// How many objects are held when each fill of the draws fails: that of the append's own bytes, a key and a marker for a
/// data file, a manifest and a list, and the nonce of the list's key.
const FILLS: [u64; 8] = [1, 1, 1, 2, 2, 3, 3, 4];

/// What is printed where each of the six writes fails, of which half of its bytes come through, and where none does.
const WRITTEN: [&str; 7] = [
    "snap",
    "snapshot ",
    "snapshot 1",
    "snapshot 1 vers",
    "snapshot 1 version ",
    "snapshot 1 version 2",
    "snapshot 1 version 2\n",
];

/// A table of one column in a store and with draws that do this.
fn created(rt: &(impl Abort + AllocGlobal), call: u64, puts: bool, fill: u64) -> Seen {
    let mut seen = Seen::new(rt, store(rt, call, puts), fill);
    check_rows(rt, &mut seen, RING, CREATE);
    seen.next(rt, RING, "[1]|[2]|");
    seen
}

/// Appends to a table whose store fails at a call, and then appends again: the first one isn't there unless its
/// version was put.
fn fail_call(rt: &(impl Abort + AllocGlobal), call: u64, puts: bool, objects: u64) {
    let mut seen = created(rt, call, puts, NEVER);
    assert!(rt; seen.run(rt, APPEND) == 30, "call {call}");
    assert!(rt;
        seen.out.written().is_empty() && seen.table.objects() == objects,
        "call {call}"
    );
    seen.next(rt, RING, "[3]|");
    assert!(rt; seen.run(rt, APPEND) == 0, "behind call {call}");
    seen.next(rt, RING, "");
    assert!(rt;
        seen.run(rt, "scan t --keys k") == 0,
        "scan behind call {call}"
    );
    let is_put = call == 8 && puts;
    let rows = if is_put { "[1]\n[2]\n[3]\n" } else { "[3]\n" };
    assert!(rt;
        seen.out.written() == rows.as_bytes(),
        "rows behind call {call}"
    );
}

#[test]
fn calls_of_the_store_fail(rt: HostRuntime) {
    for (at, objects) in CALLS.iter().enumerate() {
        fail_call(&rt, at as u64 + 1, false, *objects);
    }
    check_row(&rt, &mut created(&rt, 9, false, NEVER), WHOLE);
}

/// The same where the put takes place first.
#[test]
fn puts_take_place_and_fail(rt: HostRuntime) {
    for call in 5..9u64 {
        fail_call(&rt, call, true, call - 3);
    }
}

/// Appends to a table with draws that fail at a fill.
fn fail_fill(rt: &(impl Abort + AllocGlobal), fill: u64, objects: u64) {
    let mut seen = created(rt, NEVER, false, fill);
    assert!(rt; seen.run(rt, APPEND) == 33, "fill {fill}");
    assert!(rt;
        seen.err.written() == b"RandomFault\n".as_slice(),
        "fill {fill}"
    );
    assert!(rt;
        seen.out.written().is_empty() && seen.table.objects() == objects,
        "fill {fill}"
    );
}

#[test]
fn fills_fail(rt: HostRuntime) {
    for (at, objects) in FILLS.iter().enumerate() {
        fail_fill(&rt, at as u64 + 1, *objects);
    }
    check_row(&rt, &mut created(&rt, NEVER, false, 9), WHOLE);
}

/// Appends where a write fails: the version is there, and a front of the line is printed.
fn fail_write(rt: &(impl Abort + AllocGlobal), call: u64, written: &str) {
    let mut seen = created(rt, NEVER, false, NEVER);
    seen.out = sink(rt, call);
    let ended = seen.run(rt, APPEND);
    assert!(rt;
        ended == if call < 6 { 32 } else { 0 },
        "write {call}: {ended}"
    );
    assert!(rt; seen.out.written() == written.as_bytes(), "write {call}");
    seen.next(rt, RING, "");
    assert!(rt;
        seen.run(rt, "scan t --keys k") == 0,
        "scan behind write {call}"
    );
    assert!(rt;
        seen.out.written() == b"[1]\n[2]\n".as_slice(),
        "rows behind write {call}"
    );
}

#[test]
fn writes_fail(rt: HostRuntime) {
    for (call, written) in WRITTEN.iter().enumerate() {
        fail_write(&rt, call as u64, written);
    }
}

#[test]
fn keyrings(rt: HostRuntime) {
    for (ring, row) in RINGS.iter() {
        let mut seen = created(&rt, NEVER, false, NEVER);
        check_rows(&rt, &mut seen, ring, row);
    }
}

/// Reads of the keyring and of the input fail, and nothing was asked of the table behind `create`.
fn fail_read(rt: &(impl Abort + AllocGlobal), keys: u64, input: u64) {
    let mut seen = created(rt, NEVER, false, NEVER);
    let calls = seen.table.calls();
    seen.keys = source(rt, RING, keys);
    seen.input = source(rt, "[1]|[2]|[3]|[4]|[5]|[6]|", input);
    check_row(rt, &mut seen, "append t --keys k;;31;;InputFault|;1");
    assert!(rt; seen.table.calls() == calls, "reads {keys} and {input}");
}

#[test]
fn reads_fail(rt: HostRuntime) {
    for call in 0..5u64 {
        fail_read(&rt, call, 0);
    }
    for call in 0..3u64 {
        fail_read(&rt, NEVER, call);
    }
}
