//! The command `rotate`, and scans behind it: the new master alone opens what the old one did.

use crate::outside::{NEVER, Seen, check_row, objects, one, path, source};
use crate::table::RING;
use icb_base::MemSink;
use std::process::Abort;

/// Another master.
const OTHER: &str = "m2=303132333435363738393a3b3c3d3e3f4041424344454647";

/// The words that change the master to it.
const ROTATE: &str = "rotate t --keys k --master m2";

/// Words, and why they are refused. The keyring has both masters, and the table's first key is `k`.
const REFUSED: &str = r#"rotate;2;;Usage 1|
rotate t;2;;Usage 2|
rotate t --keys k;2;;Usage 4|
rotate t --master m2;2;;Usage 4|
rotate t --keys k --master;2;;Usage 5|
rotate t --keys k --master m!;2;;Usage 5|
rotate t --keys k --take 1;2;;Usage 4|
rotate t --master m2 --keys k --master m2;2;;Usage 6|
rotate t --master m --keys k;20;;SameKey "m"|
rotate t --keys k --master k;20;;KeyName "k"|
rotate t --keys k --master m9;8;;NoKey "m9"|"#;

/// Words, and what comes of them under the new master alone.
const BEHIND: &str = r#"scan t --keys k --columns n;0;[1]|[2]|[3]|[4]|[10]|[11]|[3]|[20]|[21]|;
scan t --keys k --columns n --snapshot 76;0;[1]|[2]|[3]|[4]|[10]|[11]|;
scan t --keys k --columns n --snapshot 80;0;[5]|[6]|;
rotate t --keys k --master m2;20;;SameKey "m2"|"#;

/// A keyring with both masters.
fn both(rt: &(impl Abort + AllocGlobal)) -> String {
    format!(in rt.alloc(); "{RING}\n{OTHER}").expect(rt, "room")
}

/// The table, with a keyring of these lines and nothing printed yet.
fn next(rt: &(impl Abort + AllocGlobal), seen: &mut Seen, lines: &str) {
    seen.keys = source(rt, lines, NEVER);
    seen.out = MemSink::new(rt.alloc(), Vec::new(rt.alloc()));
    seen.err = MemSink::new(rt.alloc(), Vec::new(rt.alloc()));
}

/// The table rotated to the other master.
fn rotated(rt: &(impl Abort + AllocGlobal)) -> Seen {
    let mut seen = Seen::new(rt);
    let held = seen.table.objects();
    next(rt, &mut seen, both(rt).as_str());
    check_row(rt, &mut seen, "rotate t --keys k --master m2;0;version 2|;");
    assert!(rt; seen.table.objects() == held.saturating_add(1));
    seen
}

#[test]
fn the_new_master_alone_shows_all_rows(rt: HostRuntime) {
    for row in BEHIND.lines() {
        let mut seen = rotated(&rt);
        next(&rt, &mut seen, OTHER);
        check_row(&rt, &mut seen, row);
    }
}

#[test]
fn the_old_master_alone_shows_none(rt: HostRuntime) {
    let mut seen = rotated(&rt);
    next(&rt, &mut seen, RING);
    check_row(&rt, &mut seen, r#"scan t --keys k;8;;NoKey "m2"|"#);
}

#[test]
fn refused_rotations(rt: HostRuntime) {
    for row in REFUSED.lines() {
        let mut seen = Seen::new(&rt);
        let held = seen.table.objects();
        next(&rt, &mut seen, both(&rt).as_str());
        check_row(&rt, &mut seen, row);
        assert!(rt; seen.table.objects() == held, "{row}");
    }
}

/// The store's calls fail in turn: two probes, two to read version 1, and the put.
#[test]
fn calls_of_the_store_fail(rt: HostRuntime) {
    for call in 0..6u64 {
        let mut seen = Seen::with(&rt, objects(&rt, call));
        next(&rt, &mut seen, both(&rt).as_str());
        let ended = seen.run(&rt, ROTATE);
        assert!(rt; ended == if call < 5 { 30 } else { 0 }, "{call}: {ended}");
        assert!(rt; seen.out.written().is_empty() == (call < 5), "{call}");
    }
}

/// The output's writes fail in turn, behind the put.
#[test]
fn writes_fail(rt: HostRuntime) {
    for call in 0..4u64 {
        let mut seen = Seen::new(&rt);
        next(&rt, &mut seen, both(&rt).as_str());
        seen.out = MemSink::new(rt.alloc(), one(&rt, call));
        let ended = seen.run(&rt, ROTATE);
        assert!(rt; ended == if call < 3 { 32 } else { 0 }, "{call}: {ended}");
        assert!(rt; b"version 2\n".as_slice().starts_with(seen.out.written()));
        let put = seen.table.get(&path(&rt, "metadata/v2.metadata.json"));
        assert!(rt; put.is_some(), "{call}");
    }
}

/// A read of the keyring fails, and nothing was asked of the table.
#[test]
fn a_keyring_that_is_not_read(rt: HostRuntime) {
    let mut seen = Seen::new(&rt);
    seen.keys = source(&rt, RING, 0);
    check_row(
        &rt,
        &mut seen,
        "rotate t --keys k --master m2;31;;InputFault|",
    );
    next(&rt, &mut seen, "m1=00");
    check_row(
        &rt,
        &mut seen,
        "rotate t --keys k --master m2;3;;BadKeyring 1|",
    );
    assert!(rt; seen.table.calls() == 0);
}
