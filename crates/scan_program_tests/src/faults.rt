//! Calls of the outside that fail in the midst of a scan.

use crate::outside::{NEVER, Seen, check_row, objects, one, source};
use crate::table::{META, RING};
use icb_base::MemSink;
use std::process::Abort;

/// The rows of the current version.
const ROWS: &[u8] = b"[1]\n[2]\n[3]\n[4]\n[10]\n[11]\n[3]\n[20]\n[21]\n";

/// The words that choose them.
const SCAN: &str = "scan t --keys k --columns n";

/// Whether what was printed is a front of the rows.
fn is_front(seen: &Seen) -> bool {
    ROWS.starts_with(seen.out.written())
}

/// The number with which a scan ends of whose store this call fails, and how many bytes were printed.
fn ended_at(rt: &(impl Abort + AllocGlobal), call: u64) -> (u8, u64) {
    let mut seen = Seen::with(rt, objects(rt, call));
    let ended = seen.run(rt, SCAN);
    assert!(rt; is_front(&seen), "call {call}");
    (ended, seen.out.written().len() as u64)
}

/// Each call of the store in turn: what was printed is a front of the rows, which never becomes shorter, and the first
/// call that isn't made any more leaves them whole.
#[test]
fn calls_of_the_store(rt: HostRuntime) {
    let mut before = 0;
    for call in 0..200u64 {
        let (ended, printed) = ended_at(&rt, call);
        assert!(rt; printed >= before, "call {call}");
        before = printed;
        if ended == 0 {
            assert!(rt; printed == ROWS.len() as u64 && call > 20, "call {call}");
            return;
        }
        assert!(rt; ended == 30, "call {call}: {ended}");
    }
    assert!(rt; false, "no end");
}

/// A write for each block of rows, each failing in turn.
#[test]
fn writes(rt: HostRuntime) {
    for call in 0..5u64 {
        let mut seen = Seen::new(&rt);
        seen.out = MemSink::new(rt.alloc(), one(&rt, call));
        assert!(rt; seen.run(&rt, SCAN) == 32, "write {call}");
        assert!(rt;
            seen.err.written() == b"OutputFault\n".as_slice(),
            "write {call}"
        );
        assert!(rt;
            is_front(&seen) && seen.out.written().len() < ROWS.len(),
            "write {call}"
        );
    }
    let mut seen = Seen::new(&rt);
    seen.out = MemSink::new(rt.alloc(), one(&rt, 5));
    assert!(rt; seen.run(&rt, SCAN) == 0, "five writes");
}

/// A read of the keyring, and one of the metadata that is handed in.
#[test]
fn reads(rt: HostRuntime) {
    let mut seen = Seen::new(&rt);
    seen.keys = source(&rt, RING, 0);
    check_row(&rt, &mut seen, "scan t --keys k;31;;InputFault|");
    for call in [0, 1] {
        let mut seen = Seen::new(&rt);
        seen.trusted = source(&rt, META, call);
        check_row(
            &rt,
            &mut seen,
            "scan t --metadata m --keys k;31;;InputFault|",
        );
    }
    let mut seen = Seen::new(&rt);
    seen.trusted = source(&rt, META, NEVER);
    seen.table = objects(&rt, 0);
    check_row(
        &rt,
        &mut seen,
        "scan t --metadata m --keys k;30;;StoreFault|",
    );
}
