//! Appends to one table: the snapshot and the version that each puts, how many objects are held behind it, and
//! what a scan writes. What is wanted follows from the lines by hand.

use crate::outside::{META, NEVER, RING, answer, draws, lines, number, part, ring, table};
use icb_append::Committed;
use icb_base::{MemSink, MemStore};
use icb_scan::{Query, scan};
use icb_tree::current;
use std::process::Abort;

/// The lines, the snapshot, the version, the objects that are held then, and what a scan writes; a blank is a
/// line feed. An append puts a data file for each two rows, a manifest where it has rows, a list and a version.
const APPENDS: &str = ";1;2;3;
[1] [2] [3];2;3;8;[1] [2] [3]
[4];3;4;12;[1] [2] [3] [4]
;4;5;14;[1] [2] [3] [4]
[7] [6];5;6;18;[1] [2] [3] [4] [7] [6]";

/// Whether a scan of the current snapshot writes these lines.
fn shows(rt: &(impl Abort + AllocGlobal), store: &mut MemStore, words: &str) -> bool {
    let read = current(rt.alloc(), store).ok();
    let (_, meta) = read.expect(rt, "metadata");
    let mut sink = MemSink::new(rt.alloc(), Vec::new(rt.alloc()));
    let query = Query {
        snapshot: None,
        columns: None,
        range: None,
        skip: 0,
        take: None,
    };
    let ring = ring(rt, RING);
    let shown = scan(rt.alloc(), store, &meta, &ring, &query, &mut sink);
    let text = lines(rt, words);
    shown.is_ok() && sink.written() == text.as_str().as_bytes()
}

/// What a row says that is committed.
fn wanted(rt: &impl Abort, row: &str) -> Committed {
    let snapshot = number(rt, row, 1);
    assert!(rt; snapshot < 1000);
    Committed {
        snapshot: snapshot as i64,
        version: number(rt, row, 2),
    }
}

#[test]
fn rows_are_added_one_append_behind_another(rt: HostRuntime) {
    let mut store = table(&rt, META, NEVER, false);
    let mut draws = draws(&rt, 2048);
    for row in APPENDS.lines() {
        let put = answer(&rt, part(&rt, row, 0), &mut store, &mut draws);
        let put = put.ok().expect(&rt, "a version");
        assert!(rt; put == wanted(&rt, row), "{row}");
        assert!(rt; store.objects() == number(&rt, row, 3), "{row}");
        assert!(rt; shows(&rt, &mut store, part(&rt, row, 4)), "{row}");
    }
}
