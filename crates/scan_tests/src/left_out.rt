//! Rows that aren't looked at: those behind the last one that is asked for, and those of blocks whose rows are all left
//! out. What is wanted follows from the rows of `table.rt` by hand; its data files have blocks of two and two rows, of
//! two, and of one and two.

use crate::scans::{are_rows, part};
use crate::table::WITH_NULLS;
use crate::words::{answer, path, refusal, store};
use icb_base::{Bytes, MemSink, MemStore};
use std::process::Abort;

/// A query, the rows that are written, and the refusal, if any, where the second row of `data/a` and the last one of
/// `data/c` have no number.
const ROWS: &str = r#";[1,"a"];another of data/a
take=1;[1,"a"];
take=2;[1,"a"];another of data/a
skip=1;;another of data/a
skip=1 take=1;;another of data/a
skip=2 take=1;[3,"c"];
skip=2 take=6;[3,"c"] [4,"d"] [10,"x"] [11,null] [3,"e"] [20,"f"];
skip=2 take=7;[3,"c"] [4,"d"] [10,"x"] [11,null] [3,"e"] [20,"f"];another of data/c
skip=3 take=1;[4,"d"];
skip=7 take=1;[20,"f"];
skip=7;[20,"f"];another of data/c
skip=8;;another of data/c
skip=9;;
range=n:3:- skip=2;;another of data/a
snapshot=76 skip=2 take=2;[3,"c"] [4,"d"];"#;

/// The objects, of which two data files are others.
fn with_nulls(rt: &(impl Abort + AllocGlobal)) -> MemStore {
    let mut store = store(rt, "-", "-");
    for line in WITH_NULLS.lines() {
        let (name, digits) = line.split_once(' ').expect(rt, "a path and digits");
        let bytes = hex::decode(rt.alloc(), digits).expect(rt, "hexadecimal digits");
        store
            .set(path(rt, name), Bytes::from_vec(bytes))
            .expect(rt, "room");
    }
    store
}

/// Holds a scan against its row.
fn check_row(rt: &(impl Abort + AllocGlobal), row: &str) {
    let mut sink = MemSink::new(rt.alloc(), Vec::new(rt.alloc()));
    let found = answer(rt, &mut with_nulls(rt), part(rt, row, 0), &mut sink);
    let (same, count) = are_rows(rt, sink.written(), part(rt, row, 1));
    assert!(rt; same, "{row}");
    let wanted = part(rt, row, 2);
    match found {
        Ok(shown) => assert!(rt; wanted == "" && shown == count, "{row}"),
        Err(fault) => {
            let told = refusal(rt, &fault);
            assert!(rt; told.as_str() == wanted, "{row}: {told}");
        }
    }
}

#[test]
fn rows_that_are_not_looked_at(rt: HostRuntime) {
    for row in ROWS.lines() {
        check_row(&rt, row);
    }
}
