//! A store and a sink that fail in the middle of a scan: what was written before, and what is answered. What is
//! wanted follows by hand from the blocks of rows of the data files in `table.rt`: two and two, two, one and two.

use crate::words::{answer, path, refusal, store};
use icb_base::{FuseStore, MemSink};
use std::process::Abort;

/// What is written where the first, the second, .. write fails behind half of its text, a bar for each line feed.
/// One write has the lines of a block.
const CUT: &str = r#"[1,"a"]|
[1,"a"]|[2,null]|[3,"c"]|
[1,"a"]|[2,null]|[3,"c"]|[4,"d"]|[10,"x"]|
[1,"a"]|[2,null]|[3,"c"]|[4,"d"]|[10,"x"]|[11,null]|[3,"
[1,"a"]|[2,null]|[3,"c"]|[4,"d"]|[10,"x"]|[11,null]|[3,"e"]|[20,"f"]|"#;

/// How many rows come before the end of a block.
const ENDS: [usize; 6] = [0, 2, 4, 6, 7, 9];

/// Whether these are the bytes of a text in which a bar stands for a line feed.
fn is_text(written: &[u8], text: &str) -> bool {
    let wanted = text.as_bytes();
    if written.len() != wanted.len() {
        return false;
    }
    for at in 0..wanted.len() {
        let byte = if wanted[at] == b'|' {
            b'\n'
        } else {
            wanted[at]
        };
        if written[at] != byte {
            return false;
        }
    }
    true
}

/// How many lines a text has.
fn lines(text: &[u8]) -> usize {
    let mut count = 0usize;
    for byte in text {
        if *byte == b'\n' {
            count = count.saturating_add(1);
        }
    }
    count
}

/// A sink whose write of this number, from 0, fails.
fn sink(rt: &(impl Abort + AllocGlobal), number: u64) -> MemSink {
    let mut fails = Vec::new(rt.alloc());
    fails.push(number).expect(rt, "room");
    MemSink::new(rt.alloc(), fails)
}

#[test]
fn a_sink_that_fails_ends_the_scan(rt: HostRuntime) {
    let mut number = 0u64;
    for text in CUT.lines() {
        let mut objects = store(&rt, "-", "-");
        let mut out = sink(&rt, number);
        let fault = answer(&rt, &mut objects, "", &mut out)
            .err()
            .expect(&rt, "a refusal");
        assert!(rt; refusal(&rt, &fault).as_str() == "Sink", "{number}");
        assert!(rt; is_text(out.written(), text), "{number}");
        let reached = objects.asked_of(&path(&rt, "data/c")) > 0;
        assert!(rt; reached == (number > 2), "{number}");
        number = number.saturating_add(1);
    }
    let mut objects = store(&rt, "-", "-");
    let shown = answer(&rt, &mut objects, "", &mut sink(&rt, number)).expect(&rt, "an answer");
    assert!(rt; shown == 9);
}

#[test]
fn a_store_that_stops_ends_the_scan(rt: HostRuntime) {
    let mut objects = store(&rt, "-", "-");
    let mut whole = MemSink::new(rt.alloc(), Vec::new(rt.alloc()));
    let shown = answer(&rt, &mut objects, "", &mut whole).expect(&rt, "an answer");
    assert!(rt; shown == 9);
    let mut before = 0usize;
    for calls in 0..objects.calls() {
        let mut inner = store(&rt, "-", "-");
        let mut out = MemSink::new(rt.alloc(), Vec::new(rt.alloc()));
        let fault = answer(&rt, &mut FuseStore::new(&mut inner, calls), "", &mut out)
            .err()
            .expect(&rt, "a refusal");
        assert!(rt; refusal(&rt, &fault).as_str() == "Store", "{calls}");
        assert!(rt; whole.written().starts_with(out.written()), "{calls}");
        let rows = lines(out.written());
        assert!(rt; ENDS.contains(&rows) && before <= rows, "{calls}");
        before = rows;
    }
    assert!(rt; before == 7);
}
