//! What a scan writes and answers, and which data files it asks for. What is wanted follows from the rows of
//! `table.rt` by hand.

use crate::words::{answer, path, refusal, store};
use icb_base::{MemSink, MemStore};
use std::process::Abort;

/// A query, the rows that it chooses, and the last letters of the data files that it needs.
const CHOSEN: &str =
    r#";[1,"a"] [2,null] [3,"c"] [4,"d"] [10,"x"] [11,null] [3,"e"] [20,"f"] [21,"g"];abc
snapshot=76;[1,"a"] [2,null] [3,"c"] [4,"d"] [10,"x"] [11,null];ab
columns=s,n skip=2 take=1;["c",3];a
columns=s take=2;["a"] [null];a
columns=n,n skip=8;[21,21];abc
range=n:3:3;[3,"c"] [3,"e"];ac
range=n:4:-;[4,"d"] [10,"x"] [11,null] [20,"f"] [21,"g"];abc
range=n:-:2;[1,"a"] [2,null];ac
range=n:10:11 take=1;[10,"x"];b
range=n:3:- skip=1 take=2;[4,"d"] [10,"x"];ab
range=s:"c":"e";[3,"c"] [4,"d"] [3,"e"];abc
snapshot=76 range=n:12:-;;
skip=3 take=2;[4,"d"] [10,"x"];ab
skip=9;;abc
take=0;;
take=9;[1,"a"] [2,null] [3,"c"] [4,"d"] [10,"x"] [11,null] [3,"e"] [20,"f"] [21,"g"];abc
take=4;[1,"a"] [2,null] [3,"c"] [4,"d"];a"#;

/// A query, and why it is refused before a file is opened.
const REFUSED: &str = "snapshot=75;NoSnapshot 75
snapshot=75 columns=q;NoSnapshot 75
columns=n,q range=z:1:2;NoColumn q
range=z:1:2;NoColumn z
range=n:x:2;BadRange n
range=n:1:null;BadRange n
range=s:1:-;BadRange s";

/// A query, the path whose object ends in another byte, that of the object that isn't there, the rows that are
/// written, and the refusal, if any. The plaintexts of `data/a`, `data/b` and `data/c` have 280, 250 and 276 bytes,
/// their first blocks of rows end at 250, 250 and 246, and a cipher block has 64 bytes.
const CHANGED: &str = r#";data/a;-;[1,"a"] [2,null];Block data/a 4
;data/b;-;[1,"a"] [2,null] [3,"c"] [4,"d"];Block data/b 3
;data/c;-;[1,"a"] [2,null] [3,"c"] [4,"d"] [10,"x"] [11,null] [3,"e"];Block data/c 4
skip=6;data/c;-;[3,"e"];Block data/c 4
;-;data/b;[1,"a"] [2,null] [3,"c"] [4,"d"];Missing data/b
;-;meta/2;[1,"a"] [2,null] [3,"c"] [4,"d"] [10,"x"] [11,null];Missing meta/2
;-;meta/list77;;Missing meta/list77
snapshot=76;data/c;meta/2;[1,"a"] [2,null] [3,"c"] [4,"d"] [10,"x"] [11,null];
range=n:1:2;-;data/b;[1,"a"] [2,null];
take=4;data/c;data/b;[1,"a"] [2,null] [3,"c"] [4,"d"];
take=0;meta/list77;meta/1;;"#;

/// Whether these are the bytes of rows, each with a line feed; and how many those are.
pub(crate) fn are_rows(rt: &(impl Abort + AllocGlobal), written: &[u8], rows: &str) -> (bool, u64) {
    let mut wanted = String::new(rt.alloc());
    let mut count = 0u64;
    for row in rows.split(' ') {
        if row != "" {
            wanted.push_str(row).expect(rt, "room");
            wanted.push_str("\n").expect(rt, "room");
            count = count.saturating_add(1);
        }
    }
    (wanted.as_str().as_bytes() == written, count)
}

/// The part of a line of a table at a place, from 0.
pub(crate) fn part<'t>(rt: &impl Abort, line: &'t str, place: usize) -> &'t str {
    for (at, part) in line.split(';').enumerate() {
        if at == place {
            return part;
        }
    }
    panic!(rt; "a part is missing: {line}")
}

/// Whether the data file was asked for.
fn is_asked(rt: &(impl Abort + AllocGlobal), store: &MemStore, name: &str) -> bool {
    store.asked_of(&path(rt, name)) > 0
}

#[test]
fn chosen_rows_are_written(rt: HostRuntime) {
    for line in CHOSEN.lines() {
        let mut store = store(&rt, "-", "-");
        let mut sink = MemSink::new(rt.alloc(), Vec::new(rt.alloc()));
        let words = part(&rt, line, 0);
        let shown = answer(&rt, &mut store, words, &mut sink).expect(&rt, "an answer");
        let (same, count) = are_rows(&rt, sink.written(), part(&rt, line, 1));
        assert!(rt; same, "{line}");
        assert!(rt; shown == count, "{line}");
        let asked = part(&rt, line, 2);
        assert!(rt;
            is_asked(&rt, &store, "data/a") == asked.contains('a'),
            "{line}"
        );
        assert!(rt;
            is_asked(&rt, &store, "data/b") == asked.contains('b'),
            "{line}"
        );
        assert!(rt;
            is_asked(&rt, &store, "data/c") == asked.contains('c'),
            "{line}"
        );
    }
}

#[test]
fn queries_are_refused_before_a_file_is_opened(rt: HostRuntime) {
    for line in REFUSED.lines() {
        let mut store = store(&rt, "-", "-");
        let mut sink = MemSink::new(rt.alloc(), Vec::new(rt.alloc()));
        let words = part(&rt, line, 0);
        let fault = answer(&rt, &mut store, words, &mut sink)
            .err()
            .expect(&rt, "a refusal");
        assert!(rt;
            refusal(&rt, &fault).as_str() == part(&rt, line, 1),
            "{line}"
        );
        assert!(rt; sink.written().is_empty(), "{line}");
        assert!(rt; store.calls() == 0, "{line}");
    }
}

#[test]
fn rows_before_a_changed_file_are_written(rt: HostRuntime) {
    for line in CHANGED.lines() {
        let mut store = store(&rt, part(&rt, line, 1), part(&rt, line, 2));
        let mut sink = MemSink::new(rt.alloc(), Vec::new(rt.alloc()));
        let found = answer(&rt, &mut store, part(&rt, line, 0), &mut sink);
        let (same, _) = are_rows(&rt, sink.written(), part(&rt, line, 3));
        assert!(rt; same, "{line}");
        let wanted = part(&rt, line, 4);
        match found {
            Ok(_) => assert!(rt; wanted == "", "{line}"),
            Err(fault) => {
                let told = refusal(&rt, &fault);
                assert!(rt; told.as_str() == wanted, "{line}: {told}");
            }
        }
    }
}
