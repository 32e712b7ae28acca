//! The commands `snapshots` and `keys` over tables in memory.

use crate::outside::{Fails, NO_FAILS, Seen, check_row, check_rows, path};
use icb_base::{Bytes, Failed, MemStore, ObjPath, Put, Store};
use std::process::Abort;

/// What stands before and behind the members of a version that say its snapshots and keys.
const BEFORE: &str =
    r#"{"format-version":3,"table-uuid":"00010203-0405-4607-8809-0a0b0c0d0e0f","location":"file:///table","last-sequence-number":2,"last-updated-ms":0,"last-column-id":1,"schemas":[{"schema-id":0,"fields":[{"id":1,"name":"n","required":true,"type":"long"}]}],"current-schema-id":0,"partition-specs":[{"spec-id":0,"fields":[]}],"default-spec-id":0,"last-partition-id":999,"sort-orders":[{"order-id":0,"fields":[]}],"default-sort-order-id":0,"next-row-id":0"#;

/// The members of a new table.
const NEW: &str =
    r#","encryption-keys":[{"key-id":"key-1","encrypted-by-id":"m1","encrypted-key-metadata":""}]}"#;

/// Two snapshots, and keys: one of another master, one without a sealer, one of a list, one that is
/// sealed by itself.
const FULL: &str =
    r#","snapshots":[{"snapshot-id":1,"sequence-number":1,"timestamp-ms":7,"manifest-list":"a","summary":{"operation":"append"},"added-rows":3},{"snapshot-id":-2,"parent-snapshot-id":1,"sequence-number":2,"timestamp-ms":-8,"manifest-list":"b","summary":{"operation":"x\"é\n"}}],"encryption-keys":[{"key-id":"key-1","encrypted-by-id":"m1","encrypted-key-metadata":""},{"key-id":"a \\","encrypted-key-metadata":""},{"key-id":"key-2","encrypted-by-id":"key-1","encrypted-key-metadata":""},{"key-id":"s","encrypted-by-id":"s","encrypted-key-metadata":""}]}"#;

/// Metadata of another version of the format, up to its end.
const BAD: &str = r#"{"format-version":2"#;

/// What both commands print of the versions in a table.
const ROWS: &str = r#"new;snapshots;;
new;keys;"key-1" "m1" kek|;
full;snapshots;1 - 1 7 "append" 3|-2 1 2 -8 "x\"é\n" -|;
full;keys;"key-1" "m1" kek|"a \\" - kek|"key-2" "key-1" list|"s" "s" list|;
new full;snapshots;1 - 1 7 "append" 3|-2 1 2 -8 "x\"é\n" -|;
full new;snapshots;;
new - full;snapshots;;
;snapshots;;NoTable
;keys;;NoTable
- full;snapshots;;NoTable
bad;keys;;BadMeta "format-version"
none;snapshots;;BadMeta ""
full bad;snapshots;;BadMeta "format-version""#;

/// Words that have no place, and calls of the table that fail: of version 1, of version 2, of the size
/// and of the text of version 1.
const USAGE: &str = r#"snapshots;2;;Usage 1
keys;2;;Usage 1
snapshots t more;2;;Usage 2
keys t --keys ring;2;;Usage 2
snapshots t;6;;NoTable"#;

/// A table of versions by their words.
fn table(rt: &(impl Abort + AllocGlobal), versions: &str, fails: u64) -> MemStore {
    let plan = [(fails, false)].to_vec(rt.alloc()).expect(rt, "a plan");
    let mut table = MemStore::new(rt.alloc(), plan);
    for (at, word) in versions.split(' ').enumerate() {
        if word != "-" && !word.is_empty() {
            let name = format!(in rt.alloc(); "metadata/v{}.metadata.json", at + 1);
            let name = name.expect(rt, "a name");
            table
                .set(path(rt, name.as_str()), version(rt, word))
                .expect(rt, "an object");
        }
    }
    table
}

/// The text of a version.
fn version(rt: &(impl Abort + AllocGlobal), word: &str) -> Bytes {
    match word {
        "new" => joined(rt, BEFORE, NEW),
        "full" => joined(rt, BEFORE, FULL),
        "bad" => joined(rt, BAD, "}"),
        _ => joined(rt, "[", "]"),
    }
}

/// The bytes of two texts.
fn joined(rt: &(impl Abort + AllocGlobal), front: &str, back: &str) -> Bytes {
    let mut bytes = front.as_bytes().to_vec(rt.alloc()).expect(rt, "room");
    bytes.extend_from_slice(back.as_bytes()).expect(rt, "room");
    Bytes::from_vec(bytes)
}

#[test]
fn lines_of_a_table(rt: HostRuntime) {
    for row in ROWS.lines() {
        let mut fields = row.split(';');
        let versions = fields.next().expect(&rt, "versions");
        let command = fields.next().expect(&rt, "a command");
        let out = fields.next().expect(&rt, "the output");
        let line = fields.next().expect(&rt, "the line");
        let mut seen = Seen::new(&rt, NO_FAILS);
        seen.table = table(&rt, versions, NO_FAILS.table);
        let words = format!(in rt.alloc(); "{command} t").expect(&rt, "words");
        let number = seen.run(&rt, words.as_str());
        assert!(rt; (number == 0) == line.is_empty(), "{row}: {number}");
        let printed = out.replace(rt.alloc(), "|", "\n").expect(&rt, "lines");
        assert!(rt;
            seen.out.written() == printed.as_str().as_bytes(),
            "{row}: the output"
        );
        let told = seen.err.written().strip_suffix(b"\n".as_slice());
        assert!(rt; told.unwrap_or(&[]) == line.as_bytes(), "{row}: the line");
    }
}

#[test]
fn words_without_a_place(rt: HostRuntime) {
    check_rows(&rt, USAGE, || Seen::new(&rt, NO_FAILS));
}

#[test]
fn failing_calls(rt: HostRuntime) {
    for call in 0..4u64 {
        let mut seen = Seen::new(&rt, NO_FAILS);
        seen.table = table(&rt, "new", call);
        check_row(&rt, &mut seen, "keys t;30;;StoreFault");
    }
    let mut seen = Seen::new(&rt, Fails { out: 0, ..NO_FAILS });
    seen.table = table(&rt, "new", NO_FAILS.table);
    assert!(rt; seen.run(&rt, "keys t") == 32);
}

#[test]
fn metadata_past_its_limit(rt: HostRuntime) {
    let mut seen = Seen::new(&rt, NO_FAILS);
    let long = vec![in rt.alloc(); 32; 67108865].expect(&rt, "bytes");
    seen.table
        .set(
            path(&rt, "metadata/v1.metadata.json"),
            Bytes::from_vec(long),
        )
        .expect(&rt, "an object");
    check_row(&rt, &mut seen, "snapshots t;21;;Limit Metadata 67108864");
}
