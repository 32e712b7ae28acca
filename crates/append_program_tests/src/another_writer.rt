//! Appends to a table of another writer, and tables to which nothing is appended.

use crate::outside::{Seen, check_row, check_rows, path};
use crate::table::{META, OBJECTS, RING};
use icb_base::Bytes;
use std::process::Abort;

/// Two rows are added to the nine of the current snapshot, as the snapshot 6, since 5 is taken; the table's own block
/// length isn't told, nor are its other properties. Then no rows, and rows under another master.
const APPENDS: &str = r#"append t --keys k;[30,"h"]|[31,null]|;0;snapshot 6 version 2|;;13
scan t --keys k;;0;[1,"a"]|[2,null]|[3,"c"]|[4,"d"]|[10,"x"]|[11,null]|[3,"e"]|[20,"f"]|[21,"g"]|[30,"h"]|[31,null]|;;13
scan t --keys k --columns s --range n --low 21;;0;["g"]|["h"]|[null]|;;13
scan t --keys k --snapshot 77 --skip 7;;0;[20,"f"]|[21,"g"]|;;13
append t --keys k;;0;snapshot 7 version 3|;;15
append t --keys k;[1];4;;BadInput 1|;15
append t --keys k;[32,"i"]|;0;snapshot 8 version 4|;;19
scan t --keys k --skip 9;;0;[30,"h"]|[31,null]|[32,"i"]|;;19
snapshots t;;0;5 - 3 3 "append" -|77 - 4 3 "append" -|80 - 2 3 "append" -|6 77 5 7 "append" 2|7 6 6 7 "append" 0|8 7 7 7 "append" 1|;;19
keys t;;0;"k" - kek|"meta/list5" "k" list|"meta/list77" "k" list|"meta/list80" "k" list|"key-1" "k" list|"key-2" "k" list|"key-3" "k" list|;;19"#;

/// What is written in the metadata in the place of what, and how an append ends then; a line of the input that is no row
/// comes before a form of the table.
const REFUSED: [(&str, &str, &str); 9] = [
    (
        r#""encryption.key-id":"m""#,
        r#""other":"m""#,
        "append t --keys k;[1,null]|;22;;Cannot NotEncrypted|;9",
    ),
    (
        r#""partition-specs":[{"spec-id":0,"fields":[]}]"#,
        r#""partition-specs":[{"spec-id":0,"fields":[{"name":"p","transform":"identity","source-id":1,"field-id":1000}]}]"#,
        "append t --keys k;[1,null]|;22;;Cannot Partitioned|;9",
    ),
    (
        r#""sort-orders":[{"order-id":0,"fields":[]}]"#,
        r#""sort-orders":[{"order-id":0,"fields":[{"transform":"identity","source-id":1,"direction":"asc","null-order":"nulls-first"}]}]"#,
        "append t --keys k;[1,null]|;22;;Cannot Sorted|;9",
    ),
    (
        r#""name":"s""#,
        r#""name":"s t""#,
        "append t --keys k;[1,null]|;22;;Cannot ColumnName|;9",
    ),
    (
        r#""name":"s""#,
        r#""name":"s t""#,
        "append t --keys k;[1,null]|[2]|;4;;BadInput 2|;9",
    ),
    (
        r#""current-snapshot-id":77"#,
        r#""current-snapshot-id":80"#,
        "append t --keys k;[1,null]|;22;;Cannot NoRowIds|;11",
    ),
    (
        r#""format-version":3"#,
        r#""format-version":2"#,
        r#"append t --keys k;[1,null]|;7;;BadMeta "format-version"|;9"#,
    ),
    (
        r#""encryption.key-id":"m""#,
        r#""encryption.key-id":"m3""#,
        r#"append t --keys k;[1,null]|;8;;NoKey "m3"|;9"#,
    ),
    (
        r#""last-sequence-number":4"#,
        r#""last-sequence-number":4611686018427387904"#,
        "append t --keys k;[1,null]|;21;;Limit Sequence 4611686018427387904|;9",
    ),
];

/// The bytes of a text.
fn bytes(rt: &(impl Abort + AllocGlobal), text: &str) -> Bytes {
    Bytes::from_slice(rt.alloc(), text.as_bytes()).expect(rt, "room")
}

/// The table's objects, with this metadata as version 1.
fn table(rt: &(impl Abort + AllocGlobal), meta: &str) -> Seen {
    let mut seen = Seen::empty(rt);
    for line in OBJECTS.lines() {
        let (name, digits) = line.split_once(' ').expect(rt, "a path and digits");
        let object = hex::decode(rt.alloc(), digits).expect(rt, "hexadecimal digits");
        let put = seen.table.set(path(rt, name), Bytes::from_vec(object));
        put.expect(rt, "room");
    }
    let put = seen
        .table
        .set(path(rt, "metadata/v1.metadata.json"), bytes(rt, meta));
    put.expect(rt, "room");
    seen
}

#[test]
fn rows_of_both_writers(rt: HostRuntime) {
    check_rows(&rt, &mut table(&rt, META), RING, APPENDS);
}

/// Appends to the table with another text in its metadata.
fn check_refused(rt: &(impl Abort + AllocGlobal), from: &str, to: &str, row: &str) {
    let meta = META.replace(rt.alloc(), from, to).expect(rt, "room");
    check_rows(rt, &mut table(rt, meta.as_str()), RING, row);
}

#[test]
fn nothing_is_appended(rt: HostRuntime) {
    for (from, to, row) in REFUSED.iter() {
        check_refused(&rt, from, to, row);
    }
}

/// The list of the current snapshot is gone, or another one stands in its place.
fn check_list(rt: &(impl Abort + AllocGlobal), other: Option<&str>, row: &str) {
    let mut seen = table(rt, META);
    seen.table.clear(&path(rt, "meta/list77"));
    if let Some(name) = other {
        let object = seen.table.get(&path(rt, name)).expect(rt, "a list");
        let object = Bytes::from_slice(rt.alloc(), object).expect(rt, "room");
        let put = seen.table.set(path(rt, "meta/list77"), object);
        put.expect(rt, "room");
    }
    seen.next(rt, RING, "[1,null]|");
    check_row(rt, &mut seen, row);
}

/// The list is read behind the puts of a data file and a manifest.
#[test]
fn a_list_that_is_not_read(rt: HostRuntime) {
    check_list(
        &rt,
        None,
        r#"append t --keys k;;12;;Missing "meta/list77"|;10"#,
    );
    check_list(
        &rt,
        Some("meta/1"),
        r#"append t --keys k;;15;;Block "meta/list77" 0|;11"#,
    );
}
