//! The counts and bounds of rows as tables. Expected values were made by a few lines of Python's `struct` and `uuid`
//! (Apache Iceberg Table Spec, "Appendix D: Single-value serialization").
use crate::helpers::{rows_of, schema, text};
use icb_rows::bounds_of;
use icb_schema::Octets;
use std::process::Abort;
use std::rt::HostRuntime;

/// Schema words, row lines, and the values, nulls, lower and upper bounds by the columns' ids.
const CASES: [(&str, &str, &str); 11] = [
    (
        "n:long!,s:string",
        "[5,\"b\"]\n[3,null]",
        " 1=2 2=2; 1=0 2=1; 1=0300000000000000 2=62; 1=0500000000000000 2=62",
    ),
    ("n:long!,s:string", "", " 1=0 2=0; 1=0 2=0;;"),
    (
        "s:string,n:int",
        "[null,-1]\n[null,5]\n[null,-2147483648]",
        " 1=3 2=3; 1=3 2=0; 2=00000080; 2=05000000",
    ),
    (
        "b:boolean,d:date",
        "[true,-1]\n[false,null]\n[null,0]",
        " 1=3 2=3; 1=1 2=1; 1=00 2=ffffffff; 1=01 2=00000000",
    ),
    (
        "b:boolean,d:date",
        "[true,19000]\n[true,18999]",
        " 1=2 2=2; 1=0 2=0; 1=01 2=374a0000; 1=01 2=384a0000",
    ),
    (
        "t:time,a:timestamp,z:timestamptz",
        "[86399999999,-1,9223372036854775807]\n[0,1,-9223372036854775808]",
        " 1=2 2=2 3=2; 1=0 2=0 3=0; 1=0000000000000000 2=ffffffffffffffff 3=0000000000000080; 1=ff5fd71d14000000 2=0100000000000000 3=ffffffffffffff7f",
    ),
    (
        "u:uuid",
        "[\"f79c3e09-677c-4bbd-a479-3f349cb785e7\"]\n[\"00000000-0000-0000-8000-000000000000\"]\n[\"7fffffff-ffff-ffff-ffff-ffffffffffff\"]",
        " 1=3; 1=0; 1=00000000000000008000000000000000; 1=f79c3e09677c4bbda4793f349cb785e7",
    ),
    (
        "f:fixed[2],x:binary",
        "[\"ff00\",\"7f\"]\n[\"00ff\",\"7f00\"]\n[\"7fff\",\"\"]",
        " 1=3 2=3; 1=0 2=0; 1=00ff 2=; 1=ff00 2=7f00",
    ),
    (
        "s:string",
        "[\"z\"]\n[\"Z\"]\n[\"é\"]\n[\"za\"]",
        " 1=4; 1=0; 1=5a; 1=c3a9",
    ),
    ("s:string", "[\"\"]", " 1=1; 1=0; 1=; 1="),
    (
        "s:string,n:long",
        "[\"a\",1]\n[\"a\",1]\n[\"a\",null]\n[null,null]",
        " 1=4 2=4; 1=1 2=2; 1=61 2=0100000000000000; 1=61 2=0100000000000000",
    ),
];

/// Counts by ids, as a text.
fn counts(rt: &(impl Abort + AllocGlobal), list: &[(i32, i64)]) -> String {
    let mut all = text(rt, "");
    for (id, count) in list {
        let entry = format!(in rt.alloc(); " {id}={count}").expect(rt, "room");
        all.push_str(entry.as_str()).expect(rt, "room");
    }
    all
}

/// Bounds by ids in hexadecimal, as a text.
fn bounds(rt: &(impl Abort + AllocGlobal), list: &[(i32, Octets)]) -> String {
    let mut all = text(rt, "");
    for (id, bytes) in list {
        let digits = hex::encode(rt.alloc(), bytes.as_slice()).expect(rt, "room");
        let entry = format!(in rt.alloc(); " {id}={digits}").expect(rt, "room");
        all.push_str(entry.as_str()).expect(rt, "room");
    }
    all
}

/// The counts and bounds of row lines under schema words.
fn shown(rt: &(impl Abort + AllocGlobal), words: &str, lines: &str) -> String {
    let columns = schema(rt, words);
    let rows = rows_of(rt, &columns, lines);
    let found = bounds_of(rt.alloc(), &columns, &rows).expect(rt, "room");
    let values = counts(rt, found.values.as_slice());
    let nulls = counts(rt, found.nulls.as_slice());
    let lower = bounds(rt, found.lower.as_slice());
    let upper = bounds(rt, found.upper.as_slice());
    format!(in rt.alloc(); "{values};{nulls};{lower};{upper}").expect(rt, "room")
}

#[test]
fn counts_and_bounds_of_rows(rt: HostRuntime) {
    for (words, lines, expected) in &CASES {
        let found = shown(&rt, words, lines);
        assert!(rt; found.as_str() == *expected, "{lines}");
    }
}

/// A datum of 257 bytes takes both bounds of its column, and one of 256 doesn't.
#[test]
fn long_data_have_no_bounds(rt: HostRuntime) {
    let long = text_of(&rt, 257);
    let short = text_of(&rt, 256);
    let lines = format!(in rt.alloc(); "[\"a\",\"{short}\"]\n[\"{long}\",\"b\"]").expect(
        &rt, "room",
    );
    let found = shown(&rt, "s:string,t:string", lines.as_str());
    let digits = hex::encode(rt.alloc(), short.as_bytes()).expect(&rt, "room");
    let expected = format!(in rt.alloc(); " 1=2 2=2; 1=0 2=0; 2={digits}; 2=62").expect(
        &rt, "room",
    );
    assert!(rt; found.as_str() == expected.as_str());
}

/// A text of so many letters.
fn text_of(rt: &(impl Abort + AllocGlobal), length: usize) -> String {
    let mut letters = text(rt, "");
    for _ in 0..length {
        letters.push_str("a").expect(rt, "room");
    }
    letters
}
