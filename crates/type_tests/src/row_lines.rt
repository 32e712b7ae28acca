//! Row lines as tables: schema words, a line, and the row printed again or the refusal. Expected texts were made by
//! Python's `json`, `uuid` and `bytes.fromhex`, numbers taken as they are written.
use crate::helpers::{answer, line_of_one, schema, shown};
use icb_types::{Datum, kind_of_word, read_datum, read_row};
use std::process::Abort;
use std::rt::HostRuntime;

/// Lines of two columns: worked rows, blanks, and what is no array of two values.
const WORKED: [(&str, &str, &str); 19] = [
    ("n:long!,s:string", r#"[5,"b"]"#, r#"[5,"b"]"#),
    ("n:long!,s:string", "[3,null]", "[3,null]"),
    ("n:long!,s:string", r#"[1.0,"a"]"#, "BadValue 0"),
    ("n:long!,s:string", "[1]", "RowLength 1"),
    ("n:long!,s:string", "{}", "NotArray"),
    ("n:long!,s:string", r#"[1,"a",null]"#, "RowLength 3"),
    ("n:long!,s:string", r#"[null,"a"]"#, "BadValue 0"),
    ("n:long!,s:string", "[1,2]", "BadValue 1"),
    ("n:long!,s:string", r#"[[1],"a"]"#, "BadValue 0"),
    ("n:long!,s:string", "", "NotJson"),
    ("n:long!,s:string", r#"[1,"a"] [2,"b"]"#, "NotJson"),
    ("n:long!,s:string", " [ 1 ,\t\"a\" ]\r\n", r#"[1,"a"]"#),
    ("n:long!,s:string", "[]", "RowLength 0"),
    ("n:long!,s:string", r#"[1,"a""#, "NotJson"),
    ("n:long!,s:string", r#"[1,"a",]"#, "NotJson"),
    ("n:long!,s:string", r#""x""#, "NotArray"),
    ("n:long!,s:string", "[1.5,2]", "BadValue 0"),
    ("n:long!,s:string", "[1,1e400]", "NotJson"),
    ("n:long!,s:string", r#"[true,"a"]"#, "BadValue 0"),
];

/// Numbers of each kind, with the least and the greatest.
const NUMBERS: [(&str, &str, &str); 32] = [
    ("n:long", "[9223372036854775807]", "[9223372036854775807]"),
    ("n:long", "[-9223372036854775808]", "[-9223372036854775808]"),
    ("n:long", "[9223372036854775808]", "BadValue 0"),
    ("n:long", "[-9223372036854775809]", "BadValue 0"),
    ("n:long", "[18446744073709551615]", "BadValue 0"),
    ("n:long", "[18446744073709551616]", "BadValue 0"),
    ("n:long", "[-0]", "BadValue 0"),
    ("n:long", "[0]", "[0]"),
    ("n:long", "[1e3]", "BadValue 0"),
    ("n:long", "[1E0]", "BadValue 0"),
    ("n:long", "[01]", "NotJson"),
    ("n:long", r#"["1"]"#, "BadValue 0"),
    ("n:long", "[+1]", "NotJson"),
    ("i:int", "[2147483647]", "[2147483647]"),
    ("i:int", "[-2147483648]", "[-2147483648]"),
    ("i:int", "[2147483648]", "BadValue 0"),
    ("i:int", "[-2147483649]", "BadValue 0"),
    ("i:int", "[-1]", "[-1]"),
    ("d:date", "[19000]", "[19000]"),
    ("d:date", "[2147483648]", "BadValue 0"),
    ("d:date", "[4294967296]", "BadValue 0"),
    ("d:date", "[-2147483648]", "[-2147483648]"),
    ("d:date", r#"["2022-01-08"]"#, "BadValue 0"),
    ("t:time", "[0]", "[0]"),
    ("t:time", "[86399999999]", "[86399999999]"),
    ("t:time", "[86400000000]", "BadValue 0"),
    ("t:time", "[-1]", "BadValue 0"),
    ("t:time", "[-0]", "BadValue 0"),
    (
        "t:timestamp",
        "[-9223372036854775808]",
        "[-9223372036854775808]",
    ),
    ("t:timestamp", "[86400000000]", "[86400000000]"),
    ("t:timestamptz", "[1646092800000000]", "[1646092800000000]"),
    ("t:timestamptz", "[0.5]", "BadValue 0"),
];

/// Truth values and texts with escapes.
const TEXTS: [(&str, &str, &str); 15] = [
    ("b:boolean", "[true]", "[true]"),
    ("b:boolean", "[false]", "[false]"),
    ("b:boolean", "[null]", "[null]"),
    ("b:boolean!", "[null]", "BadValue 0"),
    ("b:boolean", "[0]", "BadValue 0"),
    ("b:boolean", r#"["true"]"#, "BadValue 0"),
    (
        "s:string",
        r#"["\u0041\u00e9\ud83d\ude00\"\\\/\b\f\n\r\t\u0001\u007f"]"#,
        "[\"Aé😀\\\"\\\\/\\b\\f\\n\\r\\t\\u0001\x7f\"]",
    ),
    ("s:string", r#"["é"]"#, r#"["é"]"#),
    ("s:string", r#"[""]"#, r#"[""]"#),
    ("s:string", r#"["\ud800"]"#, "NotJson"),
    ("s:string", "[\"a\x01\"]", "NotJson"),
    ("s:string", "[1]", "BadValue 0"),
    ("s:string!", "[null]", "BadValue 0"),
    ("s:string", r#"[{"a":1}]"#, "BadValue 0"),
    ("s:string", r#"["\x"]"#, "NotJson"),
];

/// Identifiers in their four forms, and bytes in hexadecimal.
const BYTES: [(&str, &str, &str); 22] = [
    (
        "u:uuid",
        r#"["f79c3e09-677c-4bbd-a479-3f349cb785e7"]"#,
        r#"["f79c3e09-677c-4bbd-a479-3f349cb785e7"]"#,
    ),
    (
        "u:uuid",
        r#"["F79C3E09677C4BBDA4793F349CB785E7"]"#,
        r#"["f79c3e09-677c-4bbd-a479-3f349cb785e7"]"#,
    ),
    (
        "u:uuid",
        r#"["{f79c3e09-677c-4bbd-a479-3f349cb785e7}"]"#,
        r#"["f79c3e09-677c-4bbd-a479-3f349cb785e7"]"#,
    ),
    (
        "u:uuid",
        r#"["URN:uuid:F79C3E09-677c-4bbd-a479-3f349cb785e7"]"#,
        r#"["f79c3e09-677c-4bbd-a479-3f349cb785e7"]"#,
    ),
    (
        "u:uuid",
        r#"["00000000-0000-0000-0000-000000000000"]"#,
        r#"["00000000-0000-0000-0000-000000000000"]"#,
    ),
    (
        "u:uuid",
        r#"["ffffffff-ffff-ffff-ffff-ffffffffffff"]"#,
        r#"["ffffffff-ffff-ffff-ffff-ffffffffffff"]"#,
    ),
    (
        "u:uuid",
        r#"["f79c3e09-677c-4bbd-a4793f349cb785e7"]"#,
        "BadValue 0",
    ),
    (
        "u:uuid",
        r#"["{f79c3e09677c4bbda4793f349cb785e7}"]"#,
        "BadValue 0",
    ),
    (
        "u:uuid",
        r#"["f79c3e09-677c-4bbd-a479-3f349cb785eg"]"#,
        "BadValue 0",
    ),
    ("u:uuid", r#"[""]"#, "BadValue 0"),
    ("u:uuid", "[0]", "BadValue 0"),
    ("f:fixed[3]", r#"["00fF7a"]"#, r#"["00ff7a"]"#),
    ("f:fixed[3]", r#"["00ff"]"#, "BadValue 0"),
    ("f:fixed[3]", r#"["00ff7a00"]"#, "BadValue 0"),
    ("f:fixed[3]", r#"["00ff7"]"#, "BadValue 0"),
    ("f:fixed[3]", r#"["00ff7g"]"#, "BadValue 0"),
    ("f:fixed[3]", "[[0,255,122]]", "BadValue 0"),
    ("b:binary", r#"[""]"#, r#"[""]"#),
    ("b:binary", r#"["DEADbeef"]"#, r#"["deadbeef"]"#),
    ("b:binary", r#"["0"]"#, "BadValue 0"),
    ("b:binary", r#"["0x00"]"#, "BadValue 0"),
    ("b:binary!", r#"["ff"]"#, r#"["ff"]"#),
];

/// The first value that is refused.
const FIRST_BAD: [(&str, &str, &str); 4] = [
    ("a:int,b:int,c:int", r#"[1,2.5,"x"]"#, "BadValue 1"),
    ("a:int,b:int,c:int", "[1,2,3.5]", "BadValue 2"),
    ("a:int,b:int!,c:int", r#"[null,null,"x"]"#, "BadValue 1"),
    ("a:int,b:int,c:int", "[null,-2,null]", "[null,-2,null]"),
];

/// Texts of one value: the kind's word, the text, and the line of the datum, or none.
const ONE_VALUE: [(&[u8], &[u8], &str); 14] = [
    (b"long", b"5", "[5]"),
    (b"long", b" 5\n", "[5]"),
    (b"long", b"null", ""),
    (b"long", b"-0", ""),
    (b"long", b"5.0", ""),
    (b"long", b"[5]", ""),
    (b"long", b"5 6", ""),
    (b"long", b"", ""),
    (b"time", b"86399999999", "[86399999999]"),
    (b"time", b"86400000000", ""),
    (b"string", b"\"b\"", "[\"b\"]"),
    (b"string", b"b", ""),
    (b"string", b"\"\xff\"", ""),
    (b"fixed[2]", b"\"00\"", ""),
];

/// Lines that are no text in UTF-8, or end too early in one.
const NO_TEXT: [&[u8]; 4] = [
    b"[\"\xff\"]",
    b"[\"\xc3\"]",
    b"\xef\xbb\xbf[1]",
    b"[\"\xed\xa0\x80\"]",
];

fn check(rt: &(impl Abort + AllocGlobal), cases: &[(&str, &str, &str)]) {
    for (words, line, expected) in cases {
        let found = answer(rt, words, line.as_bytes());
        assert!(rt; found.as_str() == *expected, "{line}");
    }
}

#[test]
fn reads_and_prints_worked_lines(rt: HostRuntime) {
    check(&rt, &WORKED);
    check(&rt, &FIRST_BAD);
}

#[test]
fn reads_and_prints_numbers(rt: HostRuntime) {
    check(&rt, &NUMBERS);
}

#[test]
fn reads_and_prints_texts(rt: HostRuntime) {
    check(&rt, &TEXTS);
}

#[test]
fn reads_and_prints_identifiers_and_bytes(rt: HostRuntime) {
    check(&rt, &BYTES);
}

#[test]
fn refuses_what_is_no_text(rt: HostRuntime) {
    for line in &NO_TEXT {
        let found = answer(&rt, "s:string", line);
        assert!(rt; found.as_str() == "NotJson");
    }
}

#[test]
fn reads_one_value(rt: HostRuntime) {
    for (word, value, expected) in &ONE_VALUE {
        let kind = kind_of_word(word).expect(&rt, "a kind");
        match read_datum(rt.alloc(), kind, value).expect(&rt, "room") {
            Some(datum) => {
                let line = line_of_one(&rt, &datum.borrowed());
                assert!(rt; shown(&rt, &line).as_str() == *expected, "{value:?}");
            }
            None => assert!(rt; expected.is_empty(), "{value:?}"),
        }
    }
}

/// The data themselves, beside the lines that show them.
#[test]
fn reads_the_data_of_a_line(rt: HostRuntime) {
    let words = "i:int,d:date,t:time,u:uuid,f:fixed[2],b:boolean,s:string";
    let line =
        br#"[-7,19000,86399999999,"{0000000a-0000-0000-0000-00000000000b}","fF00",true,"\u00e9"]"#;
    let row = read_row(rt.alloc(), &schema(&rt, words), line).expect(&rt, "a row");
    let [
        Datum::Int(-7),
        Datum::Date(19000),
        Datum::Time(86_399_999_999),
        Datum::Uuid(id),
        Datum::Fixed(bytes),
        Datum::Boolean(true),
        Datum::Text(text),
    ] = row.as_slice()
    else {
        assert!(rt; false, "other data");
        return;
    };
    assert!(rt; *id == (10 << 96) + 11);
    assert!(rt; bytes.as_slice() == b"\xff\x00".as_slice());
    assert!(rt; text.as_str() == "é");
}
