//! Ranges as tables: words and ends, the data that they hold, and the bounds of files that may hold one. Expected
//! answers follow by hand from the order of data.
use crate::helpers::schema;
use icb_rows::{Range, RangeFault};
use icb_schema::{NoMemory, Text};
use icb_types::{Datum, DatumRef};
use std::process::Abort;
use std::rt::HostRuntime;

/// The columns of all tables.
const WORDS: &str = "n:long!,s:string,b:boolean,u:uuid,f:fixed[2],x:binary,t:time,d:date";

/// A column, its ends, and the refusal; `ok` where there is none. An empty text is no end.
const REFUSALS: [(&str, &str, &str, &str); 19] = [
    ("n", "5", "9", "ok"),
    ("n", "", "", "ok"),
    ("m", "5", "9", "NoColumn m"),
    ("m", "x", "", "NoColumn m"),
    ("n", "5", "null", "BadRange n"),
    ("n", "null", "", "BadRange n"),
    ("n", "5.0", "", "BadRange n"),
    ("n", "", "-0", "BadRange n"),
    ("n", "9223372036854775808", "", "BadRange n"),
    ("n", "1,2", "", "BadRange n"),
    ("n", "[1]", "", "BadRange n"),
    ("n", " 1 ", "", "ok"),
    ("s", "b", "", "BadRange s"),
    ("s", r#""b""#, r#""""#, "ok"),
    ("b", "1", "", "BadRange b"),
    ("f", r#""00""#, "", "BadRange f"),
    ("f", r#""00FF""#, "", "ok"),
    ("t", "", "86400000000", "BadRange t"),
    ("d", "4294967296", "", "BadRange d"),
];

/// The range of a column of the words; an empty text is no end.
fn range(
    rt: &(impl Abort + AllocGlobal),
    column: &str,
    low: &str,
    high: &str,
) -> Result<Range, RangeFault> {
    let columns = schema(rt, WORDS);
    let name = own(rt, column);
    let low_text = own(rt, low);
    let high_text = own(rt, high);
    let low_end = if low.is_empty() {
        None
    } else {
        Some(&low_text)
    };
    let high_end = if high.is_empty() {
        None
    } else {
        Some(&high_text)
    };
    Range::new(rt.alloc(), &columns, &name, low_end, high_end)
}

/// A text of its own.
fn own(rt: &(impl Abort + AllocGlobal), text: &str) -> Text {
    let copy: Result<Text, NoMemory> = Text::from_str(rt.alloc(), text);
    copy.expect(rt, "room")
}

#[test]
fn reads_ranges(rt: HostRuntime) {
    for (column, low, high, expected) in &REFUSALS {
        let found = match range(&rt, column, low, high) {
            Ok(_range) => own(&rt, "ok"),
            Err(fault) => refusal(&rt, &fault),
        };
        assert!(rt; found.as_str() == *expected, "{column} {low} {high}");
    }
}

/// A refusal as a text.
fn refusal(rt: &(impl Abort + AllocGlobal), fault: &RangeFault) -> Text {
    match fault {
        RangeFault::NoColumn { name } => shown(rt, "NoColumn", name),
        RangeFault::BadRange { name } => shown(rt, "BadRange", name),
        RangeFault::NoMemory => own(rt, "NoMemory"),
    }
}

/// A refusal and its name.
fn shown(rt: &(impl Abort + AllocGlobal), word: &str, name: &Text) -> Text {
    let name = name.as_str();
    Text::from_string(format!(in rt.alloc(); "{word} {name}").expect(rt, "room"))
}

/// Longs from 5 to 9, and whether the range holds them.
const LONGS: [(i64, bool); 7] = [
    (4, false),
    (5, true),
    (7, true),
    (9, true),
    (10, false),
    (i64::MIN, false),
    (i64::MAX, false),
];

#[test]
fn holds_numbers(rt: HostRuntime) {
    let both = range(&rt, "n", "5", "9").expect(&rt, "a range");
    for (number, expected) in &LONGS {
        assert!(rt;
            both.holds(&DatumRef::Long(*number)) == *expected,
            "{number}"
        );
    }
    assert!(rt; !both.holds(&DatumRef::Null));
    let low = range(&rt, "n", "-5", "").expect(&rt, "a range");
    assert!(rt; low.holds(&DatumRef::Long(i64::MAX)));
    assert!(rt; low.holds(&DatumRef::Long(-5)));
    assert!(rt; !low.holds(&DatumRef::Long(-6)));
    let all = range(&rt, "n", "", "").expect(&rt, "a range");
    assert!(rt; all.holds(&DatumRef::Long(i64::MIN)));
    assert!(rt; !all.holds(&DatumRef::Null));
}

#[test]
fn holds_other_data(rt: HostRuntime) {
    let texts = range(&rt, "s", r#""b""#, r#""d""#).expect(&rt, "a range");
    assert!(rt; texts.holds(&DatumRef::Text("b")));
    assert!(rt; texts.holds(&DatumRef::Text("czzz")));
    assert!(rt; texts.holds(&DatumRef::Text("d")));
    assert!(rt; !texts.holds(&DatumRef::Text("da")));
    assert!(rt; !texts.holds(&DatumRef::Text("")));
    assert!(rt; !texts.holds(&DatumRef::Text("é")));
    let truths = range(&rt, "b", "true", "").expect(&rt, "a range");
    assert!(rt; truths.holds(&DatumRef::Boolean(true)));
    assert!(rt; !truths.holds(&DatumRef::Boolean(false)));
    let bytes = range(&rt, "x", "", r#""7fff""#).expect(&rt, "a range");
    assert!(rt; bytes.holds(&DatumRef::Binary(b"")));
    assert!(rt; bytes.holds(&DatumRef::Binary(b"\x7f")));
    assert!(rt; !bytes.holds(&DatumRef::Binary(b"\x80")));
    assert!(rt; !bytes.holds(&DatumRef::Binary(b"\x7f\xff\x00")));
    let ids = range(&rt, "u", "", r#""80000000000000000000000000000000""#).expect(&rt, "a range");
    assert!(rt; ids.holds(&DatumRef::Uuid(1 << 127)));
    assert!(rt; !ids.holds(&DatumRef::Uuid((1 << 127) + 1)));
    let days = range(&rt, "d", "-1", "0").expect(&rt, "a range");
    assert!(rt; days.holds(&Datum::Date(-1).borrowed()));
    assert!(rt; !days.holds(&Datum::Date(1).borrowed()));
}

/// A column, its ends, a lower and an upper bound, and whether a file with them may hold a datum of the range.
const BOUNDS: [(&str, &str, &str, Option<&[u8]>, Option<&[u8]>, bool); 16] = [
    (
        "n",
        "5",
        "9",
        Some(b"\x03\0\0\0\0\0\0\0"),
        Some(b"\x05\0\0\0\0\0\0\0"),
        true,
    ),
    (
        "n",
        "6",
        "9",
        Some(b"\x03\0\0\0\0\0\0\0"),
        Some(b"\x05\0\0\0\0\0\0\0"),
        false,
    ),
    (
        "n",
        "1",
        "3",
        Some(b"\x03\0\0\0\0\0\0\0"),
        Some(b"\x05\0\0\0\0\0\0\0"),
        true,
    ),
    (
        "n",
        "1",
        "2",
        Some(b"\x03\0\0\0\0\0\0\0"),
        Some(b"\x05\0\0\0\0\0\0\0"),
        false,
    ),
    (
        "n",
        "1",
        "2",
        Some(b"\xff\xff\xff\xff\xff\xff\xff\xff"),
        None,
        true,
    ),
    ("n", "6", "9", None, None, true),
    ("n", "6", "9", Some(b""), Some(b"\x05\0\0\0"), true),
    ("n", "", "2", None, Some(b"\0\0\0\0\0\0\0\0"), true),
    ("n", "6", "", Some(b"\x07\0\0\0\0\0\0\0"), None, true),
    ("s", r#""b""#, r#""c""#, Some(b"ca"), Some(b"d"), false),
    ("s", r#""b""#, r#""c""#, Some(b"c"), Some(b"d"), true),
    ("s", r#""b""#, r#""c""#, Some(b"\xff"), Some(b"\xff"), true),
    ("b", "true", "", Some(b"\0"), Some(b"\0"), false),
    ("b", "", "false", Some(b"\x02"), Some(b"\x02"), false),
    (
        "f",
        r#""8000""#,
        "",
        Some(b"\0\0"),
        Some(b"\x7f\xff"),
        false,
    ),
    (
        "u",
        r#""00000000000000000000000000000002""#,
        "",
        Some(b"\0\0\0\0\0\0\0\0\0\0\0\0\0\0\0\0"),
        Some(b"\0\0\0\0\0\0\0\0\0\0\0\0\0\0\0\x01"),
        true,
    ),
];

#[test]
fn passes_over_files_by_their_bounds(rt: HostRuntime) {
    for (column, low, high, lower, upper, expected) in &BOUNDS {
        let asked = range(&rt, column, low, high).expect(&rt, "a range");
        assert!(rt;
            asked.may_hold(*lower, *upper) == *expected,
            "{column} {low} {high}"
        );
    }
}
