//! Single values as tables: a kind, bytes, and the datum in a row line. Expected values were made by Python's
//! `struct` and `uuid` (Apache Iceberg Table Spec, "Appendix D: Single-value serialization").
use crate::helpers::{line_of_one, shown, text};
use icb_types::{from_single, kind_of_word, to_single};
use std::rt::HostRuntime;

/// A kind, the bytes of a single value, and its datum.
const VALUES: [(&[u8], &[u8], &str); 22] = [
    (b"boolean", b"\x00", "false"),
    (b"boolean", b"\x01", "true"),
    (b"boolean", b"\x02", "true"),
    (b"boolean", b"\xff", "true"),
    (b"int", b"\xff\xff\xff\xff", "-1"),
    (b"int", b"\xff\xff\xff\x7f", "2147483647"),
    (b"int", b"\x00\x00\x00\x80", "-2147483648"),
    (b"long", b"\x01\x00\x00\x00\x00\x00\x00\x00", "1"),
    (
        b"long",
        b"\x00\x00\x00\x00\x00\x00\x00\x80",
        "-9223372036854775808",
    ),
    (
        b"long",
        b"\xff\xff\xff\xff\xff\xff\xff\x7f",
        "9223372036854775807",
    ),
    (b"date", b"\x38\x4a\x00\x00", "19000"),
    (b"time", b"\xff\x5f\xd7\x1d\x14\x00\x00\x00", "86399999999"),
    (b"time", b"\x00\x60\xd7\x1d\x14\x00\x00\x00", "86400000000"),
    (b"time", b"\xff\xff\xff\xff\xff\xff\xff\xff", "-1"),
    (
        b"timestamp",
        b"\x00\x80\x9c\xd8\x1c\xd9\x05\x00",
        "1646092800000000",
    ),
    (b"timestamptz", b"\xff\xff\xff\xff\xff\xff\xff\xff", "-1"),
    (b"string", b"\xc3\xa9", r#""é""#),
    (b"string", b"", r#""""#),
    (
        b"uuid",
        b"\xf7\x9c\x3e\x09\x67\x7c\x4b\xbd\xa4\x79\x3f\x34\x9c\xb7\x85\xe7",
        r#""f79c3e09-677c-4bbd-a479-3f349cb785e7""#,
    ),
    (b"fixed[3]", b"\x00\xff\x7a", r#""00ff7a""#),
    (b"binary", b"", r#""""#),
    (b"binary", b"\xde\xad", r#""dead""#),
];

/// A kind, and bytes that are no single value of it.
const NO_VALUES: [(&[u8], &[u8]); 13] = [
    (b"boolean", b""),
    (b"boolean", b"\x00\x00"),
    (b"int", b"\x01\x00\x00"),
    (b"int", b"\x01\x00\x00\x00\x00"),
    (b"long", b"\x01\x01\x01\x01\x01\x01\x01"),
    (b"long", b""),
    (b"date", b"\x00\x00\x00\x00\x00\x00\x00\x00"),
    (b"timestamptz", b"\x00\x00\x00\x00\x00\x00\x00\x00\x00"),
    (b"string", b"\xff"),
    (b"string", b"\xc3"),
    (
        b"uuid",
        b"\x00\x00\x00\x00\x00\x00\x00\x00\x00\x00\x00\x00\x00\x00\x00",
    ),
    (
        b"uuid",
        b"\x00\x00\x00\x00\x00\x00\x00\x00\x00\x00\x00\x00\x00\x00\x00\x00\x00",
    ),
    (b"fixed[3]", b"\x00\xff"),
];

#[test]
fn reads_single_values_and_writes_them(rt: HostRuntime) {
    for (word, bytes, expected) in &VALUES {
        let kind = kind_of_word(word).expect(&rt, "a kind");
        let read = from_single(&kind, bytes).expect(&rt, "a single value");
        let mut line = text(&rt, "[");
        line.push_str(expected).expect(&rt, "room");
        line.push_str("]").expect(&rt, "room");
        let printed = shown(&rt, &line_of_one(&rt, &read));
        assert!(rt; printed.as_str() == line.as_str());
        let datum = read.to_owned(rt.alloc()).expect(&rt, "room");
        let written = to_single(rt.alloc(), &datum).expect(&rt, "room");
        // each true is written as 01
        let same = written.as_slice() == *bytes;
        let is_true = *expected == "true" && written.as_slice() == b"\x01".as_slice();
        assert!(rt; same || is_true);
    }
}

#[test]
fn refuses_what_is_no_single_value(rt: HostRuntime) {
    for (word, bytes) in &NO_VALUES {
        let kind = kind_of_word(word).expect(&rt, "a kind");
        assert!(rt; from_single(&kind, bytes).is_none());
    }
}
