//! The calls of a cursor one by one: parts are slices of the input, and a refused call stays.
use icb_avro::{AvroCause, AvroFault, Cursor, Value, encode};
use icb_schema::{Kind, Node, Octets};
use std::test::*;

/// The bytes end within the first item.
const END: AvroFault = AvroFault {
    place: 0,
    cause: AvroCause::End,
};

/// The first item is a number that is too long.
const LONG: AvroFault = AvroFault {
    place: 0,
    cause: AvroCause::Long,
};

#[test]
fn calls_one_behind_another(rt: HostRuntime) {
    let bytes: [u8; 12] = [0x80, 0x01, 0x7f, 1, 4, 0xaa, 0xbb, 4, 0xc3, 0xa9, 7, 8];
    let mut cursor = Cursor::new(&bytes);
    assert!(rt; cursor.long() == Ok(64));
    assert!(rt; cursor.int() == Ok(-64));
    assert!(rt; cursor.boolean() == Ok(true));
    assert!(rt; cursor.bytes() == Ok(&bytes[5..7]));
    assert!(rt; cursor.text() == Ok("é"));
    assert!(rt; cursor.place() == 10);
    assert!(rt; cursor.fixed(2) == Ok(&bytes[10..]));
    assert!(rt; cursor.place() == 12);
    let end = cursor.fixed(1);
    assert!(rt; end.is_err_and(|fault| fault.place == 12 && fault.cause == AvroCause::End));
    assert!(rt; cursor.place() == 12);
}

#[test]
fn a_refused_text_is_read_as_bytes(rt: HostRuntime) {
    let bytes: [u8; 3] = [0, 2, 0xff];
    let mut cursor = Cursor::new(&bytes);
    assert!(rt; cursor.long() == Ok(0));
    let refused = cursor.text();
    assert!(rt; refused.is_err_and(|fault| fault.place == 1 && fault.cause == AvroCause::Utf8));
    assert!(rt; cursor.place() == 1);
    assert!(rt; cursor.bytes() == Ok(&bytes[2..]));
}

#[test]
fn numbers_as_they_are_written(rt: HostRuntime) {
    let node = Node {
        kind: Kind::Long,
        logical: None,
        utc: None,
    };
    let rows: [(i64, &[u8]); 7] = [
        (0, &[0]),
        (-1, &[1]),
        (1, &[2]),
        (-64, &[0x7f]),
        (64, &[0x80, 1]),
        (
            i64::MAX,
            &[0xfe, 0xff, 0xff, 0xff, 0xff, 0xff, 0xff, 0xff, 0xff, 1],
        ),
        (
            i64::MIN,
            &[0xff, 0xff, 0xff, 0xff, 0xff, 0xff, 0xff, 0xff, 0xff, 1],
        ),
    ];
    for (number, bytes) in rows.as_slice() {
        let mut out = Octets::new(rt.alloc());
        encode(&node, &Value::Long(*number), &mut out).expect(&rt, "room");
        assert!(rt; out.as_slice() == *bytes, "{number}");
        assert!(rt; Cursor::new(bytes).long() == Ok(*number), "{number}");
    }
}

#[test]
fn numbers_as_others_write_them(rt: HostRuntime) {
    let rows: [(&[u8], Result<i64, AvroFault>, usize); 4] = [
        (&[0x80, 0], Ok(0), 2),
        (&[0x82, 0x80, 0x80, 0], Ok(1), 4),
        (&[0x80], Err(END), 0),
        (
            &[0xff, 0xff, 0xff, 0xff, 0xff, 0xff, 0xff, 0xff, 0xff, 2],
            Err(LONG),
            0,
        ),
    ];
    for (bytes, expected, place) in rows.as_slice() {
        let mut cursor = Cursor::new(bytes);
        assert!(rt; cursor.long() == *expected, "{bytes:?}");
        assert!(rt; cursor.place() == *place, "{bytes:?}");
    }
}
