//! What is written, byte by byte. The expected bytes are made by a few lines of Python from the
//! standard's sections on container files and on the binary encoding.
use crate::files::{SCHEMA_TEXT, SMALL};
use icb_container::{Block, write_container};
use icb_schema::{AvroSchema, Octets, Text};
use std::test::*;

/// Three blocks, of 1, 64 and 0 records, and five more properties, given out of order.
const LARGER: [u8; 352] = [
    79, 98, 106, 1, 14, 12, 97, 118, 114, 111, 46, 97, 4, 0, 255, 20, 97, 118, 114, 111, 46, 99,
    111, 100, 101, 99, 8, 110, 117, 108, 108, 22, 97, 118, 114, 111, 46, 115, 99, 104, 101, 109,
    97, 132, 1, 123, 34, 102, 105, 101, 108, 100, 115, 34, 58, 91, 123, 34, 110, 97, 109, 101, 34,
    58, 34, 97, 34, 44, 34, 116, 121, 112, 101, 34, 58, 34, 108, 111, 110, 103, 34, 125, 93, 44,
    34, 110, 97, 109, 101, 34, 58, 34, 114, 34, 44, 34, 116, 121, 112, 101, 34, 58, 34, 114, 101,
    99, 111, 114, 100, 34, 125, 18, 97, 118, 114, 111, 46, 115, 121, 110, 99, 140, 1, 120, 120,
    120, 120, 120, 120, 120, 120, 120, 120, 120, 120, 120, 120, 120, 120, 120, 120, 120, 120, 120,
    120, 120, 120, 120, 120, 120, 120, 120, 120, 120, 120, 120, 120, 120, 120, 120, 120, 120, 120,
    120, 120, 120, 120, 120, 120, 120, 120, 120, 120, 120, 120, 120, 120, 120, 120, 120, 120, 120,
    120, 120, 120, 120, 120, 120, 120, 120, 120, 120, 120, 2, 98, 0, 18, 115, 99, 104, 101, 109,
    97, 45, 105, 100, 2, 48, 4, 195, 169, 2, 118, 0, 0, 1, 2, 3, 4, 5, 6, 7, 8, 9, 10, 11, 12, 13,
    14, 15, 2, 4, 128, 1, 0, 1, 2, 3, 4, 5, 6, 7, 8, 9, 10, 11, 12, 13, 14, 15, 128, 1, 128, 1, 4,
    4, 4, 4, 4, 4, 4, 4, 4, 4, 4, 4, 4, 4, 4, 4, 4, 4, 4, 4, 4, 4, 4, 4, 4, 4, 4, 4, 4, 4, 4, 4, 4,
    4, 4, 4, 4, 4, 4, 4, 4, 4, 4, 4, 4, 4, 4, 4, 4, 4, 4, 4, 4, 4, 4, 4, 4, 4, 4, 4, 4, 4, 4, 4, 0,
    1, 2, 3, 4, 5, 6, 7, 8, 9, 10, 11, 12, 13, 14, 15, 0, 0, 0, 1, 2, 3, 4, 5, 6, 7, 8, 9, 10, 11,
    12, 13, 14, 15,
];

#[test]
fn two_records(rt: HostRuntime) {
    let alloc = rt.alloc();
    let schema = AvroSchema::read(alloc, SCHEMA_TEXT).expect(&rt, "a schema");
    let bytes = Octets::from_slice(alloc, &[2, 1]).expect(&rt, "room");
    let blocks = [block(2, bytes)];
    let file = write_container(alloc, &schema, &[], &[0x11; 16], &blocks).expect(&rt, "room");
    assert!(rt; file.as_slice() == SMALL.as_slice());
}

#[test]
fn properties_in_the_order_of_their_keys(rt: HostRuntime) {
    let alloc = rt.alloc();
    let schema = AvroSchema::read(alloc, SCHEMA_TEXT).expect(&rt, "a schema");
    let rows: [(&str, &[u8]); 5] = [
        ("schema-id", b"0"),
        ("b", b""),
        ("avro.a", &[0, 255]),
        ("é", b"v"),
        ("avro.sync", &[b'x'; 70]),
    ];
    let mut extra = Vec::new(alloc);
    for (key, value) in rows.as_slice() {
        let key = Text::from_str(alloc, key).expect(&rt, "room");
        let value = Octets::from_slice(alloc, value).expect(&rt, "room");
        extra.push((key, value)).expect(&rt, "room");
    }
    let marker: [u8; 16] = [0, 1, 2, 3, 4, 5, 6, 7, 8, 9, 10, 11, 12, 13, 14, 15];
    let one = Octets::from_slice(alloc, &[0x80, 1]).expect(&rt, "room");
    let many = Octets::from_slice(alloc, &[4; 64]).expect(&rt, "room");
    let blocks = [block(1, one), block(64, many), block(0, Octets::new(alloc))];
    let file = write_container(alloc, &schema, extra.as_slice(), &marker, &blocks).expect(
        &rt, "room",
    );
    assert!(rt; file.as_slice() == LARGER.as_slice());
}

/// A block of so many records; where it stands isn't looked at.
fn block(count: u64, bytes: Octets) -> Block {
    Block {
        first: 7,
        count,
        place: 9,
        bytes,
    }
}
