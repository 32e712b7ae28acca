//! Key metadata in bytes: the 29 bytes of the format's example, refusals with their places, and
//! foreign spellings. The places and values are those of a reader in Python that follows the format's
//! description and knows nothing of this repository.
use icb_base::KeyMeta;
use icb_keymeta::{DecodeFault, decode, encode};
use std::process::Abort;
use std::test::*;

const EXAMPLE: [u8; 29] = [
    1, 0x20, 0, 1, 2, 3, 4, 5, 6, 7, 8, 9, 0x0a, 0x0b, 0x0c, 0x0d, 0x0e, 0x0f, 2, 0x0c, 0x64, 0x61,
    0x74, 0x61, 0x2f, 0x61, 2, 0x80, 3,
];

/// The bytes of the keys: the first ones.
const KEY: [u8; 33] = [
    0, 1, 2, 3, 4, 5, 6, 7, 8, 9, 0x0a, 0x0b, 0x0c, 0x0d, 0x0e, 0x0f, 0x10, 0x11, 0x12, 0x13, 0x14,
    0x15, 0x16, 0x17, 0x18, 0x19, 0x1a, 0x1b, 0x1c, 0x1d, 0x1e, 0x1f, 0x20,
];

/// Bytes in front of a key, so many bytes of it, and bytes behind it.
struct Row(&'static [u8], usize, &'static [u8]);

/// The key of a row.
fn key_of(rt: &impl Abort, row: &Row) -> &'static [u8] {
    KEY.get(..row.1).expect(rt, "a key")
}

/// The bytes of a row.
fn bytes_of(rt: &(impl Abort + AllocGlobal), row: &Row) -> Vec<u8> {
    let mut bytes = row.0.to_vec(rt.alloc()).expect(rt, "room");
    bytes.extend_from_slice(key_of(rt, row)).expect(rt, "room");
    bytes.extend_from_slice(row.2).expect(rt, "room");
    bytes
}

/// The place that is refused, or none where the bytes are read.
fn refused_place(rt: &(impl Abort + AllocGlobal), bytes: &[u8]) -> Option<u64> {
    match decode(rt.alloc(), bytes) {
        Ok(_) => None,
        Err(DecodeFault::BadKeyMeta { place }) => Some(place),
        Err(DecodeFault::NoMemory) => Some(u64::MAX),
    }
}

/// Each row is refused at this place.
fn check(rt: &(impl Abort + AllocGlobal), place: u64, rows: &[Row]) {
    for row in rows {
        let bytes = bytes_of(rt, row);
        assert!(rt;
            refused_place(rt, bytes.as_slice()) == Some(place),
            "{place}"
        );
    }
}

#[test]
fn the_example_both_ways(rt: HostRuntime) {
    let meta = KeyMeta::new(rt.alloc(), &KEY[..16], Some(b"data/a"), Some(192));
    let meta = meta.expect(&rt, "key metadata");
    let bytes = encode(rt.alloc(), &meta).expect(&rt, "room");
    assert!(rt; bytes.as_slice() == EXAMPLE.as_slice());
    let read = decode(rt.alloc(), &EXAMPLE).expect(&rt, "the example");
    assert!(rt; read.key() == &KEY[..16] && read.prefix() == Some(b"data/a".as_slice()));
    assert!(rt; read.length() == Some(192));
    assert!(rt; refused_place(&rt, &EXAMPLE[..28]) == Some(27));
    let mut other = EXAMPLE;
    other[0] = 2;
    assert!(rt; refused_place(&rt, &other) == Some(0));
}

#[test]
fn refused_in_the_version_or_the_key(rt: HostRuntime) {
    // no bytes; version 0; version 129
    check(
        &rt,
        0,
        &[
            Row(&[], 0, &[]),
            Row(
                &[0, 0x20],
                16,
                &[2, 0x0c, 0x64, 0x61, 0x74, 0x61, 0x2f, 0x61, 2, 0x80, 3],
            ),
            Row(
                &[0x81, 0x20],
                16,
                &[2, 0x0c, 0x64, 0x61, 0x74, 0x61, 0x2f, 0x61, 2, 0x80, 3],
            ),
        ],
    );
    // the version alone; a key without its bytes; a key that is cut; a key of 15 bytes; a key of no bytes; a key of 17 bytes; a key of 33 bytes; a key of 31 bytes; a key of -16 bytes; a number that ends early; a number of 11 bytes; a number above 64 bits; a key of 15 bytes before a wrong branch
    check(
        &rt,
        1,
        &[
            Row(&[1], 0, &[]),
            Row(&[1, 0x20], 0, &[]),
            Row(&[1, 0x20], 15, &[]),
            Row(&[1, 0x1e], 15, &[0, 0]),
            Row(&[1, 0, 0, 0], 0, &[]),
            Row(&[1, 0x22], 17, &[0, 0]),
            Row(&[1, 0x42], 33, &[0, 0]),
            Row(&[1, 0x3e], 31, &[0, 0]),
            Row(&[1, 0x1f], 16, &[0, 0]),
            Row(&[1, 0x80, 0x80], 0, &[]),
            Row(
                &[
                    1, 0xa0, 0x80, 0x80, 0x80, 0x80, 0x80, 0x80, 0x80, 0x80, 0x80, 0,
                ],
                16,
                &[0, 0],
            ),
            Row(
                &[1, 0xa0, 0x80, 0x80, 0x80, 0x80, 0x80, 0x80, 0x80, 0x80, 2],
                16,
                &[0, 0],
            ),
            Row(&[1, 0x1e], 15, &[4]),
        ],
    );
}

#[test]
fn refused_behind_the_key(rt: HostRuntime) {
    // nothing behind the key; branch 2; branch -1; a branch above 32 bits; a branch that ends early
    check(
        &rt,
        18,
        &[
            Row(&[1, 0x20], 16, &[]),
            Row(&[1, 0x20], 16, &[4, 0]),
            Row(&[1, 0x20], 16, &[1, 0]),
            Row(&[1, 0x20], 16, &[0x80, 0x80, 0x80, 0x80, 0x20, 0]),
            Row(&[1, 0x20], 16, &[0x80]),
        ],
    );
    // no prefix behind its branch; a prefix that is cut; a prefix of -1 bytes; nothing behind no prefix; branch 3 of the length
    check(
        &rt,
        19,
        &[
            Row(&[1, 0x20], 16, &[2]),
            Row(&[1, 0x20], 16, &[2, 0x0c, 0x64, 0x61, 0x74, 0x61, 0x2f]),
            Row(&[1, 0x20], 16, &[2, 1, 0]),
            Row(&[1, 0x20], 16, &[0]),
            Row(&[1, 0x20], 16, &[0, 6]),
        ],
    );
}

#[test]
fn refused_in_the_length_or_behind_the_record(rt: HostRuntime) {
    // no length behind its branch; length -1; the least length; a length above 64 bits; a byte behind nulls; a record behind the record
    check(
        &rt,
        20,
        &[
            Row(&[1, 0x20], 16, &[0, 2]),
            Row(&[1, 0x20], 16, &[0, 2, 1]),
            Row(
                &[1, 0x20],
                16,
                &[
                    0, 2, 0xff, 0xff, 0xff, 0xff, 0xff, 0xff, 0xff, 0xff, 0xff, 1,
                ],
            ),
            Row(
                &[1, 0x20],
                16,
                &[
                    0, 2, 0xfe, 0xfe, 0xfe, 0xfe, 0xfe, 0xfe, 0xfe, 0xfe, 0xfe, 2,
                ],
            ),
            Row(&[1, 0x20], 16, &[0, 0, 0]),
            Row(
                &[1, 0x20],
                16,
                &[
                    0, 0, 0x20, 0, 1, 2, 3, 4, 5, 6, 7, 8, 9, 0x0a, 0x0b, 0x0c, 0x0d, 0x0e, 0x0f,
                    2, 0x0c, 0x64, 0x61, 0x74, 0x61, 0x2f, 0x61, 2, 0x80, 3,
                ],
            ),
        ],
    );
    // length -1 behind long numbers
    check(&rt, 23, &[Row(&[1, 0xa0, 0], 16, &[0x80, 0, 0x82, 0, 1])]);
    // nothing behind a prefix
    check(
        &rt,
        26,
        &[Row(
            &[1, 0x20],
            16,
            &[2, 0x0c, 0x64, 0x61, 0x74, 0x61, 0x2f, 0x61],
        )],
    );
}

/// A row is read as its key, this prefix and this length.
fn check_read(
    rt: &(impl Abort + AllocGlobal),
    row: &Row,
    prefix: Option<&[u8]>,
    length: Option<u64>,
) {
    let bytes = bytes_of(rt, row);
    let meta = decode(rt.alloc(), bytes.as_slice()).expect(rt, "key metadata");
    assert!(rt; meta.key() == key_of(rt, row) && meta.prefix() == prefix);
    assert!(rt; meta.length() == length);
}

#[test]
fn other_forms_are_read(rt: HostRuntime) {
    // nulls
    check_read(&rt, &Row(&[1, 0x20], 16, &[0, 0]), None, None);
    // an empty prefix
    check_read(&rt, &Row(&[1, 0x20], 16, &[2, 0, 0]), Some(&[]), None);
    // length 0
    check_read(&rt, &Row(&[1, 0x20], 16, &[0, 2, 0]), None, Some(0));
    // the greatest length
    check_read(
        &rt,
        &Row(
            &[1, 0x20],
            16,
            &[
                0, 2, 0xfe, 0xff, 0xff, 0xff, 0xff, 0xff, 0xff, 0xff, 0xff, 1,
            ],
        ),
        None,
        Some(9223372036854775807),
    );
    // a key of 24 bytes
    check_read(&rt, &Row(&[1, 0x30], 24, &[0, 0]), None, None);
    // a key of 32 bytes
    check_read(&rt, &Row(&[1, 0x40], 32, &[0, 0]), None, None);
}

#[test]
fn numbers_of_more_bytes_are_read(rt: HostRuntime) {
    // a key length of two bytes
    check_read(&rt, &Row(&[1, 0xa0, 0], 16, &[0, 0]), None, None);
    // a key length of ten bytes
    check_read(
        &rt,
        &Row(
            &[1, 0xa0, 0x80, 0x80, 0x80, 0x80, 0x80, 0x80, 0x80, 0x80, 0],
            16,
            &[0, 0],
        ),
        None,
        None,
    );
    // branches of two bytes
    check_read(
        &rt,
        &Row(&[1, 0x20], 16, &[0x82, 0, 2, 0xaa, 0x82, 0x80, 0, 4]),
        Some(&[0xaa]),
        Some(2),
    );
    // a null of ten bytes
    check_read(
        &rt,
        &Row(
            &[1, 0x20],
            16,
            &[
                0x80, 0x80, 0x80, 0x80, 0x80, 0x80, 0x80, 0x80, 0x80, 0, 0x80, 0,
            ],
        ),
        None,
        None,
    );
    // a prefix length of three bytes
    check_read(
        &rt,
        &Row(&[1, 0x20], 16, &[2, 0x84, 0x80, 0, 0xff, 0, 0]),
        Some(&[0xff, 0]),
        None,
    );
    // a length of five bytes
    check_read(
        &rt,
        &Row(&[1, 0x20], 16, &[0, 2, 0x80, 0x83, 0x80, 0x80, 0]),
        None,
        Some(192),
    );
}
