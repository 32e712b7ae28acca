//! Files that somebody changed, and what a stream over them answers. Expected answers follow by hand from
//! the stream format's sentences on the header, the cut and the additional data.

use crate::streams::{add, check, file, seal};
use icb_stream::StreamFault;

/// `abcdefghij` in blocks of 4 under `KEY` with no prefix, made by Python's `cryptography`; the nonce of a
/// block is eleven zeros and its number.
const MADE_BY_PYTHON: [u8; 102] = [
    0x41, 0x47, 0x53, 0x31, 0x04, 0x00, 0x00, 0x00, 0x00, 0x00, 0x00, 0x00, 0x00, 0x00, 0x00, 0x00,
    0x00, 0x00, 0x00, 0x00, 0x28, 0xb4, 0xe4, 0x37, 0xdf, 0x25, 0x2a, 0x89, 0x4d, 0xe4, 0x8e, 0x3a,
    0x4d, 0xba, 0x6c, 0x30, 0x98, 0xd3, 0x15, 0x53, 0x00, 0x00, 0x00, 0x00, 0x00, 0x00, 0x00, 0x00,
    0x00, 0x00, 0x00, 0x01, 0xdf, 0xb3, 0xc8, 0x0b, 0x1a, 0x84, 0x79, 0x35, 0xf6, 0x13, 0xe5, 0x20,
    0xdf, 0x7f, 0xea, 0xda, 0xdc, 0xb8, 0x52, 0x29, 0x00, 0x00, 0x00, 0x00, 0x00, 0x00, 0x00, 0x00,
    0x00, 0x00, 0x00, 0x02, 0x2f, 0xc3, 0xe2, 0x88, 0xd7, 0xab, 0x24, 0x85, 0x24, 0x2f, 0x77, 0xe5,
    0xcc, 0xd6, 0xae, 0x61, 0x16, 0x7d,
];

/// The parts of `MADE_BY_PYTHON`.
const PARTS: [(u8, &[u8]); 3] = [(0, b"abcd"), (1, b"efgh"), (2, b"ij")];

#[test]
fn unchanged_and_longer_files(rt: HostRuntime) {
    let whole = file(&rt, 4, &PARTS);
    assert!(rt; whole.as_slice() == MADE_BY_PYTHON.as_slice());
    check(&rt, &whole, 102, Ok(()), b"abcdefghij");
    // Bytes after the recorded length aren't read.
    let mut longer = file(&rt, 4, &PARTS);
    add(&rt, &mut longer, b"more");
    check(&rt, &longer, 102, Ok(()), b"abcdefghij");
    // An empty stream is one empty block.
    let empty = file(&rt, 1_048_576, &[(0, b"")]);
    check(&rt, &empty, 36, Ok(()), b"");
}

#[test]
fn blocks_in_other_places(rt: HostRuntime) {
    let exchanged = file(&rt, 4, &[(1, b"efgh"), (0, b"abcd"), (2, b"ij")]);
    let answer = Err(StreamFault::Block { number: 0 });
    check(&rt, &exchanged, 102, answer, b"");
    let repeated = file(&rt, 4, &[(0, b"abcd"), (1, b"efgh"), (1, b"efgh")]);
    let answer = Err(StreamFault::Block { number: 2 });
    check(&rt, &repeated, 104, answer, b"abcdefgh");
    // A block of another file under the same key.
    let mut mixed = file(&rt, 4, &[(0, b"abcd")]);
    seal(&rt, &mut mixed, b"data/y", 1, b"efgh");
    seal(&rt, &mut mixed, b"", 2, b"ij");
    let answer = Err(StreamFault::Block { number: 1 });
    check(&rt, &mixed, 102, answer, b"abcd");
}

#[test]
fn other_lengths(rt: HostRuntime) {
    let whole = file(&rt, 4, &PARTS);
    let cut = file(&rt, 4, &[(0, b"abcd"), (1, b"efgh")]);
    check(&rt, &cut, 102, Err(StreamFault::Short { size: 72 }), b"");
    let answer = Err(StreamFault::Block { number: 2 });
    check(&rt, &whole, 101, answer, b"abcdefgh");
    check(&rt, &whole, 103, Err(StreamFault::Short { size: 102 }), b"");
    // A last block of 27 bytes.
    let answer = Err(StreamFault::BadLength { length: 67 });
    check(&rt, &whole, 67, answer, b"");
}

#[test]
fn other_headers(rt: HostRuntime) {
    // Block lengths under which the file is cut, and under which its last block has 22 bytes.
    let answer = Err(StreamFault::Block { number: 0 });
    check(&rt, &file(&rt, 5, &PARTS), 102, answer, b"");
    let answer = Err(StreamFault::BadLength { length: 102 });
    check(&rt, &file(&rt, 8, &PARTS), 102, answer, b"");
    for found in [0, 16_777_217] {
        let answer = Err(StreamFault::BlockLength { found });
        check(&rt, &file(&rt, found, &PARTS), 102, answer, b"");
    }
    let mut other = b"AGS2".to_vec(rt.alloc()).expect(&rt, "a magic");
    add(&rt, &mut other, &MADE_BY_PYTHON[4..]);
    let answer = Err(StreamFault::Magic { found: *b"AGS2" });
    check(&rt, &other, 102, answer, b"");
}
