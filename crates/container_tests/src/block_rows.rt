//! Blocks: which bytes are one, and which item is refused first. The answers are those of the reader that the
//! headers are held against.
use crate::files::{Answer, HEADER, MARK, Row, Walk, file_of, pass_all, read_all};
use crate::header_rows::check;
use icb_avro::AvroCause;
use icb_base::Limited;
use std::test::*;

/// What stands around the records.
const BLOCKS: [Row; 18] = [
    // In a block's count.
    (&[HEADER, 132], 0, 0, Answer::Avro(118, AvroCause::End)),
    // Before its size.
    (&[HEADER, 4], 0, 0, Answer::Avro(119, AvroCause::End)),
    // In its size.
    (&[HEADER, 4, 132], 0, 0, Answer::Avro(119, AvroCause::End)),
    // In its records.
    (&[HEADER, 4, 4, 2], 0, 0, Answer::Avro(119, AvroCause::End)),
    // In its marker.
    (
        &[
            HEADER, 4, 4, 2, 1, 17, 17, 17, 17, 17, 17, 17, 17, 17, 17, 17, 17, 17, 17, 17,
        ],
        0,
        0,
        Answer::Avro(119, AvroCause::End),
    ),
    // One byte behind the last block.
    (
        &[HEADER, 4, 4, 2, 1, MARK, 0],
        1,
        2,
        Answer::Avro(139, AvroCause::End),
    ),
    // A count of 2^62.
    (
        &[
            HEADER, 128, 128, 128, 128, 128, 128, 128, 128, 128, 1, 4, 2, 1, MARK,
        ],
        0,
        0,
        Answer::Avro(118, AvroCause::Count),
    ),
    // A size of 2^62.
    (
        &[
            HEADER, 4, 128, 128, 128, 128, 128, 128, 128, 128, 128, 1, 2, 1, MARK,
        ],
        0,
        0,
        Answer::Large(Limited::Block, 119, 4611686018427387904),
    ),
    // Both.
    (
        &[
            HEADER, 128, 128, 128, 128, 128, 128, 128, 128, 128, 1, 128, 128, 128, 128, 128, 128,
            128, 128, 128, 1, 2, 1, MARK,
        ],
        0,
        0,
        Answer::Large(Limited::Block, 128, 4611686018427387904),
    ),
    // A size of 2^27 + 1.
    (
        &[HEADER, 4, 130, 128, 128, 128, 1, 2, 1, MARK],
        0,
        0,
        Answer::Large(Limited::Block, 119, 134217729),
    ),
    // A size of 2^27.
    (
        &[HEADER, 4, 128, 128, 128, 128, 1, 2, 1, MARK],
        0,
        0,
        Answer::Avro(119, AvroCause::End),
    ),
    // A count above the size.
    (
        &[HEADER, 6, 4, 2, 1, MARK],
        0,
        0,
        Answer::Avro(118, AvroCause::Count),
    ),
    // That, and no room for the marker.
    (
        &[HEADER, 8, 6, 2],
        0,
        0,
        Answer::Avro(118, AvroCause::Count),
    ),
    // A count below 0.
    (
        &[HEADER, 3, 4, 2, 1, MARK],
        0,
        0,
        Answer::Avro(118, AvroCause::Negative),
    ),
    // A size below 0.
    (
        &[HEADER, 4, 3, 2, 1, MARK],
        0,
        0,
        Answer::Avro(119, AvroCause::Negative),
    ),
    // Another marker.
    (
        &[
            HEADER, 4, 4, 2, 1, 17, 17, 17, 17, 17, 17, 17, 17, 17, 17, 17, 17, 17, 17, 17, 16,
        ],
        0,
        0,
        Answer::Sync(0),
    ),
    // Another marker behind the second block.
    (
        &[
            HEADER, 4, 4, 2, 1, MARK, 2, 2, 64, 18, 17, 17, 17, 17, 17, 17, 17, 17, 17, 17, 17, 17,
            17, 17, 17,
        ],
        1,
        2,
        Answer::Sync(1),
    ),
    // A marker that is cut short, and a block.
    (
        &[
            HEADER, 4, 4, 2, 1, 17, 17, 17, 17, 17, 17, 17, 17, 17, 17, 17, 17, 17, 17, 17, 4, 4,
            2, 1, MARK,
        ],
        0,
        0,
        Answer::Sync(0),
    ),
];

/// Blocks whose bytes aren't their records, which are passed over all the same.
const RECORDS: [Row; 4] = [
    // No records in a byte.
    (
        &[HEADER, 0, 2, 2, MARK],
        1,
        0,
        Answer::Avro(120, AvroCause::Size),
    ),
    // A byte behind the records.
    (
        &[HEADER, 4, 6, 2, 1, 0, MARK],
        1,
        2,
        Answer::Avro(122, AvroCause::Size),
    ),
    // Records of more bytes than the block.
    (
        &[HEADER, 4, 4, 2, 129, MARK],
        1,
        2,
        Answer::Avro(121, AvroCause::End),
    ),
    // A number of 11 bytes in a record.
    (
        &[
            HEADER, 2, 22, 128, 128, 128, 128, 128, 128, 128, 128, 128, 128, 0, MARK,
        ],
        1,
        1,
        Answer::Avro(120, AvroCause::Long),
    ),
];

#[test]
fn blocks(rt: HostRuntime) {
    check(&rt, BLOCKS.as_slice());
}

#[test]
fn records(rt: HostRuntime) {
    for (parts, blocks, records, answer) in RECORDS.as_slice() {
        let file = file_of(&rt, parts);
        let wanted = Walk {
            blocks: 0,
            records: 0,
            answer: *answer,
        };
        assert!(rt; read_all(&rt, file.as_slice()) == wanted);
        let passed = Walk {
            blocks: *blocks,
            records: *records,
            answer: Answer::End,
        };
        assert!(rt; pass_all(&rt, file.as_slice()) == passed);
    }
}
