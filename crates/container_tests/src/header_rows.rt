//! Headers: which bytes are one, and which item is refused first. The answers are those of a reader of some
//! 60 lines of Python, written from the standard's sections on container files and on the binary encoding.
use crate::files::{
    Answer, CODEC, HEADER, MAGIC, MARK, NULL, Row, SCHEMA, TEXT, Walk, file_of, pass_all, read_all,
};
use icb_avro::AvroCause;
use icb_base::Limited;
use icb_schema::SchemaFault;
use std::process::Abort;
use std::test::*;

/// Whole files.
const FILES: [Row; 36] = [
    // A file of 138 bytes.
    (&[HEADER, 4, 4, 2, 1, MARK], 1, 2, Answer::End),
    // No blocks.
    (&[HEADER], 0, 0, Answer::End),
    // A block of no records, and two.
    (
        &[HEADER, 0, 0, MARK, 4, 4, 2, 1, MARK, 2, 2, 64, MARK],
        3,
        3,
        Answer::End,
    ),
    // Numbers with more bytes than they need.
    (
        &[HEADER, 132, 0, 132, 128, 0, 2, 1, MARK],
        1,
        2,
        Answer::End,
    ),
    // The map in two blocks.
    (
        &[
            MAGIC, 2, CODEC, NULL, 2, SCHEMA, TEXT, 0, MARK, 4, 4, 2, 1, MARK,
        ],
        1,
        2,
        Answer::End,
    ),
    // In a block that says its size.
    (
        &[
            MAGIC, 3, 192, 1, CODEC, NULL, SCHEMA, TEXT, 0, MARK, 4, 4, 2, 1, MARK,
        ],
        1,
        2,
        Answer::End,
    ),
    // In two, of which the second says its size.
    (
        &[
            MAGIC, 2, CODEC, NULL, 1, 160, 1, SCHEMA, TEXT, 0, MARK, 4, 4, 2, 1, MARK,
        ],
        1,
        2,
        Answer::End,
    ),
    // A size that is one less.
    (
        &[
            MAGIC, 3, 190, 1, CODEC, NULL, SCHEMA, TEXT, 0, MARK, 4, 4, 2, 1, MARK,
        ],
        0,
        0,
        Answer::Avro(103, AvroCause::Size),
    ),
    // A size below 0.
    (
        &[
            MAGIC, 3, 1, CODEC, NULL, SCHEMA, TEXT, 0, MARK, 4, 4, 2, 1, MARK,
        ],
        0,
        0,
        Answer::Avro(5, AvroCause::Negative),
    ),
    // Equal keys, the last with null.
    (
        &[
            MAGIC, 6, CODEC, 8, 115, 110, 97, 112, CODEC, NULL, SCHEMA, TEXT, 0, MARK, 4, 4, 2, 1,
            MARK,
        ],
        1,
        2,
        Answer::End,
    ),
    // Equal keys, the last with snap.
    (
        &[
            MAGIC, 6, CODEC, NULL, CODEC, 8, 115, 110, 97, 112, SCHEMA, TEXT, 0, MARK, 4, 4, 2, 1,
            MARK,
        ],
        0,
        0,
        Answer::Codec(4),
    ),
    // Keys out of order.
    (
        &[
            MAGIC, 4, SCHEMA, TEXT, CODEC, NULL, 0, MARK, 4, 4, 2, 1, MARK,
        ],
        1,
        2,
        Answer::End,
    ),
    // No codec.
    (
        &[MAGIC, 2, SCHEMA, TEXT, 0, MARK, 4, 4, 2, 1, MARK],
        1,
        2,
        Answer::End,
    ),
    // No schema, and a codec that isn't null.
    (
        &[
            MAGIC, 2, CODEC, 8, 115, 110, 97, 112, 0, MARK, 4, 4, 2, 1, MARK,
        ],
        0,
        0,
        Answer::NotAvro,
    ),
    // No properties.
    (&[MAGIC, 0, MARK, 4, 4, 2, 1, MARK], 0, 0, Answer::NotAvro),
    // A codec that isn't UTF-8.
    (
        &[
            MAGIC, 4, CODEC, 2, 255, SCHEMA, TEXT, 0, MARK, 4, 4, 2, 1, MARK,
        ],
        0,
        0,
        Answer::Avro(16, AvroCause::Utf8),
    ),
    // An empty codec.
    (
        &[MAGIC, 4, CODEC, 0, SCHEMA, TEXT, 0, MARK, 4, 4, 2, 1, MARK],
        0,
        0,
        Answer::Codec(0),
    ),
    // A key that isn't UTF-8.
    (
        &[
            MAGIC, 6, CODEC, NULL, 2, 255, 0, SCHEMA, TEXT, 0, MARK, 4, 4, 2, 1, MARK,
        ],
        0,
        0,
        Answer::Avro(21, AvroCause::Utf8),
    ),
    // A map of 2^62 properties.
    (
        &[
            MAGIC, 128, 128, 128, 128, 128, 128, 128, 128, 128, 1, CODEC, NULL, SCHEMA, TEXT, 0,
            MARK, 4, 4, 2, 1, MARK,
        ],
        0,
        0,
        Answer::Avro(4, AvroCause::Count),
    ),
    // Of 2^62 with a size.
    (
        &[
            MAGIC, 255, 255, 255, 255, 255, 255, 255, 255, 127, 192, 1, CODEC, NULL, SCHEMA, TEXT,
            0, MARK, 4, 4, 2, 1, MARK,
        ],
        0,
        0,
        Answer::Avro(4, AvroCause::Count),
    ),
    // Of the least count.
    (
        &[
            MAGIC, 255, 255, 255, 255, 255, 255, 255, 255, 255, 1, 192, 1, CODEC, NULL, SCHEMA,
            TEXT, 0, MARK, 4, 4, 2, 1, MARK,
        ],
        0,
        0,
        Answer::Avro(4, AvroCause::Count),
    ),
    // A count of 11 bytes.
    (
        &[MAGIC, 128, 128, 128, 128, 128, 128, 128, 128, 128, 128, 0],
        0,
        0,
        Answer::Avro(4, AvroCause::Long),
    ),
    // A count beyond 64 bits.
    (
        &[
            MAGIC, 128, 128, 128, 128, 128, 128, 128, 128, 128, 2, CODEC, NULL,
        ],
        0,
        0,
        Answer::Avro(4, AvroCause::Long),
    ),
    // A key of 2^62 bytes.
    (
        &[
            MAGIC, 4, 128, 128, 128, 128, 128, 128, 128, 128, 128, 1, CODEC, NULL,
        ],
        0,
        0,
        Answer::Large(Limited::Header, 5, 4611686018427387904),
    ),
    // A key below 0.
    (
        &[MAGIC, 4, 1, CODEC, NULL, SCHEMA, TEXT, 0, MARK],
        0,
        0,
        Answer::Avro(5, AvroCause::Negative),
    ),
    // A value of 2^24 bytes.
    (
        &[MAGIC, 4, CODEC, 128, 128, 128, 16, 110],
        0,
        0,
        Answer::Large(Limited::Header, 16, 16777216),
    ),
    // A value that would end at 2^24, and one of a byte more.
    (
        &[MAGIC, 4, CODEC, 216, 255, 255, 15, 110],
        0,
        0,
        Answer::Avro(16, AvroCause::End),
    ),
    (
        &[MAGIC, 4, CODEC, 218, 255, 255, 15, 110],
        0,
        0,
        Answer::Large(Limited::Header, 16, 16777197),
    ),
    // A key that would end at 2^24, and one of a byte more.
    (
        &[MAGIC, 4, 238, 255, 255, 15, 110],
        0,
        0,
        Answer::Avro(5, AvroCause::End),
    ),
    (
        &[MAGIC, 4, 240, 255, 255, 15, 110],
        0,
        0,
        Answer::Large(Limited::Header, 5, 16777208),
    ),
    // A value of more bytes than there are.
    (
        &[MAGIC, 2, CODEC, 8, 110],
        0,
        0,
        Answer::Avro(16, AvroCause::End),
    ),
    // A text that is no JSON.
    (
        &[MAGIC, 2, SCHEMA, 2, 123, 0, MARK, 4, 4, 2, 1, MARK],
        0,
        0,
        Answer::Schema(SchemaFault::Json),
    ),
    // A schema that is no record.
    (
        &[
            MAGIC, 2, SCHEMA, 12, 34, 108, 111, 110, 103, 34, 0, MARK, 4, 4, 2, 1, MARK,
        ],
        0,
        0,
        Answer::Schema(SchemaFault::Shape { node: 0 }),
    ),
    // A record of no fields.
    (
        &[
            MAGIC, 2, SCHEMA, 80, 123, 34, 102, 105, 101, 108, 100, 115, 34, 58, 91, 93, 44, 34,
            110, 97, 109, 101, 34, 58, 34, 114, 34, 44, 34, 116, 121, 112, 101, 34, 58, 34, 114,
            101, 99, 111, 114, 100, 34, 125, 0, MARK, 4, 4, 2, 1, MARK,
        ],
        0,
        0,
        Answer::Schema(SchemaFault::Shape { node: 0 }),
    ),
    // Another magic.
    (
        &[
            79, 98, 106, 2, 4, CODEC, NULL, SCHEMA, TEXT, 0, MARK, 4, 4, 2, 1, MARK,
        ],
        0,
        0,
        Answer::NotAvro,
    ),
    // A file of no bytes.
    (&[], 0, 0, Answer::NotAvro),
];

/// Files that end too early.
const CUT: [Row; 8] = [
    // The magic ends.
    (&[79, 98, 106], 0, 0, Answer::NotAvro),
    // Behind the magic.
    (&[MAGIC], 0, 0, Answer::Avro(4, AvroCause::End)),
    // In the count.
    (&[MAGIC, 132], 0, 0, Answer::Avro(4, AvroCause::End)),
    // In a key.
    (&[MAGIC, 4, 20, 97], 0, 0, Answer::Avro(5, AvroCause::End)),
    // In a value's number.
    (
        &[MAGIC, 2, SCHEMA, 132],
        0,
        0,
        Answer::Avro(17, AvroCause::End),
    ),
    // In a value.
    (
        &[MAGIC, 2, CODEC, 8, 110, 117, 108],
        0,
        0,
        Answer::Avro(16, AvroCause::End),
    ),
    // Before the count 0.
    (
        &[MAGIC, 4, CODEC, NULL, SCHEMA, TEXT],
        0,
        0,
        Answer::Avro(101, AvroCause::End),
    ),
    // In the marker.
    (
        &[
            MAGIC, 4, CODEC, NULL, SCHEMA, TEXT, 0, 17, 17, 17, 17, 17, 17, 17, 17, 17, 17, 17, 17,
            17, 17, 17,
        ],
        0,
        0,
        Answer::Avro(102, AvroCause::End),
    ),
];

/// Reads each file, and passes over its blocks.
pub(crate) fn check(rt: &(impl Abort + AllocGlobal), rows: &[Row]) {
    for (parts, blocks, records, answer) in rows {
        let file = file_of(rt, parts);
        let wanted = Walk {
            blocks: *blocks,
            records: *records,
            answer: *answer,
        };
        assert!(rt; read_all(rt, file.as_slice()) == wanted);
        assert!(rt; pass_all(rt, file.as_slice()) == wanted);
    }
}

#[test]
fn headers(rt: HostRuntime) {
    check(&rt, FILES.as_slice());
}

#[test]
fn cut_headers(rt: HostRuntime) {
    check(&rt, CUT.as_slice());
}
