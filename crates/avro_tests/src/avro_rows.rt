//! Which bytes are read as which value: the bytes, how many of them the value takes, and its written
//! form; or the place and the cause of the first fault. The expected ones are those of an encoder
//! and a decoder in Python that follow the Apache Avro 1.11 specification and know nothing of this
//! repository. Half of the rows are foreign spellings and faults.
use crate::avro_helpers::{Case, Found, check};
use icb_avro::AvroCause;
use std::test::*;

#[test]
fn null_and_truth_values(rt: HostRuntime) {
    check(&rt, r#""null""#, &[Case(&[], Found::Value(0, &[]))]);
    check(
        &rt,
        r#""boolean""#,
        &[
            Case(&[0], Found::Value(1, &[0])),
            Case(&[1, 0xff], Found::Value(1, &[1])),
            Case(&[2], Found::Fault(0, AvroCause::Bool)),
            Case(&[], Found::Fault(0, AvroCause::End)),
        ],
    );
}

#[test]
fn long_numbers(rt: HostRuntime) {
    check(
        &rt,
        r#""long""#,
        &[
            Case(&[0], Found::Value(1, &[0])),
            Case(&[0x80, 0], Found::Value(2, &[0])),
            Case(
                &[0x80, 0x80, 0x80, 0x80, 0x80, 0x80, 0x80, 0x80, 0],
                Found::Value(9, &[0]),
            ),
            Case(
                &[0x80, 0x80, 0x80, 0x80, 0x80, 0x80, 0x80, 0x80, 0x80, 0],
                Found::Value(10, &[0]),
            ),
            Case(
                &[0xfe, 0xff, 0xff, 0xff, 0xff, 0xff, 0xff, 0xff, 0xff, 1],
                Found::Value(
                    10,
                    &[0xfe, 0xff, 0xff, 0xff, 0xff, 0xff, 0xff, 0xff, 0xff, 1],
                ),
            ),
            Case(
                &[0xff, 0xff, 0xff, 0xff, 0xff, 0xff, 0xff, 0xff, 0xff, 1],
                Found::Value(
                    10,
                    &[0xff, 0xff, 0xff, 0xff, 0xff, 0xff, 0xff, 0xff, 0xff, 1],
                ),
            ),
            Case(
                &[0x82, 0x80, 0x80, 0x80, 0x80, 0x80, 0x80, 0x80, 0x80, 0],
                Found::Value(10, &[2]),
            ),
        ],
    );
}

#[test]
fn numbers_that_are_too_long(rt: HostRuntime) {
    check(
        &rt,
        r#""long""#,
        &[
            Case(&[0x80], Found::Fault(0, AvroCause::End)),
            Case(
                &[0xff, 0xff, 0xff, 0xff, 0xff, 0xff, 0xff, 0xff, 0xff, 2],
                Found::Fault(0, AvroCause::Long),
            ),
            Case(
                &[
                    0xff, 0xff, 0xff, 0xff, 0xff, 0xff, 0xff, 0xff, 0xff, 0x81, 0,
                ],
                Found::Fault(0, AvroCause::Long),
            ),
            Case(
                &[0xff, 0xff, 0xff, 0xff, 0xff, 0xff, 0xff, 0xff, 0xff],
                Found::Fault(0, AvroCause::End),
            ),
        ],
    );
}

#[test]
fn int_numbers(rt: HostRuntime) {
    check(
        &rt,
        r#""int""#,
        &[
            Case(
                &[0xfe, 0xff, 0xff, 0xff, 0x0f],
                Found::Value(5, &[0xfe, 0xff, 0xff, 0xff, 0x0f]),
            ),
            Case(
                &[0xff, 0xff, 0xff, 0xff, 0x0f],
                Found::Value(5, &[0xff, 0xff, 0xff, 0xff, 0x0f]),
            ),
            Case(
                &[0x80, 0x80, 0x80, 0x80, 0x10],
                Found::Fault(0, AvroCause::Int),
            ),
            Case(
                &[0x81, 0x80, 0x80, 0x80, 0x10],
                Found::Fault(0, AvroCause::Int),
            ),
            Case(&[0x82, 0x80, 0x80, 0x80, 0x80, 0], Found::Value(6, &[2])),
            Case(
                &[0xff, 0xff, 0xff, 0xff, 0xff, 0xff, 0xff, 0xff, 0xff, 1],
                Found::Fault(0, AvroCause::Int),
            ),
        ],
    );
}

#[test]
fn floating_point_numbers(rt: HostRuntime) {
    check(
        &rt,
        r#""float""#,
        &[
            Case(&[0, 0, 0x80, 0x3f], Found::Value(4, &[0, 0, 0x80, 0x3f])),
            Case(&[0, 0, 0x80], Found::Fault(0, AvroCause::End)),
        ],
    );
    check(
        &rt,
        r#""double""#,
        &[Case(
            &[0, 0, 0, 0, 0, 0, 0xf0, 0x3f, 0],
            Found::Value(8, &[0, 0, 0, 0, 0, 0, 0xf0, 0x3f]),
        )],
    );
}

#[test]
fn bytes_and_texts(rt: HostRuntime) {
    check(
        &rt,
        r#""bytes""#,
        &[
            Case(&[4, 0xaa, 0xbb], Found::Value(3, &[4, 0xaa, 0xbb])),
            Case(&[0x84, 0, 0xaa, 0xbb], Found::Value(4, &[4, 0xaa, 0xbb])),
            Case(&[1], Found::Fault(0, AvroCause::Negative)),
            Case(&[6, 0xaa, 0xbb], Found::Fault(0, AvroCause::End)),
            Case(
                &[0x80, 0x80, 0x80, 0x80, 0x80, 0x80, 0x80, 0x80, 0x80, 1],
                Found::Fault(0, AvroCause::End),
            ),
            Case(
                &[0xfc, 0xff, 0xff, 0xff, 0xff, 0xff, 0xff, 0xff, 0xff, 1],
                Found::Fault(0, AvroCause::End),
            ),
        ],
    );
    check(
        &rt,
        r#""string""#,
        &[
            Case(&[2, 0xff], Found::Fault(0, AvroCause::Utf8)),
            Case(&[4, 0xc3, 0xa9], Found::Value(3, &[4, 0xc3, 0xa9])),
            Case(&[2, 0xc3], Found::Fault(0, AvroCause::Utf8)),
            Case(&[3, 0x61], Found::Fault(0, AvroCause::Negative)),
            Case(&[6, 0x80, 0x61], Found::Fault(0, AvroCause::End)),
        ],
    );
}

#[test]
fn fixed_types(rt: HostRuntime) {
    check(
        &rt,
        r#"{"type":"fixed","name":"f","size":3}"#,
        &[
            Case(&[1, 2, 3, 0xff], Found::Value(3, &[1, 2, 3])),
            Case(&[1, 2], Found::Fault(0, AvroCause::End)),
        ],
    );
    check(
        &rt,
        r#"{"type":"fixed","name":"f","size":0}"#,
        &[Case(&[], Found::Value(0, &[]))],
    );
}

#[test]
fn enums_and_unions(rt: HostRuntime) {
    check(
        &rt,
        r#"{"type":"enum","name":"e","symbols":["a","b"]}"#,
        &[
            Case(&[2], Found::Value(1, &[2])),
            Case(&[4], Found::Fault(0, AvroCause::Index)),
            Case(&[1], Found::Fault(0, AvroCause::Index)),
            Case(&[0x82, 0], Found::Value(2, &[2])),
            Case(
                &[0x82, 0x80, 0x80, 0x80, 0x10],
                Found::Fault(0, AvroCause::Int),
            ),
        ],
    );
    check(
        &rt,
        r#"["null","long"]"#,
        &[
            Case(&[0], Found::Value(1, &[0])),
            Case(&[2, 6], Found::Value(2, &[2, 6])),
            Case(&[0x82, 0, 6], Found::Value(3, &[2, 6])),
            Case(&[3], Found::Fault(0, AvroCause::Index)),
            Case(&[4], Found::Fault(0, AvroCause::Index)),
            Case(&[2, 0x80], Found::Fault(1, AvroCause::End)),
        ],
    );
}

#[test]
fn arrays(rt: HostRuntime) {
    check(
        &rt,
        r#"{"type":"array","items":"long"}"#,
        &[
            Case(&[0], Found::Value(1, &[0])),
            Case(&[0x80, 0], Found::Value(2, &[0])),
            Case(&[1, 2, 2, 0], Found::Value(4, &[2, 2, 0])),
            Case(&[1, 4, 2, 0], Found::Fault(3, AvroCause::Size)),
            Case(&[1, 0, 2, 0], Found::Fault(3, AvroCause::Size)),
            Case(&[4, 2, 4], Found::Fault(3, AvroCause::End)),
            Case(&[3, 4, 2, 4, 0], Found::Value(5, &[4, 2, 4, 0])),
            Case(
                &[0x80, 0x80, 0x80, 0x80, 0x80, 0x80, 0x80, 0x80, 0x80, 1, 0],
                Found::Fault(0, AvroCause::Count),
            ),
            Case(&[2, 2, 2, 4, 0], Found::Value(5, &[4, 2, 4, 0])),
            Case(&[2, 2, 3, 1, 4, 6, 0], Found::Fault(3, AvroCause::Negative)),
            Case(&[2, 2, 3, 2, 4, 6, 2, 0], Found::Fault(6, AvroCause::Size)),
            Case(&[5, 2], Found::Fault(0, AvroCause::Count)),
            Case(&[9], Found::Fault(0, AvroCause::Count)),
            Case(&[1, 1, 2, 0, 0], Found::Fault(1, AvroCause::Negative)),
            Case(
                &[0xff, 0xff, 0xff, 0xff, 0xff, 0xff, 0xff, 0xff, 0xff, 1],
                Found::Fault(0, AvroCause::Count),
            ),
            Case(
                &[0xfe, 0xff, 0xff, 0xff, 0xff, 0xff, 0xff, 0xff, 0xff, 1, 0],
                Found::Fault(0, AvroCause::Count),
            ),
            Case(
                &[
                    1, 0xfc, 0xff, 0xff, 0xff, 0xff, 0xff, 0xff, 0xff, 0xff, 1, 2, 0,
                ],
                Found::Fault(12, AvroCause::Size),
            ),
            Case(&[4, 2], Found::Fault(0, AvroCause::Count)),
            Case(&[2, 2], Found::Fault(2, AvroCause::End)),
        ],
    );
    check(
        &rt,
        r#"{"type":"array","items":{"type":"array","items":"boolean"}}"#,
        &[
            Case(
                &[4, 2, 1, 0, 2, 0, 0, 0, 0],
                Found::Value(8, &[4, 2, 1, 0, 2, 0, 0, 0]),
            ),
            Case(&[2, 2, 2], Found::Fault(2, AvroCause::Bool)),
            Case(&[4, 4, 1], Found::Fault(1, AvroCause::Count)),
        ],
    );
    check(
        &rt,
        r#"{"type":"array","items":{"type":"record","name":"r","fields":[{"name":"a","type":"null"},{"name":"b","type":"boolean"}]}}"#,
        &[
            Case(&[4, 1, 0, 0], Found::Value(4, &[4, 1, 0, 0])),
            Case(&[4, 1, 0], Found::Fault(3, AvroCause::End)),
            Case(&[6, 1, 0], Found::Fault(0, AvroCause::Count)),
        ],
    );
}

#[test]
fn maps(rt: HostRuntime) {
    check(
        &rt,
        r#"{"type":"map","values":"long"}"#,
        &[
            Case(&[0], Found::Value(1, &[0])),
            Case(&[2, 2, 0x61, 4, 0], Found::Value(5, &[2, 2, 0x61, 4, 0])),
            Case(&[1, 6, 2, 0x61, 4, 0], Found::Value(6, &[2, 2, 0x61, 4, 0])),
            Case(&[2, 1, 4], Found::Fault(1, AvroCause::Negative)),
            Case(
                &[3, 6, 2, 0x61, 4, 0x80, 0, 0],
                Found::Fault(8, AvroCause::Size),
            ),
            Case(&[2, 2, 0xff, 4, 0], Found::Fault(1, AvroCause::Utf8)),
            Case(
                &[4, 2, 0x61, 2, 2, 0x61, 4, 2, 2, 0x62, 6, 0],
                Found::Value(12, &[6, 2, 0x61, 2, 2, 0x61, 4, 2, 0x62, 6, 0]),
            ),
        ],
    );
}

#[test]
fn records(rt: HostRuntime) {
    check(
        &rt,
        r#"{"type":"record","name":"r","fields":[{"name":"a","type":"long"},{"name":"b","type":"string"},{"name":"c","type":["null","boolean"]}]}"#,
        &[
            Case(&[2, 2, 0x62, 2, 1, 0], Found::Value(5, &[2, 2, 0x62, 2, 1])),
            Case(&[2, 2, 0x62, 2, 2], Found::Fault(4, AvroCause::Bool)),
            Case(&[2, 2, 0x62], Found::Fault(3, AvroCause::End)),
        ],
    );
    check(
        &rt,
        r#"{"type":"record","name":"r","fields":[]}"#,
        &[Case(&[0xff], Found::Value(0, &[]))],
    );
}
