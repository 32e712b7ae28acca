//! What a cursor finds at the front of some bytes.
use icb_avro::{AvroCause, Cursor, ValueFault, encode};
use icb_schema::{AvroSchema, Octets};
use std::process::Abort;

/// What is expected of some bytes.
#[derive(Clone, Copy)]
pub(crate) enum Found<'a> {
    /// A value that takes so many of the bytes, and its written form.
    Value(usize, &'a [u8]),
    /// The place and the cause of the first fault.
    Fault(u64, AvroCause),
}

/// Bytes, and what is expected of them.
#[derive(Clone, Copy)]
pub(crate) struct Case<'a>(pub(crate) &'a [u8], pub(crate) Found<'a>);

/// `value` and `skip` find in each row's bytes what the row says, and stay at the front after a
/// fault; what was read is written in its written form.
pub(crate) fn check(rt: &(impl Abort + AllocGlobal), schema: &str, cases: &[Case<'_>]) {
    let schema = AvroSchema::read(rt.alloc(), schema.as_bytes()).expect(rt, "a schema");
    for Case(bytes, found) in cases {
        check_case(rt, &schema, bytes, *found);
    }
}

/// One row.
fn check_case(
    rt: &(impl Abort + AllocGlobal),
    schema: &AvroSchema,
    bytes: &[u8],
    expected: Found<'_>,
) {
    let mut cursor = Cursor::new(bytes);
    let mut passing = Cursor::new(bytes);
    let read = cursor.value(rt.alloc(), schema.root());
    let passed = passing.skip(schema.root());
    assert!(rt; cursor.place() == passing.place());
    match (read, expected) {
        (Ok(value), Found::Value(place, written)) => {
            let mut out = Octets::new(rt.alloc());
            encode(schema.root(), &value, &mut out).expect(rt, "room");
            assert!(rt; cursor.place() == place, "{bytes:?}");
            assert!(rt; out.as_slice() == written, "{bytes:?}");
            assert!(rt; passed.is_ok(), "{bytes:?}");
        }
        (Err(ValueFault::Avro(fault)), Found::Fault(place, cause)) => {
            assert!(rt; fault.place == place, "{bytes:?}");
            assert!(rt; fault.cause == cause, "{bytes:?}");
            assert!(rt; cursor.place() == 0, "{bytes:?}");
            assert!(rt; passed == Err(fault), "{bytes:?}");
        }
        _ => assert!(rt; false, "{bytes:?}"),
    }
}
