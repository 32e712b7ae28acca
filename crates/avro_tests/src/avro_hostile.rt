//! Bytes that ask for much: a long list in blocks of one item, and nesting to the schema's depth.
use icb_avro::{AvroCause, AvroFault, Cursor, Value, ValueFault};
use icb_schema::{Kind, Node, Octets};
use sqlite_items::Boxed;
use std::test::*;

/// A node without attributes.
fn bare(kind: Kind) -> Node {
    Node {
        kind,
        logical: None,
        utc: None,
    }
}

#[test]
fn blocks_of_one_item(rt: HostRuntime) {
    let items = Boxed::new(rt.alloc(), bare(Kind::Long)).expect(&rt, "room");
    let node = bare(Kind::Array {
        items,
        element: None,
    });
    let mut bytes = Octets::new(rt.alloc());
    for _ in 0..20_000u32 {
        bytes.extend_from_slice(&[2, 6]).expect(&rt, "room");
    }
    let mut open = Cursor::new(bytes.as_slice());
    let refused = open.value(rt.alloc(), &node).err();
    let fault = AvroFault {
        place: 40_000,
        cause: AvroCause::End,
    };
    assert!(rt; refused == Some(ValueFault::Avro(fault)));
    bytes.push(0).expect(&rt, "room");
    let mut cursor = Cursor::new(bytes.as_slice());
    let read = cursor.value(rt.alloc(), &node).expect(&rt, "an array");
    match &read {
        Value::Array(items) => assert!(rt; items.len() == 20_000),
        _ => assert!(rt; false),
    }
    assert!(rt; cursor.place() == 40_001);
}

#[test]
fn arrays_within_arrays(rt: HostRuntime) {
    let mut node = bare(Kind::Boolean);
    let mut bytes = Octets::new(rt.alloc());
    let mut whole = Octets::new(rt.alloc());
    for _ in 0..31u32 {
        let items = Boxed::new(rt.alloc(), node).expect(&rt, "room");
        node = bare(Kind::Array {
            items,
            element: None,
        });
        bytes.push(2).expect(&rt, "room");
        whole.push(2).expect(&rt, "room");
    }
    bytes.push(2).expect(&rt, "room");
    let mut cursor = Cursor::new(bytes.as_slice());
    let refused = cursor.skip(&node);
    assert!(rt; refused.is_err_and(|fault| fault.place == 31 && fault.cause == AvroCause::Bool));
    assert!(rt; cursor.place() == 0);
    whole.push(1).expect(&rt, "room");
    for _ in 0..31u32 {
        whole.push(0).expect(&rt, "room");
    }
    let mut cursor = Cursor::new(whole.as_slice());
    assert!(rt; cursor.skip(&node) == Ok(()));
    assert!(rt; cursor.place() == 63);
}
