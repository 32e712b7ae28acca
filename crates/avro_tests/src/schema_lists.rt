//! The list types, and a schema that is made of a node.
use icb_schema::{AvroSchema, Kind, Names, Node, Octets, Text};
use std::process::Abort;

/// The schema of a whole number.
fn int_schema() -> AvroSchema {
    let root = Node {
        kind: Kind::Int,
        logical: None,
        utc: None,
    };
    AvroSchema::new(root)
}

/// A root comes back, and its copy is a node of its kind.
#[test]
fn a_root_comes_back(rt: HostRuntime) {
    let schema = int_schema();
    let node = schema.root().copy(rt.alloc()).expect(&rt, "room");
    assert!(rt; matches!(node.kind, Kind::Int));
    assert!(rt; node.takes_bytes());
}

/// Texts and lists of texts give what was put in.
#[test]
fn texts(rt: HostRuntime) {
    let alloc = rt.alloc();
    let text = Text::from_str(alloc, "ab").expect(&rt, "room");
    assert!(rt; text.copy(alloc).expect(&rt, "room").as_str() == "ab");
    assert!(rt; text.as_slice() == b"ab".as_slice());
    let mut names = Names::new(alloc);
    names.push(text).expect(&rt, "room");
    let names = names.copy(alloc).expect(&rt, "room");
    assert!(rt; names.as_slice().len() == 1);
    let texts = names.into_vec();
    assert!(rt; Names::from_vec(texts).as_slice().len() == 1);
}

/// A list of bytes grows by one and by many, and is cut.
#[test]
fn octets(rt: HostRuntime) {
    let alloc = rt.alloc();
    let mut octets = Octets::from_slice(alloc, &[1, 2]).expect(&rt, "room");
    octets.push(3).expect(&rt, "room");
    octets.extend_from_slice(&[4, 5]).expect(&rt, "room");
    let mut copy = octets.copy(alloc).expect(&rt, "room");
    assert!(rt; copy.as_slice() == [1, 2, 3, 4, 5].as_slice());
    copy.truncate(2);
    assert!(rt; copy.as_slice() == [1, 2].as_slice());
    copy.truncate(9);
    assert!(rt; Octets::from_vec(copy.into_vec()).as_slice() == [1, 2].as_slice());
}
