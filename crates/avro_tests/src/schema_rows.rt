//! What a schema's text reads as, in one line, so that a case is a row of two texts.
use icb_schema::{AvroSchema, SchemaFault};
use std::process::Abort;

/// What a text reads as, printed, or why it is refused.
pub(crate) fn shown(rt: &(impl Abort + AllocGlobal), text: &[u8]) -> String {
    match AvroSchema::read(rt.alloc(), text) {
        Ok(schema) => schema.print(rt.alloc()).expect(rt, "room").into_string(),
        Err(SchemaFault::Json) => String::from_str(rt.alloc(), "Json").expect(rt, "room"),
        Err(SchemaFault::Nodes) => String::from_str(rt.alloc(), "Nodes").expect(rt, "room"),
        Err(SchemaFault::Depth { node }) => format!(in rt.alloc(); "Depth {node}").expect(
            rt, "room",
        ),
        Err(SchemaFault::Shape { node }) => format!(in rt.alloc(); "Shape {node}").expect(
            rt, "room",
        ),
        Err(SchemaFault::Recursive { node }) => {
            format!(in rt.alloc(); "Recursive {node}").expect(rt, "room")
        }
        Err(SchemaFault::NoMemory) => String::from_str(rt.alloc(), "NoMemory").expect(rt, "room"),
    }
}

/// Each text reads as its row says.
pub(crate) fn check(rt: &(impl Abort + AllocGlobal), cases: &[(&str, &str)]) {
    for (text, expected) in cases {
        let found = shown(rt, text.as_bytes());
        assert!(rt; found.as_str() == *expected, "{text}");
    }
}

/// A text of a front, a middle so many times, and an end.
pub(crate) fn repeated(
    rt: &(impl Abort + AllocGlobal),
    front: &str,
    middle: &str,
    times: usize,
    end: &str,
) -> String {
    let mut text = String::from_str(rt.alloc(), front).expect(rt, "room");
    for _ in 0..times {
        text.push_str(middle).expect(rt, "room");
    }
    text.push_str(end).expect(rt, "room");
    text
}
