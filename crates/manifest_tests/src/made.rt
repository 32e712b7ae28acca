//! Files that another writer may have made.
use icb_avro::{Value, encode};
use icb_container::{Block, write_container};
use icb_schema::{AvroSchema, Octets, Text};
use sqlite_items::Items;
use std::process::Abort;
use std::test::*;

/// What is done to a field.
#[derive(Clone, Copy, Debug, PartialEq, Eq)]
pub(crate) enum Change {
    /// It is left out.
    LeftOut,
    /// It is a truth value.
    OfAnotherType,
    /// Other fields stand around it: before it a record that has a field of its id, and one without an id
    /// that has a name of the table; behind it a second one of its id.
    AmongOthers,
}

/// A text.
pub(crate) fn text(rt: &(impl Abort + AllocGlobal), text: &str) -> Text {
    Text::from_str(rt.alloc(), text).expect(rt, "room")
}

/// Bytes.
pub(crate) fn bytes(rt: &(impl Abort + AllocGlobal), bytes: &[u8]) -> Octets {
    Octets::from_slice(rt.alloc(), bytes).expect(rt, "room")
}

/// Adds a field of this id, type and value, to which this is done, if anything.
pub(crate) fn add(
    rt: &(impl Abort + AllocGlobal),
    change: Option<Change>,
    id: i32,
    kind: &str,
    value: Value,
    fields: &mut Vec<String>,
    values: &mut Items<Value>,
) {
    match change {
        Some(Change::LeftOut) => {}
        Some(Change::OfAnotherType) => {
            fields.push(field(rt, id, "\"boolean\"")).expect(rt, "room");
            values.push(Value::Boolean(true)).expect(rt, "room");
        }
        Some(Change::AmongOthers) => {
            put_nested(rt, id, fields, values);
            put_truth(rt, "{\"name\":\"sequence_number\"", fields, values);
            fields.push(field(rt, id, kind)).expect(rt, "room");
            values.push(value).expect(rt, "room");
            let second = format!(in rt.alloc(); "{{\"name\":\"z\",\"field-id\":{id}");
            put_truth(rt, second.expect(rt, "room").as_str(), fields, values);
        }
        None => {
            fields.push(field(rt, id, kind)).expect(rt, "room");
            values.push(value).expect(rt, "room");
        }
    }
}

/// A field that is a truth value, whose JSON begins so.
fn put_truth(
    rt: &(impl Abort + AllocGlobal),
    head: &str,
    fields: &mut Vec<String>,
    values: &mut Items<Value>,
) {
    let field = format!(in rt.alloc(); "{head},\"type\":\"boolean\"}}");
    fields.push(field.expect(rt, "room")).expect(rt, "room");
    values.push(Value::Boolean(true)).expect(rt, "room");
}

/// A field of another id, a record whose own field has this one.
fn put_nested(
    rt: &(impl Abort + AllocGlobal),
    id: i32,
    fields: &mut Vec<String>,
    values: &mut Items<Value>,
) {
    let inner = record_text(rt, "inner", &[field(rt, id, "\"boolean\"")]);
    fields
        .push(field(rt, 9999, inner.as_str()))
        .expect(rt, "room");
    let mut nested = Items::new(rt.alloc());
    nested.push(Value::Boolean(true)).expect(rt, "room");
    values.push(Value::Record(nested)).expect(rt, "room");
}

/// The JSON of a field with this id and this type.
pub(crate) fn field(rt: &(impl Abort + AllocGlobal), id: i32, kind: &str) -> String {
    let alloc = rt.alloc();
    let name = format!(in alloc; "f{id}").expect(rt, "room");
    let id = format!(in alloc; "{id}").expect(rt, "room");
    let mut text = String::new(alloc);
    for part in [
        "{\"name\":\"",
        name.as_str(),
        "\",\"field-id\":",
        id.as_str(),
        ",\"type\":",
        kind,
        "}",
    ] {
        text.push_str(part).expect(rt, "room");
    }
    text
}

/// The JSON of a record of these fields.
pub(crate) fn record_text(
    rt: &(impl Abort + AllocGlobal),
    name: &str,
    fields: &[String],
) -> String {
    let mut text = String::new(rt.alloc());
    for part in ["{\"type\":\"record\",\"name\":\"", name, "\",\"fields\":["] {
        text.push_str(part).expect(rt, "room");
    }
    let mut comma = "";
    for field in fields {
        text.push_str(comma).expect(rt, "room");
        text.push_str(field.as_str()).expect(rt, "room");
        comma = ",";
    }
    text.push_str("]}").expect(rt, "room");
    text
}

/// A block of records.
pub(crate) fn block_of(
    rt: &(impl Abort + AllocGlobal),
    schema: &AvroSchema,
    records: &[Value],
) -> Block {
    let mut bytes = Octets::new(rt.alloc());
    for record in records {
        encode(schema.root(), record, &mut bytes).expect(rt, "room");
    }
    Block {
        first: 0,
        count: records.len() as u64,
        place: 0,
        bytes,
    }
}

/// A file of these blocks.
pub(crate) fn file_of(
    rt: &(impl Abort + AllocGlobal),
    schema: &AvroSchema,
    blocks: &[Block],
) -> Octets {
    write_container(rt.alloc(), schema, &[], &[7; 16], blocks).expect(rt, "room")
}

/// A file of one record, and the record's place.
pub(crate) fn file_of_one(
    rt: &(impl Abort + AllocGlobal),
    fields: &[String],
    values: Items<Value>,
) -> (Octets, u64) {
    let alloc = rt.alloc();
    let text = record_text(rt, "any", fields);
    let schema = AvroSchema::read(alloc, text.as_bytes()).expect(rt, "a schema");
    let block = block_of(rt, &schema, &[Value::Record(values)]);
    let behind = 16 + block.bytes.as_slice().len() as u64;
    let file = file_of(rt, &schema, &[block]);
    let place = (file.as_slice().len() as u64).saturating_sub(behind);
    (file, place)
}
