//! The schema that a header's properties say.
ghost use Rattle.std.specs.Prelude.{◌≡◌, List, None, Option, option_map};
ghost use Rattle.icb_schema.specs.Nodes.{tree_of};
ghost use Rattle.icb_schema.specs.Reading.{schema_of};
ghost use Rattle.icb_container.specs.Answers.{Gives};
ghost use Rattle.icb_container.specs.Header.{Property, is_row, plain, row_schema};
ghost use Rattle.icb_container.specs.Kept.{IsKept, schema_said, value_of};
ghost use Rattle.icb_container.specs.Known.{reader_fault};

use crate::fault::ContainerFault;
use crate::found::{Found, PropertyValue};
use crate::numbers::refuse;
use icb_avro::AvroCause;
use icb_schema::{AvroSchema, Kind, Node, SchemaFault, Text};
use std::alloc::Global;

/// The schema of the records, where the codec is `null`.
pub(crate) fn schema_in<F>(alloc: Global, found: Found) -> Result<AvroSchema, ContainerFault<F>>
    ensures gives { (ps : List Property) → IsKept found ps
        → Gives (λ s. tree_of s) result (schema_said ps) }
    ensures answers { reader_fault result ≡ None }
{
    let Found { schema, codec } = found;
    let Some(text) = schema else {
        return Err(ContainerFault::NotAvro);
    };
    check_codec(alloc, codec)?;
    read_row(alloc, text.bytes.as_slice())
}

/// The codec is `null`, or isn't said.
fn check_codec<F>(alloc: Global, codec: Option<PropertyValue>) -> Result<(), ContainerFault<F>>
    ensures gives { (p : Option Property) → codec ≡ option_map value_of p
        → Gives (λ done. done) result (plain p) }
    ensures answers { reader_fault result ≡ None }
{
    let Some(value) = codec else {
        return Ok(());
    };
    match str::from_utf8(value.bytes.as_slice()) {
        Ok("null") => Ok(()),
        Ok(name) => Err(ContainerFault::Codec {
            name: Text::from_str(alloc, name)?,
        }),
        Err(_) => Err(refuse(value.place, AvroCause::Utf8)),
    }
}

/// The schema of a text, which is a record that takes a byte.
fn read_row<F>(alloc: Global, text: &[u8]) -> Result<AvroSchema, ContainerFault<F>>
    ensures gives { Gives (λ s. tree_of s) result (row_schema (schema_of text.now)) }
    ensures answers { reader_fault result ≡ None }
{
    let schema = match AvroSchema::read(alloc, text) {
        Ok(schema) => schema,
        Err(SchemaFault::NoMemory) => return Err(ContainerFault::NoMemory),
        Err(fault) => return Err(ContainerFault::Schema(fault)),
    };
    if !is_row(schema.root()) {
        return Err(ContainerFault::Schema(SchemaFault::Shape { node: 0 }));
    }
    Ok(schema)
}

/// The node is a record that takes a byte.
fn is_row(node: &Node) -> bool
    ensures { result ≡ is_row (tree_of node.now) }
{
    match &node.kind {
        Kind::Record { name: _, fields: _ } => node.takes_bytes(),
        Kind::Null => false,
        Kind::Boolean => false,
        Kind::Int => false,
        Kind::Long => false,
        Kind::Float => false,
        Kind::Double => false,
        Kind::Bytes => false,
        Kind::Text => false,
        Kind::Fixed { name: _, size: _ } => false,
        Kind::Enum {
            name: _,
            symbols: _,
        } => false,
        Kind::Array {
            items: _,
            element: _,
        } => false,
        Kind::Map {
            values: _,
            key: _,
            value: _,
        } => false,
        Kind::Union { branches: _ } => false,
    }
}
