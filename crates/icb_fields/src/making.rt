//! The schemas and the values of records that are written.
ghost use Rattle.std.specs.Prelude.{◌≡◌, map, option_map, string_bytes, IfOk, None, Some};
ghost use Rattle.icb_schema.specs.Nodes.{fields_of, form_of, part_of, tree_of};
ghost use Rattle.icb_avro.specs.declared.value.Value.TheVariants as value;
ghost use Rattle.icb_fields.specs.Making.{bare, optional, or_null, pair_name, pairs_tree, record_tree, slot_part, written_tree};

use icb_avro::Value;
use icb_schema::{Field, Kind, NoMemory, Node, Octets, Text};
use sqlite_items::{Boxed, Items};
use std::alloc::Global;

/// The type of a field that is written.
#[derive(Clone, Copy, Debug)]
pub enum Written {
    /// A whole number of 32 bits.
    Int,
    /// A whole number of 64 bits.
    Long,
    /// A text.
    Text,
    /// Null, or a whole number of 64 bits.
    LongOrNull,
    /// Null, or bytes.
    BytesOrNull,
    /// Null, or a map from whole numbers of 32 bits to those of 64, with the ids of key and value.
    LongsByInt(i32, i32),
    /// Null, or a map from whole numbers of 32 bits to bytes, with the ids of key and value.
    BytesByInt(i32, i32),
}

/// A field that is written: its name, its id and its type.
pub type Slot<'a> = (&'a str, i32, Written);

/// The fields of these slots, in order.
pub fn slot_fields(alloc: Global, slots: &[Slot<'_>]) -> Result<Items<Field>, NoMemory>
    ensures { IfOk result (λ fields. map part_of fields ≡ map slot_part slots.now) }
{
    let mut fields = Items::new(alloc);
    for slot in slots {
        let node = written_node(alloc, &slot.2)?;
        fields.push(field(alloc, slot.0, &slot.1, node)?)?;
    }
    Ok(fields)
}

/// A record of these fields.
pub fn record_node(alloc: Global, name: &str, fields: Items<Field>) -> Result<Node, NoMemory>
    ensures { IfOk result (λ node. tree_of node ≡ record_tree name.now (map part_of fields)) }
{
    let name = Text::from_str(alloc, name)?;
    Ok(bare(Kind::Record { name, fields }))
}

/// A field with its id.
pub fn field(alloc: Global, name: &str, id: &i32, node: Node) -> Result<Field, NoMemory>
    ensures { IfOk result (λ field. part_of field ≡ (name.now, Some id.now, tree_of node)) }
{
    Ok(Field {
        name: Text::from_str(alloc, name)?,
        id: Some(*id),
        node,
    })
}

/// The type of a field that is written.
#[tactic(auto, using(crate::proofs::KindLemmas::leaf_forms))]
fn written_node(alloc: Global, written: &Written) -> Result<Node, NoMemory>
    ensures { IfOk result (λ node. tree_of node ≡ written_tree written.now) }
{
    match written {
        Written::Int => Ok(bare(Kind::Int)),
        Written::Long => Ok(bare(Kind::Long)),
        Written::Text => Ok(bare(Kind::Text)),
        Written::LongOrNull => or_null(alloc, bare(Kind::Long)),
        Written::BytesOrNull => or_null(alloc, bare(Kind::Bytes)),
        Written::LongsByInt(key, value) => {
            or_null(alloc, pairs_node(alloc, key, value, bare(Kind::Long))?)
        }
        Written::BytesByInt(key, value) => {
            or_null(alloc, pairs_node(alloc, key, value, bare(Kind::Bytes))?)
        }
    }
}

/// A map whose keys are whole numbers of 32 bits, with the ids of key and value.
fn pairs_node(alloc: Global, key: &i32, value: &i32, node: Node) -> Result<Node, NoMemory>
    ensures { IfOk result (λ map. tree_of map ≡ pairs_tree key.now value.now (tree_of node)) }
{
    let mut fields = Items::new(alloc);
    fields.push(field(alloc, "key", key, bare(Kind::Int))?)?;
    fields.push(field(alloc, "value", value, node)?)?;
    let name = pair_name(alloc, key, value)?;
    let items = Boxed::new(alloc, record_node(alloc, name.as_str(), fields)?)?;
    Ok(Node {
        kind: Kind::Array {
            items,
            element: None,
        },
        logical: Some(Text::from_str(alloc, "map")?),
        utc: None,
    })
}

/// The name of the record of a key and a value.
fn pair_name(alloc: Global, key: &i32, value: &i32) -> Result<String, NoMemory>
    ensures { IfOk result (λ name. string_bytes name ≡ pair_name key.now value.now) }
{
    let (key, value) = (*key, *value);
    let name = format!(in alloc; "k{key}_v{value}")?;
    Ok(name)
}

/// Null, or a value of this type.
fn or_null(alloc: Global, node: Node) -> Result<Node, NoMemory>
    ensures { IfOk result (λ union. tree_of union ≡ or_null (tree_of node)) }
{
    let mut branches = Items::new(alloc);
    branches.push(bare(Kind::Null))?;
    branches.push(node)?;
    Ok(bare(Kind::Union { branches }))
}

/// A node without attributes.
fn bare(kind: Kind) -> Node
    ensures { tree_of result ≡ bare (form_of kind) }
{
    Node {
        kind,
        logical: None,
        utc: None,
    }
}

/// Null, or a number.
pub fn long_or_null(alloc: Global, number: Option<i64>) -> Result<Value, NoMemory>
    ensures { IfOk result (λ v. v ≡ optional (option_map value.Long number)) }
{
    match number {
        None => null(alloc),
        Some(number) => not_null(alloc, Value::Long(number)),
    }
}

/// Null, or bytes.
pub fn bytes_or_null(alloc: Global, bytes: &Option<Octets>) -> Result<Value, NoMemory>
    ensures { IfOk result (λ v. v ≡ optional (option_map value.Bytes bytes.now)) }
{
    match bytes {
        None => null(alloc),
        Some(bytes) => not_null(alloc, Value::Bytes(bytes.copy(alloc)?)),
    }
}

/// Null in place of a value that may be null.
fn null(alloc: Global) -> Result<Value, NoMemory>
    ensures { IfOk result (λ v. v ≡ optional None) }
{
    Ok(Value::Union(0, Boxed::new(alloc, Value::Null)?))
}

/// A value that may be null and isn't.
pub fn not_null(alloc: Global, value: Value) -> Result<Value, NoMemory>
    ensures { IfOk result (λ v. v ≡ optional (Some value)) }
{
    Ok(Value::Union(1, Boxed::new(alloc, value)?))
}
