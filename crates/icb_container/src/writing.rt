//! Writing a container.
ghost use Rattle.std.specs.Prelude.{◌≡◌, ◌++◌, List, Ok, pos, map, length, IfOk, OnOk};
ghost use Rattle.std.specs.List.{flat_map};
ghost use Rattle.icb_avro.specs.Writing.{one_block, written_bytes, written_long};
ghost use Rattle.icb_schema.specs.Nodes.{tree_of};
ghost use Rattle.icb_schema.specs.Printing.{text_of};
ghost use Rattle.icb_avro.specs.declared.value.Value.{Value};
ghost use Rattle.icb_container.specs.Content.{content_of};
ghost use Rattle.icb_container.specs.Input.{IsInput, content_given};
ghost use Rattle.icb_container.specs.Sorted.{pairs};
ghost use Rattle.icb_container.specs.Written.{written_block, written_container, written_property};

use crate::block::Block;
use crate::properties::{Property, sorted};
use icb_avro::{Value, encode};
use icb_schema::{AvroSchema, NoMemory, Node, Octets, Text};
use std::alloc::Global;

/// The container of this schema with these properties beside the schema and the codec, this marker,
/// and these blocks, of which the count and the bytes are looked at. Its bytes follow from these, and
/// they are read again as the schema, the properties and the blocks' records where these are so many
/// records of the schema within the limits.
pub fn write_container(
    alloc: Global,
    schema: &AvroSchema,
    extra: &[(Text, Octets)],
    sync: &[u8; 16],
    blocks: &[Block],
) -> Result<Octets, NoMemory>
    ensures bytes { IfOk result (λ file. file ≡ written_container (text_of (tree_of schema.now))
        extra.now sync.now blocks.now) }
    ensures content { IfOk result (λ file. (records : List (List Value))
        → IsInput (tree_of schema.now) extra.now sync.now blocks.now records
        → content_of file ≡ Ok (content_given (tree_of schema.now) extra.now records)) }
{
    let text = schema.print(alloc)?;
    let properties = sorted(alloc, &text, extra)?;
    let node = schema.root();
    let mut out = Octets::from_slice(alloc, b"Obj\x01")?;
    put_map(node, properties.as_slice(), &mut out)?;
    out.extend_from_slice(sync)?;
    put_blocks(node, sync, blocks, &mut out)?;
    Ok(out)
}

/// Appends properties in one block.
fn put_map(node: &Node, properties: &[Property<'_>], out: &mut Octets) -> Result<(), NoMemory>
    ensures { OnOk result (out.new
        ≡ out.old ++ one_block (map written_property (pairs properties.now))) }
{
    if properties.is_empty() {
        return out.push(0);
    }
    put_count(node, properties.len() as u64, out)?;
    put_properties(node, properties, out)?;
    out.push(0)
}

/// Appends properties, one after another.
fn put_properties(node: &Node, list: &[Property<'_>], out: &mut Octets) -> Result<(), NoMemory>
    ensures { OnOk result (out.new
        ≡ out.old ++ flat_map (λ x. x) (map written_property (pairs list.now))) }
{
    for property in list {
        put_property(node, property, out)?;
    }
    Ok(())
}

/// Appends a key and its value.
fn put_property(node: &Node, property: &Property<'_>, out: &mut Octets) -> Result<(), NoMemory>
    ensures { OnOk result (out.new
        ≡ out.old ++ written_property (property.now.key.now, property.now.value.now)) }
{
    put_bytes(node, property.key.as_bytes(), out)?;
    put_bytes(node, property.value, out)
}

/// Appends blocks, one after another.
fn put_blocks(node: &Node, sync: &[u8], blocks: &[Block], out: &mut Octets) -> Result<(), NoMemory>
    ensures { OnOk result (out.new ≡ out.old ++ flat_map (written_block sync.now) blocks.now) }
{
    for block in blocks {
        put_count(node, block.count, out)?;
        put_bytes(node, block.bytes.as_slice(), out)?;
        out.extend_from_slice(sync)?;
    }
    Ok(())
}

/// Appends the number of the bytes, and the bytes.
fn put_bytes(node: &Node, bytes: &[u8], out: &mut Octets) -> Result<(), NoMemory>
    ensures { OnOk result (out.new ≡ out.old ++ written_bytes bytes.now) }
{
    put_count(node, bytes.len() as u64, out)?;
    out.extend_from_slice(bytes)
}

/// Appends a number, which follows from the number alone. A number above the greatest one of Avro
/// counts more than memory holds.
fn put_count(node: &Node, count: u64, out: &mut Octets) -> Result<(), NoMemory>
    ensures { OnOk result (out.new ≡ out.old ++ written_long (pos count)) }
{
    let Ok(number) = i64::try_from(count) else {
        return Err(NoMemory);
    };
    encode(node, &Value::Long(number), out)
}
