//! Values from the front of the bytes.
ghost use Rattle.std.specs.Prelude.{◌≡◌, map};
ghost use Rattle.icb_schema.specs.Shape.{shape_of, shapes_of};
ghost use Rattle.icb_avro.specs.Answers.{Makes};
ghost use Rattle.icb_avro.specs.Reading.{all_blocks_at, branch_at, count_of, entry_at, fields_at, value_at};

use crate::blocks::Blocks;
use crate::fault::Stop;
use crate::leaves;
use crate::numbers::index_at;
use crate::parts::text_at;
use crate::value::Value;
use icb_schema::{Field, Kind, Node, Text};
use sqlite_items::{Boxed, Items};
use std::alloc::Global;

/// A value of the node.
#[cycle(making)]
pub(crate) fn value_at<'a>(
    alloc: Global,
    node: &Node,
    all: &'a [u8],
) -> Result<(Value, &'a [u8]), Stop>
    ensures { Makes (λ x. (x.0, x.1.now)) result (value_at (shape_of node.now) all.now) }
{
    match &node.kind {
        Kind::Null => Ok((Value::Null, all)),
        Kind::Boolean => leaves::boolean(all),
        Kind::Int => leaves::int(all),
        Kind::Long => leaves::long(all),
        Kind::Float => leaves::float(all),
        Kind::Double => leaves::double(all),
        Kind::Bytes => leaves::bytes(alloc, all),
        Kind::Text => leaves::text(alloc, all),
        Kind::Fixed { name: _, size } => leaves::fixed(alloc, *size, all),
        Kind::Enum { name: _, symbols } => leaves::symbol(symbols.as_slice().len(), all),
        Kind::Record { name: _, fields } => {
            let (values, rest) = fields_at(alloc, fields.as_slice(), all)?;
            Ok((Value::Record(values), rest))
        }
        Kind::Array { items, element: _ } => {
            let (items, rest) = items_at(alloc, items.get(), all)?;
            Ok((Value::Array(items), rest))
        }
        Kind::Map {
            values,
            key: _,
            value: _,
        } => {
            let (entries, rest) = entries_at(alloc, values.get(), all)?;
            Ok((Value::Map(entries), rest))
        }
        Kind::Union { branches } => {
            let branches = branches.as_slice();
            let (index, rest) = index_at(branches.len(), all)?;
            let (value, rest) = value_at(alloc, &branches[index as usize], rest)?;
            Ok((Value::Union(index, Boxed::new(alloc, value)?), rest))
        }
    }
}

/// A value for each field.
#[cycle(making)]
fn fields_at<'a>(
    alloc: Global,
    fields: &[Field],
    all: &'a [u8],
) -> Result<(Items<Value>, &'a [u8]), Stop>
    ensures { Makes (λ x. (x.0, x.1.now)) result
        (fields_at (shapes_of (map (λ f. shape_of f.node) fields.now)) all.now) }
{
    let mut values = Items::new(alloc);
    let mut rest = all;
    for field in fields {
        let (value, after) = value_at(alloc, &field.node, rest)?;
        values.push(value)?;
        rest = after;
    }
    Ok((values, rest))
}

/// The items of an array.
#[cycle(making)]
fn items_at<'a>(alloc: Global, node: &Node, all: &'a [u8]) -> Result<(Items<Value>, &'a [u8]), Stop>
    ensures { Makes (λ x. (x.0, x.1.now)) result
        (all_blocks_at (value_at (shape_of node.now)) all.now) }
{
    let mut items = Items::new(alloc);
    let mut walk = Blocks::begin(all)?;
    while walk.at_item {
        let (item, rest) = value_at(alloc, node, walk.rest)?;
        items.push(item)?;
        walk = walk.next(rest)?;
    }
    Ok((items, walk.rest))
}

/// The entries of a map.
#[cycle(making)]
fn entries_at<'a>(
    alloc: Global,
    node: &Node,
    all: &'a [u8],
) -> Result<(Items<(Text, Value)>, &'a [u8]), Stop>
    ensures { Makes (λ x. (x.0, x.1.now)) result
        (all_blocks_at (entry_at (value_at (shape_of node.now))) all.now) }
{
    let mut entries = Items::new(alloc);
    let mut walk = Blocks::begin(all)?;
    while walk.at_item {
        let (key, behind_key) = text_at(walk.rest)?;
        let (item, rest) = value_at(alloc, node, behind_key)?;
        entries.push((Text::from_str(alloc, key)?, item))?;
        walk = walk.next(rest)?;
    }
    Ok((entries, walk.rest))
}
