//! Passing over a value without making it.
ghost use Rattle.std.specs.Prelude.{◌≡◌, map, Ok, Err, MatchResult};
ghost use Rattle.icb_schema.specs.Shape.{shape_of, shapes_of};
ghost use Rattle.icb_avro.specs.Answers.{Gives};
ghost use Rattle.icb_avro.specs.Reading.{all_blocks_at, behind, entry_at, fields_at, value_at};

use crate::blocks::Blocks;
use crate::fault::Refusal;
use crate::numbers::{index_at, int_at, long_at};
use crate::parts::{boolean_at, bytes_at, part_at, text_at};
use icb_schema::{Field, Kind, Node};

/// The bytes behind a value.
#[cycle(skip)]
pub(crate) fn skip_at<'a>(node: &Node, all: &'a [u8]) -> Result<&'a [u8], Refusal>
    ensures { Gives (λ rest. rest.now) result (behind (value_at (shape_of node.now) all.now)) }
{
    match &node.kind {
        Kind::Null => Ok(all),
        Kind::Boolean => behind(boolean_at(all)),
        Kind::Int => behind(int_at(all)),
        Kind::Long => behind(long_at(all)),
        Kind::Float => behind(part_at(4, all, all)),
        Kind::Double => behind(part_at(8, all, all)),
        Kind::Bytes => behind(bytes_at(all)),
        Kind::Text => behind(text_at(all)),
        Kind::Fixed { name: _, size } => behind(part_at(u64::from(*size), all, all)),
        Kind::Enum { name: _, symbols } => behind(index_at(symbols.as_slice().len(), all)),
        Kind::Record { name: _, fields } => skip_fields(fields.as_slice(), all),
        Kind::Array { items, element: _ } => skip_items(items.get(), all),
        Kind::Map {
            values,
            key: _,
            value: _,
        } => skip_entries(values.get(), all),
        Kind::Union { branches } => {
            let branches = branches.as_slice();
            let (index, rest) = index_at(branches.len(), all)?;
            skip_at(&branches[index as usize], rest)
        }
    }
}

/// The bytes behind what is read.
fn behind<'a, T: Drop>(read: Result<(T, &'a [u8]), Refusal>) -> Result<&'a [u8], Refusal>
    ensures { MatchResult read.entry (λ x. result ≡ Ok x.1) (λ e. result ≡ Err e) }
{
    match read {
        Ok((_, rest)) => Ok(rest),
        Err(refusal) => Err(refusal),
    }
}

/// The bytes behind a record's values.
#[cycle(skip)]
fn skip_fields<'a>(fields: &[Field], all: &'a [u8]) -> Result<&'a [u8], Refusal>
    ensures { Gives (λ rest. rest.now) result
        (behind (fields_at (shapes_of (map (λ f. shape_of f.node) fields.now)) all.now)) }
{
    let mut rest = all;
    for field in fields {
        rest = skip_at(&field.node, rest)?;
    }
    Ok(rest)
}

/// The bytes behind an array's items.
#[cycle(skip)]
fn skip_items<'a>(node: &Node, all: &'a [u8]) -> Result<&'a [u8], Refusal>
    ensures { Gives (λ rest. rest.now) result
        (behind (all_blocks_at (value_at (shape_of node.now)) all.now)) }
{
    let mut walk = Blocks::begin(all)?;
    while walk.at_item {
        let rest = skip_at(node, walk.rest)?;
        walk = walk.next(rest)?;
    }
    Ok(walk.rest)
}

/// The bytes behind a map's entries.
#[cycle(skip)]
fn skip_entries<'a>(node: &Node, all: &'a [u8]) -> Result<&'a [u8], Refusal>
    ensures { Gives (λ rest. rest.now) result
        (behind (all_blocks_at (entry_at (value_at (shape_of node.now))) all.now)) }
{
    let mut walk = Blocks::begin(all)?;
    while walk.at_item {
        let (_, value) = text_at(walk.rest)?;
        let rest = skip_at(node, value)?;
        walk = walk.next(rest)?;
    }
    Ok(walk.rest)
}
