//! Maps whose keys are whole numbers: arrays of records of a key and a value.
ghost use Rattle.std.specs.Prelude.{◌≡◌};
ghost use Rattle.icb_schema.specs.Nodes.{form_of};
ghost use Rattle.icb_fields.specs.Answers.{Finds, Makes, row};
ghost use Rattle.icb_manifest.specs.Maps.{all_pairs, bytes_at, bytes_pair, has_bytes, has_longs, longs_at, long_pair, map_ids, maps_of};

use icb_avro::Value;
use icb_fields::{BadField, FieldFault, Record, has_bytes, has_int, has_long};
use icb_schema::{Node, Octets};
use sqlite_items::Items;
use std::alloc::Global;

/// The ids of a map, of its keys and of its values.
#[derive(Clone, Copy, Debug)]
pub(crate) struct MapIds {
    /// The id of the field.
    pub(crate) id: i32,
    /// The id of the keys.
    pub(crate) key: i32,
    /// The id of the values.
    pub(crate) value: i32,
}

/// The counts and bounds of a file's columns.
#[derive(Debug, Drop)]
pub(crate) struct Maps {
    /// How many values a column has.
    pub(crate) values: Items<(i32, i64)>,
    /// How many nulls a column has.
    pub(crate) nulls: Items<(i32, i64)>,
    /// Lower bounds.
    pub(crate) lower: Items<(i32, Octets)>,
    /// Upper bounds.
    pub(crate) upper: Items<(i32, Octets)>,
}

/// The counts and bounds that a record has. The first that isn't in its form is named.
pub(crate) fn maps_of(alloc: Global, from: &Record<'_>) -> Result<Maps, FieldFault>
    ensures { Makes result (maps_of (row from.now)) }
{
    let values = longs_at(alloc, from, map_ids(109, 119, 120))?;
    let nulls = longs_at(alloc, from, map_ids(110, 121, 122))?;
    let lower = bytes_at(alloc, from, map_ids(125, 126, 127))?;
    let upper = bytes_at(alloc, from, map_ids(128, 129, 130))?;
    Ok(Maps {
        values,
        nulls,
        lower,
        upper,
    })
}

/// The ids of a map, of its keys and of its values.
fn map_ids(id: i32, key: i32, value: i32) -> MapIds
    ensures { result ≡ map_ids id key value }
{
    MapIds { id, key, value }
}

/// The map of numbers with these ids, empty where it isn't there.
fn longs_at(alloc: Global, from: &Record<'_>, ids: MapIds) -> Result<Items<(i32, i64)>, FieldFault>
    ensures { Makes result (longs_at ids (row from.now)) }
{
    let Some((node, items)) = from.list(ids.id)? else {
        return Ok(Items::new(alloc));
    };
    if maps_to_longs(node, ids) {
        longs_in(alloc, node, items, ids)
    } else {
        Err(FieldFault::Field(BadField { id: ids.id }))
    }
}

/// Items of this type have whole numbers as keys, and whole numbers as values.
fn maps_to_longs(node: &Node, ids: MapIds) -> bool
    ensures { result ≡ has_longs ids (form_of node.now.kind) }
{
    has_int(node, ids.key) && has_long(node, ids.value)
}

/// The map of bytes with these ids, empty where it isn't there.
fn bytes_at(
    alloc: Global,
    from: &Record<'_>,
    ids: MapIds,
) -> Result<Items<(i32, Octets)>, FieldFault>
    ensures { Makes result (bytes_at ids (row from.now)) }
{
    let Some((node, items)) = from.list(ids.id)? else {
        return Ok(Items::new(alloc));
    };
    if maps_to_bytes(node, ids) {
        bytes_in(alloc, node, items, ids)
    } else {
        Err(FieldFault::Field(BadField { id: ids.id }))
    }
}

/// Items of this type have whole numbers as keys, and bytes as values.
fn maps_to_bytes(node: &Node, ids: MapIds) -> bool
    ensures { result ≡ has_bytes ids (form_of node.now.kind) }
{
    has_int(node, ids.key) && has_bytes(node, ids.value)
}

/// The keys and numbers that items of this type are, in order.
fn longs_in(
    alloc: Global,
    node: &Node,
    items: &[Value],
    ids: MapIds,
) -> Result<Items<(i32, i64)>, FieldFault>
    ensures { Makes result (all_pairs (long_pair ids) (form_of node.now.kind) items.now) }
{
    let mut pairs = Items::new(alloc);
    for item in items {
        pairs.push(long_pair(&Record::new(node, item), ids)?)?;
    }
    Ok(pairs)
}

/// The keys and bytes that items of this type are, in order.
fn bytes_in(
    alloc: Global,
    node: &Node,
    items: &[Value],
    ids: MapIds,
) -> Result<Items<(i32, Octets)>, FieldFault>
    ensures { Makes result (all_pairs (bytes_pair ids) (form_of node.now.kind) items.now) }
{
    let mut pairs = Items::new(alloc);
    for item in items {
        pairs.push(bytes_pair(alloc, &Record::new(node, item), ids)?)?;
    }
    Ok(pairs)
}

/// A key and its number.
#[tactic(auto, unfolding(crate::specs::Maps::long_pair))]
fn long_pair(from: &Record<'_>, ids: MapIds) -> Result<(i32, i64), BadField>
    ensures { Finds (λ pair. pair) result (long_pair ids (row from.now)) }
{
    let Ok(key) = from.needed_int(ids.key) else {
        return Err(BadField { id: ids.id });
    };
    let Ok(value) = from.needed_long(ids.value) else {
        return Err(BadField { id: ids.id });
    };
    Ok((key, value))
}

/// A key and its bytes.
#[tactic(auto, unfolding(crate::specs::Maps::bytes_pair))]
fn bytes_pair(alloc: Global, from: &Record<'_>, ids: MapIds) -> Result<(i32, Octets), FieldFault>
    ensures { Makes result (bytes_pair ids (row from.now)) }
{
    let Ok(key) = from.needed_int(ids.key) else {
        return Err(FieldFault::Field(BadField { id: ids.id }));
    };
    let Ok(value) = from.needed_bytes(ids.value) else {
        return Err(FieldFault::Field(BadField { id: ids.id }));
    };
    Ok((key, Octets::from_slice(alloc, value)?))
}
