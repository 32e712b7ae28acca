//! Where the columns of a schema are among the fields of a file's records.
ghost use Rattle.std.specs.Prelude.{◌≡◌, ◌&&◌, ◌||◌, ℕ, IfOk, map, option_map};
ghost use Rattle.std.specs.List.{list_any};
ghost use Rattle.icb_schema.specs.Nodes.{fields_of, part_of, tree_of};
ghost use Rattle.icb_schema.specs.Shape.{Shape, fixed, primitive, shape_of, shapes_of, union};
ghost use Rattle.icb_schema.specs.Tree as tree;
ghost use Rattle.icb_rows.specs.Records.{field_of, file_fields, has_id, is_column_shape, is_kind_shape, is_null_shape};
ghost use Rattle.icb_rows.specs.Views.{Places, Projects, chosen, is_needed, passed, passed_from, placed_in};

use crate::fault::ProjectionFault;
use icb_schema::{AvroSchema, Field, Kind, NoMemory, Node};
use icb_types::{ColType, Column, TableSchema};
use sqlite_items::Items;
use std::alloc::Global;

/// A field of a file's records: how it is read, and whether its null is refused.
#[derive(Debug, Drop)]
pub(crate) struct Passed {
    pub(crate) node: Node,
    pub(crate) needs: bool,
}

/// A column: its kind, and which field it is.
#[derive(Clone, Copy, Debug)]
pub(crate) struct Placed {
    pub(crate) kind: ColType,
    pub(crate) required: bool,
    pub(crate) place: Option<usize>,
}

/// The columns of a schema among the fields of a file's records, found once.
#[derive(Debug, Drop)]
pub struct Projection {
    pub(crate) fields: Items<Passed>,
    pub(crate) columns: Items<Placed>,
}

impl Projection {
    /// The projection of the columns at these positions: the first of them is refused that is required and
    /// isn't in the file, or is there with another Avro type than its kind's.
    pub fn new(
        alloc: Global,
        file: &AvroSchema,
        schema: &TableSchema,
        columns: &[u32],
    ) -> Result<Projection, ProjectionFault>
        ensures { Projects result (chosen schema.now.columns columns.now)
            (file_fields (tree_of file.now)) }
    {
        let fields = fields_of(file.root());
        let columns = placed_columns(alloc, fields, schema.columns.as_slice(), columns)?;
        let fields = passed_fields(alloc, fields, columns.as_slice())?;
        Ok(Projection { fields, columns })
    }
}

/// The fields of a record, none of another type.
fn fields_of(node: &Node) -> &[Field]
    ensures { fields_of (map part_of result.now) ≡ file_fields (tree_of node.now) }
{
    match &node.kind {
        Kind::Null => &[],
        Kind::Boolean => &[],
        Kind::Int => &[],
        Kind::Long => &[],
        Kind::Float => &[],
        Kind::Double => &[],
        Kind::Bytes => &[],
        Kind::Text => &[],
        Kind::Fixed { name: _, size: _ } => &[],
        Kind::Enum {
            name: _,
            symbols: _,
        } => &[],
        Kind::Record { name: _, fields } => fields.as_slice(),
        Kind::Array {
            items: _,
            element: _,
        } => &[],
        Kind::Map {
            values: _,
            key: _,
            value: _,
        } => &[],
        Kind::Union { branches: _ } => &[],
    }
}

/// The columns at these positions among these fields.
fn placed_columns(
    alloc: Global,
    fields: &[Field],
    columns: &[Column],
    positions: &[u32],
) -> Result<Items<Placed>, ProjectionFault>
    ensures { Places result (chosen columns.now positions.now)
        (fields_of (map part_of fields.now)) }
{
    let mut placed = Items::new(alloc);
    for position in positions {
        if let Some(column) = columns.get(*position as usize) {
            match place(fields, column) {
                Some(found) => placed.push(found)?,
                None => {
                    return Err(ProjectionFault::Field { id: column.id });
                }
            }
        }
    }
    Ok(placed)
}

/// A column among these fields, where it has its type.
fn place(fields: &[Field], column: &Column) -> Option<Placed>
    ensures { result ≡ placed_in (fields_of (map part_of fields.now)) column.now }
{
    let (place, fits) = match field_of(column.id, fields) {
        Some((at, node)) => (Some(at), is_column_type(column.kind, node)),
        None => (None, !column.required),
    };
    if !fits {
        return None;
    }
    Some(Placed {
        kind: column.kind,
        required: column.required,
        place,
    })
}

/// The place and the type of the first field with this id.
fn field_of(id: i32, fields: &[Field]) -> Option<(usize, &Node)>
    ensures { option_map {U = ℕ × Shape} (λ f. (f.0, shape_of f.1.now)) result
        ≡ field_of id (fields_of (map part_of fields.now)) }
{
    for (at, field) in fields.iter().enumerate() {
        if has_id(id, field.id) {
            return Some((at, &field.node));
        }
    }
    None
}

/// Whether a field has this id.
fn has_id(id: i32, own: Option<i32>) -> bool
    ensures { result ≡ has_id id own }
{
    match own {
        Some(own) => own == id,
        None => false,
    }
}

/// Whether a type is that of a column of this kind: the kind's, or the union of null and it.
fn is_column_type(kind: ColType, node: &Node) -> bool
    ensures { result ≡ is_column_shape (shape_of node.now) kind }
{
    match &node.kind {
        Kind::Null => is_type(kind, node),
        Kind::Boolean => is_type(kind, node),
        Kind::Int => is_type(kind, node),
        Kind::Long => is_type(kind, node),
        Kind::Float => is_type(kind, node),
        Kind::Double => is_type(kind, node),
        Kind::Bytes => is_type(kind, node),
        Kind::Text => is_type(kind, node),
        Kind::Fixed { name: _, size: _ } => is_type(kind, node),
        Kind::Enum {
            name: _,
            symbols: _,
        } => is_type(kind, node),
        Kind::Record { name: _, fields: _ } => is_type(kind, node),
        Kind::Array {
            items: _,
            element: _,
        } => is_type(kind, node),
        Kind::Map {
            values: _,
            key: _,
            value: _,
        } => is_type(kind, node),
        Kind::Union { branches } => is_union_type(kind, branches.as_slice()),
    }
}

/// Whether branches are null and a kind's type, in either order.
fn is_union_type(kind: ColType, branches: &[Node]) -> bool
    ensures { result ≡ is_column_shape (union (shapes_of (map shape_of branches.now))) kind }
{
    if branches.len() != 2 {
        return false;
    }
    are_null_and_type(kind, &branches[0], &branches[1])
}

/// Whether one of two types is null, and the other a kind's.
fn are_null_and_type(kind: ColType, a: &Node, b: &Node) -> bool
    ensures { result ≡ ((is_null_shape (shape_of a.now) && is_kind_shape (shape_of b.now) kind)
        || (is_kind_shape (shape_of a.now) kind && is_null_shape (shape_of b.now))) }
{
    (is_null(a) & is_type(kind, b)) | (is_type(kind, a) & is_null(b))
}

/// Whether a type is null.
pub(crate) fn is_null(node: &Node) -> bool
    ensures { result ≡ is_null_shape (shape_of node.now) }
{
    match &node.kind {
        Kind::Null => true,
        Kind::Boolean => false,
        Kind::Int => false,
        Kind::Long => false,
        Kind::Float => false,
        Kind::Double => false,
        Kind::Bytes => false,
        Kind::Text => false,
        Kind::Fixed { name: _, size: _ } => false,
        Kind::Enum {
            name: _,
            symbols: _,
        } => false,
        Kind::Record { name: _, fields: _ } => false,
        Kind::Array {
            items: _,
            element: _,
        } => false,
        Kind::Map {
            values: _,
            key: _,
            value: _,
        } => false,
        Kind::Union { branches: _ } => false,
    }
}

/// Whether a type is a kind's, with its size.
fn is_type(kind: ColType, node: &Node) -> bool
    ensures { result ≡ is_kind_shape (shape_of node.now) kind }
{
    match &node.kind {
        Kind::Null => false,
        Kind::Boolean => is_of_boolean(kind),
        Kind::Int => is_of_int(kind),
        Kind::Long => is_of_long(kind),
        Kind::Float => false,
        Kind::Double => false,
        Kind::Bytes => is_of_bytes(kind),
        Kind::Text => is_of_text(kind),
        Kind::Fixed { name: _, size } => is_of_size(kind, *size),
        Kind::Enum {
            name: _,
            symbols: _,
        } => false,
        Kind::Record { name: _, fields: _ } => false,
        Kind::Array {
            items: _,
            element: _,
        } => false,
        Kind::Map {
            values: _,
            key: _,
            value: _,
        } => false,
        Kind::Union { branches: _ } => false,
    }
}

/// The fields of a file, each with whether its null is refused.
fn passed_fields(
    alloc: Global,
    fields: &[Field],
    columns: &[Placed],
) -> Result<Items<Passed>, NoMemory>
    ensures { IfOk result (λ list.
        map passed list ≡ passed_from 0 columns.now (fields_of (map part_of fields.now))) }
{
    let mut list = Items::new(alloc);
    for (at, field) in fields.iter().enumerate() {
        list.push(Passed {
            node: field.node.copy(alloc)?,
            needs: is_needed(at, columns),
        })?;
    }
    Ok(list)
}

/// Whether a required column is the field at this place.
fn is_needed(at: usize, columns: &[Placed]) -> bool
    ensures { result ≡ is_needed at columns.now }
{
    columns
        .iter()
        .any(|column| column.required && column.place == Some(at))
}

/// Whether the values of a kind are numbers of 32 bits.
fn is_of_int(kind: ColType) -> bool
    ensures { result ≡ is_kind_shape (primitive tree.int) kind }
{
    matches!(kind, ColType::Int | ColType::Date)
}

/// Whether the values of a kind are numbers of 64 bits.
fn is_of_long(kind: ColType) -> bool
    ensures { result ≡ is_kind_shape (primitive tree.long) kind }
{
    matches!(
        kind,
        ColType::Long | ColType::Time | ColType::Timestamp | ColType::TimestampTz
    )
}

/// Whether the values of a kind are so many bytes.
fn is_of_size(kind: ColType, size: u32) -> bool
    ensures { result ≡ is_kind_shape (fixed size) kind }
{
    match kind {
        ColType::Uuid => size == 16,
        ColType::Fixed(own) => size == own,
        _ => false,
    }
}

/// Whether the values of a kind are truth values.
fn is_of_boolean(kind: ColType) -> bool
    ensures { result ≡ is_kind_shape (primitive tree.boolean) kind }
{
    matches!(kind, ColType::Boolean)
}

/// Whether the values of a kind are bytes.
fn is_of_bytes(kind: ColType) -> bool
    ensures { result ≡ is_kind_shape (primitive tree.bytes) kind }
{
    matches!(kind, ColType::Binary)
}

/// Whether the values of a kind are texts.
fn is_of_text(kind: ColType) -> bool
    ensures { result ≡ is_kind_shape (primitive tree.text) kind }
{
    matches!(kind, ColType::Text)
}
