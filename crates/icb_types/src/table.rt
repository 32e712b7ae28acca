//! The Avro schema of a table's rows.
ghost use Rattle.std.specs.Prelude.{◌≡◌, IfOk, map, true};
ghost use Rattle.icb_schema.specs.Nodes.{form_of, part_of, tree_of};
ghost use Rattle.icb_schema.specs.Rules.{has_distinct_names};
ghost use Rattle.icb_schema.specs.Tree as tree;
ghost use Rattle.icb_types.specs.Columns.{AreColumns};
ghost use Rattle.icb_types.specs.Table.{bare, column_part, column_tree, kind_tree, logical, or_null, table_tree, timestamp, type_name};

use crate::columns::{ColType, Column, TableSchema};
use icb_schema::{AvroSchema, Field, Kind, NoMemory, Node, Text};
use sqlite_items::Items;
use std::alloc::Global;

impl TableSchema {
    /// The Avro schema of the rows of a table with these columns: the record `table`.
    pub fn avro_schema(&self, alloc: Global) -> Result<AvroSchema, NoMemory>
        requires { AreColumns self.now.columns }
        ensures tree { IfOk result (λ schema. tree_of schema ≡ table_tree self.now.columns) }
        ensures names { IfOk result (λ schema. has_distinct_names (tree_of schema) ≡ true) }
    {
        Ok(AvroSchema::new(table_node(alloc, self.columns.as_slice())?))
    }
}

/// The record `table`.
fn table_node(alloc: Global, columns: &[Column]) -> Result<Node, NoMemory>
    ensures { IfOk result (λ node. tree_of node ≡ table_tree columns.now) }
{
    let fields = column_fields(alloc, columns)?;
    let name = Text::from_str(alloc, "table")?;
    Ok(bare(Kind::Record { name, fields }))
}

/// A field for each column.
fn column_fields(alloc: Global, columns: &[Column]) -> Result<Items<Field>, NoMemory>
    ensures { IfOk result (λ fields. map part_of fields ≡ map column_part columns.now) }
{
    let mut fields = Items::new(alloc);
    for column in columns {
        fields.push(column_field(alloc, column)?)?;
    }
    Ok(fields)
}

/// The field of a column.
fn column_field(alloc: Global, column: &Column) -> Result<Field, NoMemory>
    ensures { IfOk result (λ field. part_of field ≡ column_part column.now) }
{
    Ok(Field {
        name: column.name.copy(alloc)?,
        id: Some(column.id),
        node: column_node(alloc, column)?,
    })
}

/// The type of a column, which may be null where it isn't required.
fn column_node(alloc: Global, column: &Column) -> Result<Node, NoMemory>
    ensures { IfOk result (λ node. tree_of node ≡ column_tree column.now) }
{
    let node = kind_node(alloc, column.id, column.kind)?;
    if column.required {
        Ok(node)
    } else {
        or_null(alloc, node)
    }
}

/// Null, or a value of this type.
fn or_null(alloc: Global, node: Node) -> Result<Node, NoMemory>
    ensures { IfOk result (λ union. tree_of union ≡ or_null (tree_of node)) }
{
    let mut branches = Items::new(alloc);
    branches.push(bare(Kind::Null))?;
    branches.push(node)?;
    Ok(bare(Kind::Union { branches }))
}

/// The type of a column's values.
#[tactic(auto, using(crate::proofs::TableLemmas::kind_forms))]
fn kind_node(alloc: Global, id: i32, kind: ColType) -> Result<Node, NoMemory>
    ensures { IfOk result (λ node. tree_of node ≡ kind_tree id kind) }
{
    match kind {
        ColType::Boolean => Ok(bare(Kind::Boolean)),
        ColType::Int => Ok(bare(Kind::Int)),
        ColType::Long => Ok(bare(Kind::Long)),
        ColType::Date => logical(alloc, Kind::Int, "date"),
        ColType::Time => logical(alloc, Kind::Long, "time-micros"),
        ColType::Timestamp => timestamp(alloc, false),
        ColType::TimestampTz => timestamp(alloc, true),
        ColType::Text => Ok(bare(Kind::Text)),
        ColType::Uuid => logical(alloc, fixed(alloc, "uuid_fixed_", id, 16)?, "uuid"),
        ColType::Fixed(size) => Ok(bare(fixed(alloc, "fixed_", id, size)?)),
        ColType::Binary => Ok(bare(Kind::Bytes)),
    }
}

/// A node without attributes.
fn bare(kind: Kind) -> Node
    ensures { tree_of result ≡ bare (form_of kind) }
{
    Node {
        kind,
        logical: None,
        utc: None,
    }
}

/// A node with a logical type.
fn logical(alloc: Global, kind: Kind, name: &str) -> Result<Node, NoMemory>
    ensures { IfOk result (λ node. tree_of node ≡ logical (form_of kind) name.now) }
{
    Ok(Node {
        kind,
        logical: Some(Text::from_str(alloc, name)?),
        utc: None,
    })
}

/// A timestamp, and whether it is in UTC.
fn timestamp(alloc: Global, utc: bool) -> Result<Node, NoMemory>
    ensures { IfOk result (λ node. tree_of node ≡ timestamp utc) }
{
    Ok(Node {
        kind: Kind::Long,
        logical: Some(Text::from_str(alloc, "timestamp-micros")?),
        utc: Some(utc),
    })
}

/// A type of so many bytes, named by a word and a column's id.
fn fixed(alloc: Global, word: &str, id: i32, size: u32) -> Result<Kind, NoMemory>
    ensures { IfOk result (λ kind. form_of kind ≡ tree.fixed (type_name word.now id) size) }
{
    let name = format!(in alloc; "{word}{id}")?;
    Ok(Kind::Fixed {
        name: Text::from_string(name),
        size,
    })
}
