//! Schemas (Apache Iceberg Table Spec, "Schemas and Data Types").
ghost use Rattle.std.specs.Prelude.{◌≡◌, IfOk, codes, map, option_and_then, option_map};
ghost use Rattle.serde_json.specs.View.{view};
ghost use Rattle.icb_schema.specs.Reading.{all_read, needed, only_if};
ghost use Rattle.icb_types.specs.Columns.{is_id};
ghost use Rattle.icb_types.specs.Lines.{int_in};
ghost use Rattle.icb_meta.specs.Answers.{Shows};
ghost use Rattle.icb_meta.specs.Heads.{head_view};
ghost use Rattle.icb_meta.specs.Forms.{are_columns, column_in, schema_in, schema_named, schemas_in};
ghost use Rattle.icb_meta.specs.Shown.{chosen_by, member, or_field};

use crate::distinct::{have_distinct_ids, have_distinct_names};
use crate::fault::Refusal;
use crate::members::{is_unset, needed_bool, needed_int, needed_items, needed_text};
use icb_base::NoMemory;
use icb_schema::Text;
use icb_types::{ColType, Column, TableSchema, kind_of_word};
use serde_json::Value;
use sqlite_items::Items;
use std::alloc::Global;

/// The most columns of a table.
const MAX_COLUMNS: usize = 1000;

/// The current schema of the table, one of these.
pub(crate) fn current_schema(
    alloc: Global,
    object: &Value,
    schemas: &[TableSchema],
) -> Result<TableSchema, Refusal>
    ensures { Shows (λ schema. schema) result
        (member (chosen_by (λ id. schema_named id schemas.now)) (codes "current-schema-id")
        (view object.now)) }
{
    let refusal = Refusal::Field("current-schema-id");
    let id = needed_int(object, "current-schema-id").ok_or(refusal)?;
    let schema = schema_named(schemas, id).ok_or(refusal)?;
    Ok(copy_of(alloc, schema)?)
}

/// The schema of an id.
fn schema_named(schemas: &[TableSchema], id: i32) -> Option<&TableSchema>
    ensures { option_map (λ schema. schema.now) result ≡ schema_named id schemas.now }
{
    for schema in schemas {
        if schema.id == id {
            return Some(schema);
        }
    }
    None
}

/// A second schema of the same columns.
fn copy_of(alloc: Global, schema: &TableSchema) -> Result<TableSchema, icb_schema::NoMemory>
    ensures { IfOk result (λ copy. copy ≡ schema.now) }
{
    let columns = copies_of(alloc, schema.columns.as_slice())?;
    Ok(TableSchema {
        id: schema.id,
        columns,
    })
}

/// A second list of the same columns.
fn copies_of(alloc: Global, columns: &[Column]) -> Result<Items<Column>, icb_schema::NoMemory>
    ensures { IfOk result (λ copies. copies ≡ columns.now) }
{
    let mut copies = Items::new(alloc);
    for column in columns {
        let name = column.name.copy(alloc)?;
        copies.push(Column {
            id: column.id,
            name,
            kind: column.kind,
            required: column.required,
        })?;
    }
    Ok(copies)
}

/// The table's schemas, whose ids are distinct.
#[tactic(auto, unfolding(crate::specs::Forms::schemas_in))]
pub(crate) fn schemas_field(alloc: Global, object: &Value) -> Result<Vec<TableSchema>, Refusal>
    ensures { Shows (λ schemas. schemas.items) result
        (member schemas_in (codes "schemas") (view object.now)) }
{
    let Some(items) = needed_items(object, "schemas") else {
        return Err(Refusal::Field("schemas"));
    };
    let schemas = schemas_in(alloc, items)?;
    if have_distinct_ids(alloc, schemas.as_slice())? {
        Ok(schemas)
    } else {
        Err(Refusal::Field("schemas"))
    }
}

/// Values that are all schemas.
fn schemas_in(alloc: Global, items: &[Value]) -> Result<Vec<TableSchema>, Refusal>
    ensures { Shows (λ schemas. schemas.items) result
        (or_field (codes "schemas") (all_read schema_in (map view items.now))) }
{
    let mut schemas = Vec::new(alloc);
    for item in items {
        schemas.push(schema_in(alloc, item)?)?;
    }
    Ok(schemas)
}

/// A schema.
#[tactic(auto, unfolding(crate::specs::Forms::schema_in))]
fn schema_in(alloc: Global, value: &Value) -> Result<TableSchema, Refusal>
    ensures { Shows (λ schema. schema) result
        (or_field (codes "schemas") (schema_in (view value.now))) }
{
    let Some(id) = needed_int(value, "schema-id") else {
        return Err(Refusal::Field("schemas"));
    };
    let Some(items) = needed_items(value, "fields") else {
        return Err(Refusal::Field("schemas"));
    };
    let columns = columns_in(alloc, items)?;
    if are_columns(alloc, columns.as_slice())? {
        Ok(TableSchema { id, columns })
    } else {
        Err(Refusal::Field("schemas"))
    }
}

/// Values that are all columns.
fn columns_in(alloc: Global, items: &[Value]) -> Result<Items<Column>, Refusal>
    ensures { Shows (λ columns. columns) result
        (or_field (codes "schemas") (all_read column_in (map view items.now))) }
{
    let mut columns = Items::new(alloc);
    for item in items {
        columns.push(column_in(alloc, item)?)?;
    }
    Ok(columns)
}

/// A column.
#[tactic(auto, unfolding(crate::specs::Forms::column_in))]
fn column_in(alloc: Global, value: &Value) -> Result<Column, Refusal>
    ensures { Shows (λ column. column) result
        (or_field (codes "schemas") (column_in (view value.now))) }
{
    let Some(head) = head_in(value) else {
        return Err(Refusal::Field("schemas"));
    };
    let name = Text::from_str(alloc, head.name)?;
    Ok(Column {
        id: head.id,
        name,
        kind: head.kind,
        required: head.required,
    })
}

/// A column whose name is borrowed.
#[derive(Clone, Copy, Drop)]
pub(crate) struct Head<'v> {
    pub(crate) id: i32,
    pub(crate) name: &'v str,
    pub(crate) kind: ColType,
    pub(crate) required: bool,
}

/// The column that an object is.
#[tactic(auto, unfolding(crate::specs::Forms::column_in))]
fn head_in(value: &Value) -> Option<Head<'_>>
    ensures { option_map head_view result ≡ column_in (view value.now) }
{
    let id = id_in(value)?;
    let name = needed_text(value, "name")?;
    let kind = kind_of_word(needed_text(value, "type")?.as_bytes())?;
    let required = needed_bool(value, "required")?;
    if is_unset(value, "initial-default") && is_unset(value, "write-default") {
        Some(Head {
            id,
            name,
            kind,
            required,
        })
    } else {
        None
    }
}

/// The id of a column, which is above 0.
fn id_in(value: &Value) -> Option<i32>
    ensures { result
        ≡ option_and_then (only_if is_id) (needed int_in (codes "id") (view value.now)) }
{
    match needed_int(value, "id") {
        Some(id) if id > 0 => Some(id),
        _ => None,
    }
}

/// Whether columns are 1 to 1,000, and have distinct ids and names.
fn are_columns(alloc: Global, columns: &[Column]) -> Result<bool, NoMemory>
    ensures { IfOk result (λ answer. answer ≡ are_columns columns.now) }
{
    if columns.is_empty() || columns.len() > MAX_COLUMNS {
        return Ok(false);
    }
    Ok(have_distinct_ids(alloc, columns)? && have_distinct_names(alloc, columns)?)
}
