//! The JSON of a table's schema.
ghost use Rattle.std.specs.Prelude.{◌≡◌, IfOk, OnOk, string_bytes};
ghost use Rattle.serde_json.specs.Data as json;
ghost use Rattle.serde_json.specs.Data.{put};
ghost use Rattle.serde_json.specs.View.{items_view, members_view, view};
ghost use Rattle.icb_columns.specs.Printed.{column_json, columns_json, schema_json, schema_text, type_word};

use icb_schema::{NoMemory, Text};
use icb_types::{ColType, Column, TableSchema};
use serde_json::{Map, Value};
use std::alloc::Global;

/// The text of a schema: compact JSON with the keys in the order of their bytes.
pub fn schema_text(alloc: Global, schema: &TableSchema) -> Result<Text, NoMemory>
    ensures { IfOk result (λ text. text ≡ schema_text schema.now) }
{
    let value = schema_json(alloc, schema)?;
    Ok(Text::from_string(value.to_string(alloc)?))
}

/// The JSON value of a schema.
#[tactic(auto, unfolding(crate::specs::Printed::schema_json))]
pub fn schema_json(alloc: Global, schema: &TableSchema) -> Result<Value, NoMemory>
    ensures { IfOk result (λ value. view value ≡ schema_json schema.now) }
{
    let columns = columns_json(alloc, schema.columns.as_slice())?;
    let mut members = Map::new(alloc);
    put(alloc, &mut members, "schema-id", Value::from(schema.id))?;
    put(alloc, &mut members, "fields", Value::Array(columns))?;
    let kind = Value::try_from_str(alloc, "struct")?;
    put(alloc, &mut members, "type", kind)?;
    Ok(Value::Object(members))
}

/// The JSON values of columns, in order.
fn columns_json(alloc: Global, columns: &[Column]) -> Result<Vec<Value>, NoMemory>
    ensures { IfOk result (λ values. items_view values.items ≡ columns_json columns.now) }
{
    let mut values = Vec::new(alloc);
    for column in columns {
        values.push(column_json(alloc, column)?)?;
    }
    Ok(values)
}

/// The JSON value of a column.
#[tactic(auto, unfolding(crate::specs::Printed::column_json))]
fn column_json(alloc: Global, column: &Column) -> Result<Value, NoMemory>
    ensures { IfOk result (λ value. view value ≡ column_json column.now) }
{
    let name = Value::try_from_str(alloc, column.name.as_str())?;
    let word = type_word(alloc, column.kind)?;
    let mut members = Map::new(alloc);
    put(alloc, &mut members, "id", Value::from(column.id))?;
    put(alloc, &mut members, "name", name)?;
    put(
        alloc,
        &mut members,
        "required",
        Value::from(column.required),
    )?;
    put(alloc, &mut members, "type", Value::String(word))?;
    Ok(Value::Object(members))
}

/// Adds a member.
fn put(
    alloc: Global,
    members: &mut Map<String, Value>,
    key: &str,
    value: Value,
) -> Result<(), NoMemory>
    ensures { OnOk result (members_view members.new.entries
        ≡ put key.now (view value) (members_view members.old.entries)) }
{
    serde_json::put(members, alloc, key, value)?;
    Ok(())
}

/// The word that names a type.
fn type_word(alloc: Global, kind: ColType) -> Result<String, NoMemory>
    ensures { IfOk result (λ word. string_bytes word ≡ type_word kind) }
{
    let word = match kind {
        ColType::Boolean => "boolean",
        ColType::Int => "int",
        ColType::Long => "long",
        ColType::Date => "date",
        ColType::Time => "time",
        ColType::Timestamp => "timestamp",
        ColType::TimestampTz => "timestamptz",
        ColType::Text => "string",
        ColType::Uuid => "uuid",
        ColType::Fixed(size) => return fixed_word(alloc, size),
        ColType::Binary => "binary",
    };
    Ok(String::from_str(alloc, word)?)
}

/// `fixed[N]`.
fn fixed_word(alloc: Global, size: u32) -> Result<String, NoMemory>
    ensures { IfOk result (λ word. string_bytes word ≡ type_word (ColType.Fixed size)) }
{
    let word = format!(in alloc; "fixed[{size}]")?;
    Ok(word)
}
