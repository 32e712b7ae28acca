//! The metadata of a new table.
ghost use Rattle.std.specs.Prelude.{◌≡◌, ◌<◌, ◌≤◌, ◌^◌, [], ◌∷◌, IfOk, Ok, OnOk, Some, codes, pos};
ghost use Rattle.serde_json.specs.Data as json;
ghost use Rattle.serde_json.specs.Data.{depth};
ghost use Rattle.serde_json.specs.View.{members_view, view};
ghost use Rattle.icb_columns.specs.Printed.{schema_json};
ghost use Rattle.icb_types.specs.Lines.{int_in, number_json, uuid_in, uuid_text};
ghost use Rattle.icb_meta.specs.Answers.{json_of, shown_of};
ghost use Rattle.icb_meta.specs.Forms.{entry_in};
ghost use Rattle.icb_meta.specs.Shown.{fields_of};
ghost use Rattle.icb_edits.specs.Sets.{object_of, set_all};
ghost use Rattle.icb_edits.specs.Tables.{IsNewTable, heading_sets, layout_sets, new_fields, last_id, new_json, order_json, state_sets};
ghost use Rattle.icb_edits.specs.Values.{array_of, entry_json, ordered};

use crate::columns::put_last_id;
use crate::keys::entry_json;
use crate::values::{array_of_one, made, put, put_small, put_str, put_time, texts_json};
use icb_base::NoMemory;
use icb_columns::schema_json;
use icb_meta::{KeyEntry, NewTable, TableMeta};
use icb_types::TableSchema;
use serde_json::{Map, Value};
use std::alloc::Global;
use uuid::Uuid;

/// The metadata of a new table, which has no snapshots and this one key.
pub fn new_table(
    alloc: Global,
    table: &NewTable,
    uuid: u128,
    entry: KeyEntry,
    now_ms: u64,
) -> Result<TableMeta, NoMemory>
    requires table { IsNewTable table.now }
    requires time { now_ms < 2 ^ 63 }
    ensures json { IfOk result (λ meta. json_of meta ≡ new_json table.now uuid entry now_ms) }
    ensures shown { IfOk result (λ meta. shown_of meta ≡ new_fields table.now uuid entry now_ms) }
{
    let json = new_json(alloc, table, uuid, &entry, now_ms)?;
    made(alloc, json)
}

/// The JSON of the metadata of a new table, and the record that it shows.
#[tactic(auto, unfolding(crate::specs::Tables::new_json))]
fn new_json(
    alloc: Global,
    table: &NewTable,
    uuid: u128,
    entry: &KeyEntry,
    now_ms: u64,
) -> Result<Value, NoMemory>
    requires table { IsNewTable table.now }
    requires time { now_ms < 2 ^ 63 }
    ensures json { IfOk result (λ json. view json ≡ new_json table.now uuid entry.now now_ms) }
    ensures shown { IfOk result (λ json. fields_of (view json)
        ≡ Ok (new_fields table.now uuid entry.now now_ms)) }
    ensures shallow { IfOk result (λ json. depth (view json) ≤ 127) }
{
    let mut members = Map::new(alloc);
    put_state(alloc, &mut members, table, entry)?;
    put_layout(alloc, &mut members, table)?;
    put_heading(alloc, &mut members, table, uuid, now_ms)?;
    Ok(Value::Object(members))
}

/// What the table is, and how far it has come.
fn put_heading(
    alloc: Global,
    members: &mut Map<String, Value>,
    table: &NewTable,
    uuid: u128,
    now_ms: u64,
) -> Result<(), NoMemory>
    requires time { now_ms < 2 ^ 63 }
    ensures last { OnOk result (int_in (number_json (last_id table.now.schema.columns))
        ≡ Some (last_id table.now.schema.columns)) }
    ensures uuid { OnOk result (uuid_in (json.string (uuid_text uuid)) ≡ Some uuid) }
    ensures sets { OnOk result (members_view members.new.entries
        ≡ set_all (heading_sets table.now uuid now_ms) (members_view members.old.entries)) }
{
    let uuid = uuid_json(alloc, uuid)?;
    put_small(alloc, members, "format-version", 3)?;
    put_last_id(alloc, members, table.schema.columns.as_slice())?;
    put_small(alloc, members, "last-sequence-number", 0)?;
    put_time(alloc, members, now_ms)?;
    put_str(alloc, members, "location", table.location.as_str())?;
    put(alloc, members, "table-uuid", uuid)?;
    Ok(())
}

/// The text of an identifier, with hyphens and in lower case.
fn uuid_json(alloc: Global, uuid: u128) -> Result<Value, NoMemory>
    ensures json { IfOk result (λ value. view value ≡ json.string (uuid_text uuid)) }
    ensures reads { IfOk result (λ value. uuid_in (view value) ≡ Some uuid) }
{
    let mut buffer = Uuid::encode_buffer();
    let text = Uuid::from_u128(uuid).hyphenated().encode_lower(&mut buffer);
    Ok(Value::try_from_str(alloc, text)?)
}

/// One schema, one partition spec and one sort order.
fn put_layout(
    alloc: Global,
    members: &mut Map<String, Value>,
    table: &NewTable,
) -> Result<(), NoMemory>
    ensures id { OnOk result (int_in (number_json table.now.schema.id)
        ≡ Some table.now.schema.id) }
    ensures sets { OnOk result (members_view members.new.entries
        ≡ set_all (layout_sets table.now) (members_view members.old.entries)) }
{
    let spec = array_of_one(alloc, order_json(alloc, "spec-id")?)?;
    let order = array_of_one(alloc, order_json(alloc, "order-id")?)?;
    put_schema(alloc, members, &table.schema)?;
    put_small(alloc, members, "default-sort-order-id", 0)?;
    put_small(alloc, members, "default-spec-id", 0)?;
    put_small(alloc, members, "last-partition-id", 999)?;
    put(alloc, members, "partition-specs", spec)?;
    put(alloc, members, "sort-orders", order)?;
    Ok(())
}

/// The one schema, which is the current one.
fn put_schema(
    alloc: Global,
    members: &mut Map<String, Value>,
    schema: &TableSchema,
) -> Result<(), NoMemory>
    ensures id { OnOk result (int_in (number_json schema.now.id) ≡ Some schema.now.id) }
    ensures sets { OnOk result (members_view members.new.entries ≡ json.put (codes "schemas")
        (array_of (schema_json schema.now ∷ [])) (json.put (codes "current-schema-id")
        (number_json schema.now.id) (members_view members.old.entries))) }
{
    let Ok(value) = schema_json(alloc, schema) else {
        return Err(NoMemory);
    };
    let schemas = array_of_one(alloc, value)?;
    put_small(alloc, members, "current-schema-id", schema.id)?;
    put(alloc, members, "schemas", schemas)?;
    Ok(())
}

/// A partition spec or a sort order without fields, whose id is 0 by this name.
fn order_json(alloc: Global, name: &str) -> Result<Value, NoMemory>
    ensures { IfOk result (λ value. view value ≡ order_json name.now) }
{
    let mut members = Map::new(alloc);
    put(alloc, &mut members, "fields", Value::Array(Vec::new(alloc)))?;
    put_small(alloc, &mut members, name, 0)?;
    Ok(Value::Object(members))
}

/// No snapshots, the properties and one sealed key.
fn put_state(
    alloc: Global,
    members: &mut Map<String, Value>,
    table: &NewTable,
    entry: &KeyEntry,
) -> Result<(), NoMemory>
    ensures sets { OnOk result (members_view members.new.entries
        ≡ set_all (state_sets table.now entry.now) (members_view members.old.entries)) }
    ensures entry { OnOk result (entry_in (entry_json entry.now) ≡ Some (ordered entry.now)) }
{
    let entries = array_of_one(alloc, entry_json(alloc, entry)?)?;
    let properties = texts_json(alloc, table.properties.as_slice())?;
    put(alloc, members, "encryption-keys", entries)?;
    put(alloc, members, "metadata-log", empty_array(alloc))?;
    put_small(alloc, members, "next-row-id", 0)?;
    put(alloc, members, "properties", properties)?;
    put(alloc, members, "refs", empty_object(alloc))?;
    put(alloc, members, "snapshot-log", empty_array(alloc))?;
    put(alloc, members, "snapshots", empty_array(alloc))?;
    Ok(())
}

/// An array of no values.
fn empty_array(alloc: Global) -> Value
    ensures { view result ≡ array_of [] }
{
    Value::Array(Vec::new(alloc))
}

/// An object of no members.
fn empty_object(alloc: Global) -> Value
    ensures { view result ≡ object_of [] }
{
    Value::Object(Map::new(alloc))
}
