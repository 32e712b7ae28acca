//! The metadata of a table with other keys.
ghost use Rattle.std.specs.Prelude.{◌≡◌, ◌<◌, ◌≤◌, ◌^◌, IfOk, Ok, map, true};
ghost use Rattle.serde_json.specs.Data.{depth};
ghost use Rattle.serde_json.specs.View.{view};
ghost use Rattle.icb_schema.specs.Names.{are_distinct};
ghost use Rattle.icb_meta.specs.Answers.{json_of, shown_of};
ghost use Rattle.icb_meta.specs.Shown.{fields_of};
ghost use Rattle.icb_edits.specs.Keys.{key_fields, key_sets, with_sets};

use crate::keys::entries_json;
use crate::old::{logged, members_in};
use crate::values::{made, put, put_str, put_time};
use icb_base::NoMemory;
use icb_meta::{KeyEntries, KeyEntry, TableMeta};
use icb_schema::Text;
use serde_json::Value;
use std::alloc::Global;

/// The metadata with these keys, and this master key, in place of its own. `previous` is where its text
/// is, which joins the log of metadata.
pub fn with_keys(
    alloc: Global,
    meta: &TableMeta,
    entries: KeyEntries,
    master: &Text,
    previous: &Text,
    now_ms: u64,
) -> Result<TableMeta, NoMemory>
    requires distinct { are_distinct (map (λ e. e.id) entries) ≡ true }
    requires time { now_ms < 2 ^ 63 }
    ensures json { IfOk result (λ new. json_of new ≡ with_sets (json_of meta.now)
        (key_sets (json_of meta.now) (shown_of meta.now).heading.updated entries master.now
        previous.now now_ms)) }
    ensures shown { IfOk result (λ new. shown_of new
        ≡ key_fields (shown_of meta.now) entries master.now now_ms) }
{
    let json = with_keys_json(alloc, meta, entries.as_slice(), master, previous, now_ms)?;
    made(alloc, json)
}

/// Its JSON, and the record that it shows.
fn with_keys_json(
    alloc: Global,
    meta: &TableMeta,
    entries: &[KeyEntry],
    master: &Text,
    previous: &Text,
    now_ms: u64,
) -> Result<Value, NoMemory>
    requires distinct { are_distinct (map (λ e. e.id) entries.now) ≡ true }
    requires time { now_ms < 2 ^ 63 }
    ensures json { IfOk result (λ json. view json ≡ with_sets (json_of meta.now)
        (key_sets (json_of meta.now) (shown_of meta.now).heading.updated entries.now master.now
        previous.now now_ms)) }
    ensures shown { IfOk result (λ json. fields_of (view json)
        ≡ Ok (key_fields (shown_of meta.now) entries.now master.now now_ms)) }
    ensures shallow { IfOk result (λ json. depth (view json) ≤ 127) }
{
    let json = meta.json();
    let log = logged(alloc, meta, previous)?;
    let mut properties = members_in(alloc, json, "properties")?;
    put_str(alloc, &mut properties, "encryption.key-id", master.as_str())?;
    let keys = entries_json(alloc, entries)?;
    let mut members = meta.members(alloc)?;
    put(alloc, &mut members, "properties", Value::Object(properties))?;
    put(alloc, &mut members, "encryption-keys", Value::Array(keys))?;
    put_time(alloc, &mut members, now_ms)?;
    put(alloc, &mut members, "metadata-log", log)?;
    Ok(Value::Object(members))
}
