//! What the members of metadata held before an edit.
ghost use Rattle.std.specs.Prelude.{◌≡◌, IfOk, map, option_and_then, unwrap_or};
ghost use Rattle.serde_json.specs.Data.{no_items};
ghost use Rattle.serde_json.specs.Find.{as_array, get};
ghost use Rattle.serde_json.specs.View.{items_view, members_view, view};
ghost use Rattle.icb_meta.specs.Answers.{json_of, shown_of};
ghost use Rattle.icb_edits.specs.Keys.{elements, last_of, logged, members_in, version_json};
ghost use Rattle.icb_edits.specs.Values.{array_of};

use crate::values::{put_str, put_whole};
use icb_base::NoMemory;
use icb_meta::TableMeta;
use icb_schema::Text;
use serde_json::{Map, Value};
use std::alloc::Global;

/// How many versions the log of metadata keeps.
const MAX_LOG: usize = 100;

/// The elements of a member that is an array, none where it isn't one or isn't there.
pub(crate) fn elements(alloc: Global, object: &Value, name: &str) -> Result<Vec<Value>, NoMemory>
    ensures { IfOk result (λ values. map view values.items
        ≡ elements name.now (view object.now)) }
{
    array_in(alloc, object, name)
}

/// The items of such a member.
fn array_in(alloc: Global, object: &Value, name: &str) -> Result<Vec<Value>, NoMemory>
    ensures { IfOk result (λ values. items_view values.items
        ≡ unwrap_or (option_and_then as_array (get name.now (view object.now))) no_items) }
{
    let Some(member) = object.get(name) else {
        return Ok(Vec::new(alloc));
    };
    match member.clone()? {
        Value::Array(items) => Ok(items),
        _ => Ok(Vec::new(alloc)),
    }
}

/// The members of a member that is an object, none where it isn't one or isn't there.
pub(crate) fn members_in(
    alloc: Global,
    object: &Value,
    name: &str,
) -> Result<Map<String, Value>, NoMemory>
    ensures { IfOk result (λ members. members_view members.entries
        ≡ members_in name.now (view object.now)) }
{
    let Some(member) = object.get(name) else {
        return Ok(Map::new(alloc));
    };
    match member.clone()? {
        Value::Object(members) => Ok(members),
        _ => Ok(Map::new(alloc)),
    }
}

/// The log of metadata with this version, whose text is at this path, of which the last 100 are kept.
pub(crate) fn logged(alloc: Global, meta: &TableMeta, path: &Text) -> Result<Value, NoMemory>
    ensures { IfOk result (λ log. view log ≡ array_of (logged (json_of meta.now) path.now
        (shown_of meta.now).heading.updated)) }
{
    let mut versions = elements(alloc, meta.json(), "metadata-log")?;
    versions.push(version_json(alloc, meta, path)?)?;
    Ok(Value::Array(last_of(versions)?))
}

/// The last 100 values.
fn last_of(mut values: Vec<Value>) -> Result<Vec<Value>, NoMemory>
    ensures { IfOk result (λ last. map view last.items ≡ last_of 100 (map view values.items)) }
{
    let extra = values.len().saturating_sub(MAX_LOG);
    Ok(values.split_off(extra)?)
}

/// Where this version is, and when it was made.
#[tactic(auto, unfolding(crate::specs::Keys::version_json))]
fn version_json(alloc: Global, meta: &TableMeta, path: &Text) -> Result<Value, NoMemory>
    ensures { IfOk result (λ value. view value
        ≡ version_json path.now (shown_of meta.now).heading.updated) }
{
    let mut members = Map::new(alloc);
    put_str(alloc, &mut members, "metadata-file", path.as_str())?;
    put_whole(alloc, &mut members, "timestamp-ms", meta.last_updated())?;
    Ok(Value::Object(members))
}
