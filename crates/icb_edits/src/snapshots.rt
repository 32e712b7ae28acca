//! The JSON of a snapshot, and of what names the current one.
ghost use Rattle.std.specs.Prelude.{◌≡◌, ◌<◌, ◌^◌, [], ◌∷◌, ◌++◌, IfOk, OnOk, Some, codes, option_map};
ghost use Rattle.serde_json.specs.Data as json;
ghost use Rattle.serde_json.specs.View.{members_view, view};
ghost use Rattle.icb_schema.specs.Reading.{optional};
ghost use Rattle.icb_types.specs.Lines.{int_in, long_in, number_json};
ghost use Rattle.icb_meta.specs.Answers.{shown_of};
ghost use Rattle.icb_meta.specs.Forms.{snapshot_in};
ghost use Rattle.icb_edits.specs.Keys.{elements, members_in};
ghost use Rattle.icb_edits.specs.Snapshots.{HasRoom, branch_json, change_json, needed_members, next_of, number_sets, other_members, snapshot_json, taken};
ghost use Rattle.icb_edits.specs.Sets.{set_all};
ghost use Rattle.icb_edits.specs.Values.{array_of};

use crate::old::{elements, members_in};
use crate::values::{
    put, put_small_or_none, put_str, put_text_or_none, put_time, put_whole, put_whole_or_none,
    signed,
};
use icb_base::NoMemory;
use icb_meta::{Snapshot, TableMeta};
use serde_json::{Map, Value};
use std::alloc::Global;

/// A snapshot, which reads as it.
pub(crate) fn snapshot_json(alloc: Global, snapshot: &Snapshot) -> Result<Value, NoMemory>
    ensures json { IfOk result (λ value. view value ≡ snapshot_json snapshot.now) }
    ensures reads { IfOk result (λ value. snapshot_in (snapshot_json snapshot.now)
        ≡ Some snapshot.now) }
{
    let mut members = Map::new(alloc);
    put_others(alloc, &mut members, snapshot)?;
    put_needed(alloc, &mut members, snapshot)?;
    Ok(Value::Object(members))
}

/// The members of a snapshot that it needs.
fn put_needed(
    alloc: Global,
    members: &mut Map<String, Value>,
    snapshot: &Snapshot,
) -> Result<(), NoMemory>
    ensures sets { OnOk result (members_view members.new.entries
        ≡ set_all (needed_members snapshot.now) (members_view members.old.entries)) }
    ensures id { OnOk result (long_in (number_json snapshot.now.id) ≡ Some snapshot.now.id) }
    ensures sequence { OnOk result (long_in (number_json snapshot.now.sequence)
        ≡ Some snapshot.now.sequence) }
    ensures ms { OnOk result (long_in (number_json snapshot.now.ms) ≡ Some snapshot.now.ms) }
{
    let mut summary = Map::new(alloc);
    put_str(
        alloc,
        &mut summary,
        "operation",
        snapshot.operation.as_str(),
    )?;
    put_str(alloc, members, "manifest-list", snapshot.list.as_str())?;
    put_whole(alloc, members, "sequence-number", snapshot.sequence)?;
    put_whole(alloc, members, "snapshot-id", snapshot.id)?;
    put(alloc, members, "summary", Value::Object(summary))?;
    put_whole(alloc, members, "timestamp-ms", snapshot.ms)?;
    Ok(())
}

/// Those that it may have.
fn put_others(
    alloc: Global,
    members: &mut Map<String, Value>,
    snapshot: &Snapshot,
) -> Result<(), NoMemory>
    ensures sets { OnOk result (members_view members.new.entries
        ≡ set_all (other_members snapshot.now) (members_view members.old.entries)) }
    ensures parent { OnOk result (optional long_in (option_map number_json snapshot.now.parent)
        ≡ Some snapshot.now.parent) }
    ensures schema { OnOk result (optional int_in (option_map number_json snapshot.now.schema)
        ≡ Some snapshot.now.schema) }
    ensures first_row { OnOk result (optional long_in (option_map number_json
        snapshot.now.first_row) ≡ Some snapshot.now.first_row) }
    ensures added { OnOk result (optional long_in (option_map number_json snapshot.now.added)
        ≡ Some snapshot.now.added) }
{
    put_whole_or_none(alloc, members, "added-rows", snapshot.added)?;
    put_whole_or_none(alloc, members, "first-row-id", snapshot.first_row)?;
    put_text_or_none(alloc, members, "key-id", snapshot.key.as_ref())?;
    put_whole_or_none(alloc, members, "parent-snapshot-id", snapshot.parent)?;
    put_small_or_none(alloc, members, "schema-id", snapshot.schema)?;
    Ok(())
}

/// Which snapshot became the current one, and when.
#[tactic(auto, unfolding(crate::specs::Snapshots::change_json))]
pub(crate) fn change_json(
    alloc: Global,
    snapshot: &Snapshot,
    now_ms: u64,
) -> Result<Value, NoMemory>
    requires time { now_ms < 2 ^ 63 }
    ensures { IfOk result (λ value. view value ≡ change_json snapshot.now.id now_ms) }
{
    let mut members = Map::new(alloc);
    put_whole(alloc, &mut members, "snapshot-id", snapshot.id)?;
    put_whole(alloc, &mut members, "timestamp-ms", signed(now_ms))?;
    Ok(Value::Object(members))
}

/// The branches and tags, of which the main branch has this snapshot for its head.
#[tactic(auto, unfolding(crate::specs::Snapshots::branch_json))]
pub(crate) fn refs_json(
    alloc: Global,
    object: &Value,
    snapshot: &Snapshot,
) -> Result<Value, NoMemory>
    ensures { IfOk result (λ refs. view refs ≡ json.object (json.put (codes "main")
        (branch_json snapshot.now.id) (members_in (codes "refs") (view object.now)))) }
{
    let mut branch = Map::new(alloc);
    put_whole(alloc, &mut branch, "snapshot-id", snapshot.id)?;
    put_str(alloc, &mut branch, "type", "branch")?;
    let mut refs = members_in(alloc, object, "refs")?;
    put(alloc, &mut refs, "main", Value::Object(branch))?;
    Ok(Value::Object(refs))
}

/// The elements of a member, and one more.
pub(crate) fn pushed(
    alloc: Global,
    object: &Value,
    name: &str,
    value: Value,
) -> Result<Value, NoMemory>
    ensures { IfOk result (λ array. view array
        ≡ array_of (elements name.now (view object.now) ++ view value ∷ [])) }
{
    let mut values = elements(alloc, object, name)?;
    values.push(value)?;
    Ok(Value::Array(values))
}

/// The members that are numbers, and what they read as.
pub(crate) fn put_numbers(
    alloc: Global,
    members: &mut Map<String, Value>,
    meta: &TableMeta,
    snapshot: &Snapshot,
    now_ms: u64,
) -> Result<(), NoMemory>
    requires room { HasRoom (shown_of meta.now) snapshot.now }
    requires time { now_ms < 2 ^ 63 }
    ensures id { OnOk result (long_in (number_json snapshot.now.id) ≡ Some snapshot.now.id) }
    ensures sequence { OnOk result (long_in (number_json snapshot.now.sequence)
        ≡ Some snapshot.now.sequence) }
    ensures next { OnOk result (long_in (number_json (next_of (shown_of meta.now) snapshot.now))
        ≡ Some (next_of (shown_of meta.now) snapshot.now)) }
    ensures sets { OnOk result (members_view members.new.entries ≡ set_all
        (number_sets (shown_of meta.now) snapshot.now now_ms)
        (members_view members.old.entries)) }
{
    put_whole(alloc, members, "current-snapshot-id", snapshot.id)?;
    put_whole(alloc, members, "last-sequence-number", snapshot.sequence)?;
    put_time(alloc, members, now_ms)?;
    put_whole(alloc, members, "next-row-id", next_of(meta, snapshot))?;
    Ok(())
}

/// The id of the next row behind those of a snapshot.
fn next_of(meta: &TableMeta, snapshot: &Snapshot) -> i64
    requires { HasRoom (shown_of meta.now) snapshot.now }
    ensures { result ≡ next_of (shown_of meta.now) snapshot.now }
{
    meta.next_row_id() + taken(snapshot)
}

/// How many row ids a snapshot takes.
fn taken(snapshot: &Snapshot) -> i64
    ensures { result ≡ taken snapshot.now }
{
    snapshot.added.unwrap_or(0)
}
