//! Snapshots (Apache Iceberg Table Spec, "Snapshots").
ghost use Rattle.std.specs.Prelude.{◌≡◌, [], None, codes, map};
ghost use Rattle.serde_json.specs.View.{view};
ghost use Rattle.icb_schema.specs.Reading.{all_read};
ghost use Rattle.icb_meta.specs.Answers.{Shows};
ghost use Rattle.icb_meta.specs.Forms.{current_id, current_in, snapshot_in, snapshots_in};
ghost use Rattle.icb_meta.specs.Shown.{member_or, or_field};

use crate::distinct::have_distinct_ids;
use crate::fault::Refusal;
use crate::lookup::snapshot_named;
use crate::members::{
    items_in, needed_long, needed_text, optional_int, optional_long, optional_text,
};
use crate::records::Snapshot;
use icb_schema::Text;
use serde_json::Value;
use sqlite_items::Items;
use std::alloc::Global;

/// The table's snapshots.
pub(crate) fn snapshots_field(alloc: Global, object: &Value) -> Result<Items<Snapshot>, Refusal>
    ensures { Shows (λ snapshots. snapshots) result
        (member_or [] snapshots_in (codes "snapshots") (view object.now)) }
{
    match object.get("snapshots") {
        Some(value) => snapshots_in(alloc, value),
        None => Ok(Items::new(alloc)),
    }
}

/// Snapshots whose ids are distinct.
#[tactic(auto, unfolding(crate::specs::Forms::snapshots_in))]
fn snapshots_in(alloc: Global, value: &Value) -> Result<Items<Snapshot>, Refusal>
    ensures { Shows (λ snapshots. snapshots) result
        (or_field (codes "snapshots") (snapshots_in (view value.now))) }
{
    let Some(items) = items_in(value) else {
        return Err(Refusal::Field("snapshots"));
    };
    let snapshots = all_snapshots(alloc, items)?;
    if have_distinct_ids(alloc, snapshots.as_slice())? {
        Ok(snapshots)
    } else {
        Err(Refusal::Field("snapshots"))
    }
}

/// Values that are all snapshots.
fn all_snapshots(alloc: Global, items: &[Value]) -> Result<Items<Snapshot>, Refusal>
    ensures { Shows (λ snapshots. snapshots) result
        (or_field (codes "snapshots") (all_read snapshot_in (map view items.now))) }
{
    let mut snapshots = Items::new(alloc);
    for item in items {
        snapshots.push(snapshot_in(alloc, item)?)?;
    }
    Ok(snapshots)
}

/// A snapshot.
#[tactic(auto, unfolding(crate::specs::Forms::snapshot_in))]
fn snapshot_in(alloc: Global, value: &Value) -> Result<Snapshot, Refusal>
    ensures { Shows (λ snapshot. snapshot) result
        (or_field (codes "snapshots") (snapshot_in (view value.now))) }
{
    let refusal = Refusal::Field("snapshots");
    let id = needed_long(value, "snapshot-id").ok_or(refusal)?;
    let sequence = needed_long(value, "sequence-number").ok_or(refusal)?;
    let ms = needed_long(value, "timestamp-ms").ok_or(refusal)?;
    let summary = value.get("summary").ok_or(refusal)?;
    let parent = optional_long(value, "parent-snapshot-id").ok_or(refusal)?;
    let schema = optional_int(value, "schema-id").ok_or(refusal)?;
    let first_row = optional_long(value, "first-row-id").ok_or(refusal)?;
    let added = optional_long(value, "added-rows").ok_or(refusal)?;
    let list = needed_text(value, "manifest-list").ok_or(refusal)?;
    let operation = needed_text(summary, "operation").ok_or(refusal)?;
    let key = optional_text(value, "key-id").ok_or(refusal)?;
    let list = Text::from_str(alloc, list)?;
    let operation = Text::from_str(alloc, operation)?;
    let key = match key {
        Some(key) => Some(Text::from_str(alloc, key)?),
        None => None,
    };
    Ok(Snapshot {
        id,
        parent,
        sequence,
        ms,
        list,
        operation,
        schema,
        first_row,
        added,
        key,
    })
}

/// The current snapshot's id.
pub(crate) fn current_field(object: &Value, snapshots: &[Snapshot]) -> Result<Option<i64>, Refusal>
    ensures { Shows (λ current. current) result
        (member_or None (current_in snapshots.now) (codes "current-snapshot-id")
        (view object.now)) }
{
    match object.get("current-snapshot-id") {
        Some(value) => current_in(value, snapshots).ok_or(Refusal::Field("current-snapshot-id")),
        None => Ok(None),
    }
}

/// The current snapshot's id, where null and -1 mean none.
fn current_in(value: &Value, snapshots: &[Snapshot]) -> Option<Option<i64>>
    ensures { result ≡ current_in snapshots.now (view value.now) }
{
    if value.is_null() {
        return Some(None);
    }
    current_id(snapshots, value.as_i64()?)
}

/// The id of one of the snapshots, or -1 for none.
fn current_id(snapshots: &[Snapshot], id: i64) -> Option<Option<i64>>
    ensures { result ≡ current_id snapshots.now id }
{
    if id == -1 {
        return Some(None);
    }
    Some(Some(snapshot_named(snapshots, id)?.id))
}
