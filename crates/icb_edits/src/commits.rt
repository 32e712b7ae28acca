//! The metadata of a table with one more snapshot.
ghost use Rattle.std.specs.Prelude.{◌≡◌, ◌<◌, ◌≤◌, ◌^◌, IfOk, Ok, OnOk, Some};
ghost use Rattle.serde_json.specs.Data.{depth};
ghost use Rattle.serde_json.specs.View.{members_view, view};
ghost use Rattle.icb_meta.specs.Answers.{json_of, shown_of};
ghost use Rattle.icb_meta.specs.Forms.{entry_in, snapshot_in};
ghost use Rattle.icb_meta.specs.Shown.{fields_of};
ghost use Rattle.icb_edits.specs.Keys.{with_sets};
ghost use Rattle.icb_edits.specs.Sets.{set_all};
ghost use Rattle.icb_edits.specs.Snapshots.{IsNext, element_sets, snapshot_fields, snapshot_json, snapshot_sets};
ghost use Rattle.icb_edits.specs.Values.{entry_json, ordered};

use crate::keys::entry_json;
use crate::old::logged;
use crate::snapshots::{change_json, pushed, put_numbers, refs_json, snapshot_json};
use crate::values::{made, put};
use icb_base::NoMemory;
use icb_meta::{KeyEntry, Snapshot, TableMeta};
use icb_schema::Text;
use serde_json::{Map, Value};
use std::alloc::Global;

/// The metadata with this snapshot, which becomes the current one, and the key of its list. `previous` is
/// where its text is, which joins the log of metadata.
pub fn with_snapshot(
    alloc: Global,
    meta: &TableMeta,
    snapshot: Snapshot,
    entry: KeyEntry,
    previous: &Text,
    now_ms: u64,
) -> Result<TableMeta, NoMemory>
    requires next { IsNext (shown_of meta.now) snapshot entry }
    requires time { now_ms < 2 ^ 63 }
    ensures json { IfOk result (λ new. json_of new ≡ with_sets (json_of meta.now)
        (snapshot_sets (json_of meta.now) (shown_of meta.now) snapshot entry previous.now now_ms)) }
    ensures shown { IfOk result (λ new. shown_of new
        ≡ snapshot_fields (shown_of meta.now) snapshot entry now_ms) }
{
    let json = with_snapshot_json(alloc, meta, &snapshot, &entry, previous, now_ms)?;
    made(alloc, json)
}

/// Its JSON, and the record that it shows.
fn with_snapshot_json(
    alloc: Global,
    meta: &TableMeta,
    snapshot: &Snapshot,
    entry: &KeyEntry,
    previous: &Text,
    now_ms: u64,
) -> Result<Value, NoMemory>
    requires next { IsNext (shown_of meta.now) snapshot.now entry.now }
    requires time { now_ms < 2 ^ 63 }
    ensures json { IfOk result (λ json. view json ≡ with_sets (json_of meta.now)
        (snapshot_sets (json_of meta.now) (shown_of meta.now) snapshot.now entry.now previous.now
        now_ms)) }
    ensures shown { IfOk result (λ json. fields_of (view json)
        ≡ Ok (snapshot_fields (shown_of meta.now) snapshot.now entry.now now_ms)) }
    ensures shallow { IfOk result (λ json. depth (view json) ≤ 127) }
{
    let mut members = meta.members(alloc)?;
    put_numbers(alloc, &mut members, meta, snapshot, now_ms)?;
    put_elements(alloc, &mut members, meta, snapshot, entry, previous, now_ms)?;
    Ok(Value::Object(members))
}

/// What joins the lists, and the main branch.
fn put_elements(
    alloc: Global,
    members: &mut Map<String, Value>,
    meta: &TableMeta,
    snapshot: &Snapshot,
    entry: &KeyEntry,
    previous: &Text,
    now_ms: u64,
) -> Result<(), NoMemory>
    requires { now_ms < 2 ^ 63 }
    ensures snapshot { OnOk result (snapshot_in (snapshot_json snapshot.now)
        ≡ Some snapshot.now) }
    ensures entry { OnOk result (entry_in (entry_json entry.now) ≡ Some (ordered entry.now)) }
    ensures sets { OnOk result (members_view members.new.entries ≡ set_all (element_sets
        (json_of meta.now) (shown_of meta.now) snapshot.now entry.now previous.now now_ms)
        (members_view members.old.entries)) }
{
    let json = meta.json();
    let snapshots = pushed(alloc, json, "snapshots", snapshot_json(alloc, snapshot)?)?;
    let changes = pushed(
        alloc,
        json,
        "snapshot-log",
        change_json(alloc, snapshot, now_ms)?,
    )?;
    let keys = pushed(alloc, json, "encryption-keys", entry_json(alloc, entry)?)?;
    let log = logged(alloc, meta, previous)?;
    let refs = refs_json(alloc, json, snapshot)?;
    put(alloc, members, "encryption-keys", keys)?;
    put(alloc, members, "metadata-log", log)?;
    put(alloc, members, "refs", refs)?;
    put(alloc, members, "snapshot-log", changes)?;
    put(alloc, members, "snapshots", snapshots)?;
    Ok(())
}
