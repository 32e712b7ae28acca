//! The lines of a table's snapshots.
ghost use Rattle.std.specs.Prelude.{◌≡◌, string_bytes, IfOk};
ghost use Rattle.icb_listing.specs.Lines.{lineage, snapshot_ids, snapshot_line, snapshot_work, snapshots_text};
ghost use Rattle.icb_meta.specs.Answers.{shown_of};

use crate::pieces::{number_or_dash, quoted};
use icb_base::{Bytes, NoMemory};
use icb_meta::{Snapshot, TableMeta};
use std::alloc::Global;

/// A line for each snapshot, in the metadata's order.
pub fn snapshots_text(alloc: Global, meta: &TableMeta) -> Result<Bytes, NoMemory>
    ensures { IfOk result (λ text. text ≡ snapshots_text (shown_of meta.now)) }
{
    let mut text = Vec::new(alloc);
    for snapshot in meta.snapshots() {
        let line = snapshot_line(alloc, snapshot)?;
        text.extend_from_slice(line.as_str().as_bytes())?;
    }
    Ok(Bytes::from_vec(text))
}

/// The line of a snapshot.
fn snapshot_line(alloc: Global, snapshot: &Snapshot) -> Result<String, NoMemory>
    ensures { IfOk result (λ line. string_bytes line ≡ snapshot_line snapshot.now) }
{
    let ids = snapshot_ids(alloc, snapshot)?;
    let work = snapshot_work(alloc, snapshot)?;
    let line = format!(in alloc; "{ids} {work}\n")?;
    Ok(line)
}

/// `ID PARENT SEQUENCE` of a snapshot.
fn snapshot_ids(alloc: Global, snapshot: &Snapshot) -> Result<String, NoMemory>
    ensures { IfOk result (λ ids. string_bytes ids ≡ snapshot_ids snapshot.now) }
{
    let lineage = lineage(alloc, snapshot)?;
    let sequence = number_or_dash(alloc, Some(snapshot.sequence))?;
    let ids = format!(in alloc; "{lineage} {sequence}")?;
    Ok(ids)
}

/// `ID PARENT` of a snapshot.
fn lineage(alloc: Global, snapshot: &Snapshot) -> Result<String, NoMemory>
    ensures { IfOk result (λ ids. string_bytes ids ≡ lineage snapshot.now) }
{
    let id = number_or_dash(alloc, Some(snapshot.id))?;
    let parent = number_or_dash(alloc, snapshot.parent)?;
    let ids = format!(in alloc; "{id} {parent}")?;
    Ok(ids)
}

/// `MS OPERATION ADDED` of a snapshot.
fn snapshot_work(alloc: Global, snapshot: &Snapshot) -> Result<String, NoMemory>
    ensures { IfOk result (λ work. string_bytes work ≡ snapshot_work snapshot.now) }
{
    let ms = number_or_dash(alloc, Some(snapshot.ms))?;
    let operation = quoted(alloc, snapshot.operation.as_str())?;
    let added = number_or_dash(alloc, snapshot.added)?;
    let work = format!(in alloc; "{ms} {operation} {added}")?;
    Ok(work)
}
