//! An entry of a manifest.
ghost use Rattle.std.specs.Prelude.{◌≡◌};
ghost use Rattle.icb_fields.specs.Answers.{Finds, Makes, row};
ghost use Rattle.icb_manifest.specs.Entries.{entry_of, numbers_of, status_of};

use crate::file::{DataFile, file_of};
use icb_fields::{BadField, FieldFault, FromRecord, Record};
use std::alloc::Global;

/// An entry of a manifest (Apache Iceberg Table Spec, "Manifests").
#[derive(Debug, Drop)]
pub struct Entry {
    /// 0 where its file exists, 1 where it is added, 2 where it is deleted.
    pub status: i32,
    /// The snapshot that added or deleted it.
    pub snapshot: Option<i64>,
    /// The sequence number of its rows.
    pub sequence: Option<i64>,
    /// The sequence number with which its file was added.
    pub file_sequence: Option<i64>,
    /// Its file.
    pub file: DataFile,
}

impl FromRecord for Entry {
    ghost use Rattle.icb_manifest.specs.Entries.{entry_of};

    ghost made = { entry_of };

    fn from_record(alloc: Global, from: &Record<'_>) -> Result<Entry, FieldFault> {
        entry_of(alloc, from)
    }
}

/// The numbers of an entry before its file.
#[derive(Clone, Copy, Debug)]
struct EntryNumbers {
    status: i32,
    snapshot: Option<i64>,
    sequence: Option<i64>,
    file_sequence: Option<i64>,
}

/// The entry that a record is. The first field that isn't in its form is named.
fn entry_of(alloc: Global, from: &Record<'_>) -> Result<Entry, FieldFault>
    ensures { Makes result (entry_of (row from.now)) }
{
    let numbers = numbers_of(from)?;
    let inner = from.needed_record(2)?;
    let file = file_of(alloc, &inner)?;
    Ok(Entry {
        status: numbers.status,
        snapshot: numbers.snapshot,
        sequence: numbers.sequence,
        file_sequence: numbers.file_sequence,
        file,
    })
}

/// The numbers before the file.
fn numbers_of(from: &Record<'_>) -> Result<EntryNumbers, BadField>
    ensures { Finds (λ n. n) result (numbers_of (row from.now)) }
{
    let status = status_of(from)?;
    let snapshot = from.long(1)?;
    let sequence = from.long(3)?;
    let file_sequence = from.long(4)?;
    Ok(EntryNumbers {
        status,
        snapshot,
        sequence,
        file_sequence,
    })
}

/// Whether the file exists, is added or is deleted.
fn status_of(from: &Record<'_>) -> Result<i32, BadField>
    ensures { Finds (λ n. n) result (status_of (row from.now)) }
{
    let status = from.needed_int(0)?;
    if status == 0 {
        return Ok(0);
    }
    if status == 1 {
        return Ok(1);
    }
    if status == 2 {
        return Ok(2);
    }
    Err(BadField { id: 0 })
}
