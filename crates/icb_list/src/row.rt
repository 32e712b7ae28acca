//! A row of a manifest list.
ghost use Rattle.std.specs.Prelude.{◌≡◌};
ghost use Rattle.icb_fields.specs.Answers.{Finds, Makes, row};
ghost use Rattle.icb_list.specs.Rows.{content_of, files_of, list_row, numbers_of, rows_of};

use icb_fields::{BadField, FieldFault, FromRecord, Record, owned};
use icb_schema::{Octets, Text};
use std::alloc::Global;

/// A manifest, as a list names it (Apache Iceberg Table Spec, "Manifest Lists").
#[derive(Debug, Drop)]
pub struct ListRow {
    /// Where the manifest is.
    pub path: Text,
    /// Its length in bytes.
    pub length: i64,
    /// The partition spec of its files.
    pub spec: i32,
    /// 0 where it has data files, 1 where it has delete files.
    pub content: i32,
    /// The sequence number with which it was added.
    pub sequence: i64,
    /// The least sequence number of its files.
    pub min_sequence: i64,
    /// The snapshot that added it.
    pub snapshot: i64,
    /// How many files are added, existing and deleted.
    pub files: [i32; 3],
    /// How many rows are added, existing and deleted.
    pub rows: [i64; 3],
    /// The key metadata of the manifest.
    pub key: Option<Octets>,
    /// The first row id of its added files.
    pub first_row: Option<i64>,
}

impl FromRecord for ListRow {
    ghost use Rattle.icb_list.specs.Rows.{list_row};

    ghost made = { list_row };

    fn from_record(alloc: Global, from: &Record<'_>) -> Result<ListRow, FieldFault> {
        list_row(alloc, from)
    }
}

/// The numbers of a row between its path and its counts.
#[derive(Clone, Copy, Debug)]
struct RowNumbers {
    length: i64,
    spec: i32,
    content: i32,
    sequence: i64,
    min_sequence: i64,
    snapshot: i64,
}

/// The row that a record is. The first field that isn't in its form is named.
fn list_row(alloc: Global, from: &Record<'_>) -> Result<ListRow, FieldFault>
    ensures { Makes result (list_row (row from.now)) }
{
    let path = from.needed_text(500)?;
    let numbers = numbers(from)?;
    let files = files(from)?;
    let rows = rows(from)?;
    let key = from.bytes(519)?;
    let first_row = from.long(520)?;
    Ok(ListRow {
        path: Text::from_str(alloc, path)?,
        length: numbers.length,
        spec: numbers.spec,
        content: numbers.content,
        sequence: numbers.sequence,
        min_sequence: numbers.min_sequence,
        snapshot: numbers.snapshot,
        files,
        rows,
        key: owned(alloc, key)?,
        first_row,
    })
}

/// The numbers between the path and the counts.
fn numbers(from: &Record<'_>) -> Result<RowNumbers, BadField>
    ensures { Finds (λ n. n) result (numbers_of (row from.now)) }
{
    let length = from.needed_long(501)?;
    let spec = from.needed_int(502)?;
    let content = content(from)?;
    let sequence = from.needed_long(515)?;
    let min_sequence = from.needed_long(516)?;
    let snapshot = from.needed_long(503)?;
    Ok(RowNumbers {
        length,
        spec,
        content,
        sequence,
        min_sequence,
        snapshot,
    })
}

/// What the files of a manifest hold.
fn content(from: &Record<'_>) -> Result<i32, BadField>
    ensures { Finds (λ n. n) result (content_of (row from.now)) }
{
    let content = from.needed_int(517)?;
    if content == 0 {
        return Ok(0);
    }
    if content == 1 {
        return Ok(1);
    }
    Err(BadField { id: 517 })
}

/// The numbers of added, existing and deleted files.
fn files(from: &Record<'_>) -> Result<[i32; 3], BadField>
    ensures { Finds (λ n. n) result (files_of (row from.now)) }
{
    let added = from.needed_int(504)?;
    let existing = from.needed_int(505)?;
    let deleted = from.needed_int(506)?;
    Ok([added, existing, deleted])
}

/// The numbers of added, existing and deleted rows.
fn rows(from: &Record<'_>) -> Result<[i64; 3], BadField>
    ensures { Finds (λ n. n) result (rows_of (row from.now)) }
{
    let added = from.needed_long(512)?;
    let existing = from.needed_long(513)?;
    let deleted = from.needed_long(514)?;
    Ok([added, existing, deleted])
}
