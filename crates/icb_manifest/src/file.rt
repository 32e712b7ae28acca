//! A data file, as an entry of a manifest names it.
ghost use Rattle.std.specs.Prelude.{◌≡◌};
ghost use Rattle.icb_fields.specs.Answers.{Makes, row};
ghost use Rattle.icb_manifest.specs.Files.{file_of};

use crate::maps::maps_of;
use icb_fields::{FieldFault, Record, owned};
use icb_schema::{Octets, Text};
use sqlite_items::Items;
use std::alloc::Global;

/// A data file (Apache Iceberg Table Spec, "Manifests"). Its counts and bounds are by columns' ids, in
/// the order of the file; an id may stand more than once.
#[derive(Debug, Drop)]
pub struct DataFile {
    /// 0 where it has rows, 1 or 2 where it says which rows are deleted.
    pub content: i32,
    /// Where the file is.
    pub path: Text,
    /// The name of its format.
    pub format: Text,
    /// How many rows it has.
    pub records: i64,
    /// Its length in bytes.
    pub size: i64,
    /// How many values a column has, nulls among them.
    pub values: Items<(i32, i64)>,
    /// How many nulls a column has.
    pub nulls: Items<(i32, i64)>,
    /// The single value of a lower bound of a column.
    pub lower: Items<(i32, Octets)>,
    /// The single value of an upper bound of a column.
    pub upper: Items<(i32, Octets)>,
    /// The key metadata of the file.
    pub key: Option<Octets>,
    /// The id of its first row.
    pub first_row: Option<i64>,
}

/// The file that a record is. The first field that isn't in its form is named.
pub(crate) fn file_of(alloc: Global, from: &Record<'_>) -> Result<DataFile, FieldFault>
    ensures { Makes result (file_of (row from.now)) }
{
    let content = from.needed_int(134)?;
    let path = from.needed_text(100)?;
    let format = from.needed_text(101)?;
    let records = from.needed_long(103)?;
    let size = from.needed_long(104)?;
    let maps = maps_of(alloc, from)?;
    let key = from.bytes(131)?;
    let first_row = from.long(142)?;
    Ok(DataFile {
        content,
        path: Text::from_str(alloc, path)?,
        format: Text::from_str(alloc, format)?,
        records,
        size,
        values: maps.values,
        nulls: maps.nulls,
        lower: maps.lower,
        upper: maps.upper,
        key: owned(alloc, key)?,
        first_row,
    })
}
