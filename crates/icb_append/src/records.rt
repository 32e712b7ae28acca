//! What a manifest says of a data file, and a list of a manifest.
ghost use Rattle.std.specs.Prelude.{◌≡◌, ◌<◌, ◌++◌, ◌^◌, IfOk, codes, map, option_map};
ghost use Rattle.icb_keymeta.specs.Encoded.{encoded};
ghost use Rattle.icb_append.specs.Committing.{next_sequence};
ghost use Rattle.icb_append.specs.Data.{file_record};
ghost use Rattle.icb_append.specs.Records.{row_in};
ghost use Rattle.icb_meta.specs.Answers.{shown_of};

use crate::tried::Tried;
use icb_base::{KeyMeta, ObjPath};
use icb_keymeta::encode;
use icb_list::ListRow;
use icb_manifest::DataFile;
use icb_rows::bounds_in;
use icb_schema::{NoMemory, Octets, Text};
use icb_types::{Datum, TableSchema};
use std::alloc::Global;

/// What a manifest says of the data file of rows that stand one behind the other: their counts and
/// bounds, the file's length in bytes and its key metadata, and where it is.
pub fn file_record(
    alloc: Global,
    location: &Text,
    path: &ObjPath,
    schema: &TableSchema,
    rows: &[Vec<Datum>],
    meta: &KeyMeta,
    size: u64,
) -> Result<DataFile, NoMemory>
    requires { size < 2 ^ 63 }
    ensures { IfOk result (λ file. file ≡ file_record location.now path.now schema.now.columns
        (map (λ row. row.items) rows.now) meta.now size) }
{
    let bounds = bounds_in(alloc, schema, rows)?;
    Ok(DataFile {
        content: 0,
        path: full_path(alloc, location.as_str(), path.as_str())?,
        format: Text::from_str(alloc, "avro")?,
        records: rows.len() as i64,
        size: size as i64,
        values: bounds.values,
        nulls: bounds.nulls,
        lower: bounds.lower,
        upper: bounds.upper,
        key: Some(key_bytes(alloc, meta)?),
        first_row: None,
    })
}

/// The full path of an object in a table at a location.
pub(crate) fn full_path(alloc: Global, location: &str, path: &str) -> Result<Text, NoMemory>
    ensures { IfOk result (λ full. full ≡ location.now ++ (codes "/" ++ path.now)) }
{
    let full = format!(in alloc; "{location}/{path}")?;
    Ok(Text::from_string(full))
}

/// The written form of key metadata.
pub(crate) fn key_bytes(alloc: Global, meta: &KeyMeta) -> Result<Octets, NoMemory>
    ensures { IfOk result (λ bytes. bytes ≡ encoded meta.now) }
{
    match encode(alloc, meta) {
        Ok(bytes) => Ok(Octets::from_vec(bytes.into_vec())),
        Err(_) => Err(NoMemory),
    }
}

/// A manifest's row in the list of the new snapshot.
pub fn row_in(alloc: Global, row: &ListRow, tried: &Tried) -> Result<ListRow, NoMemory>
    ensures { IfOk result (λ own. own ≡ row_in row.now tried.now.id
        (next_sequence (shown_of tried.now.meta)) (shown_of tried.now.meta).state.next_row) }
{
    let sequence = tried.meta.last_sequence() + 1;
    Ok(ListRow {
        path: row.path.copy(alloc)?,
        length: row.length,
        spec: row.spec,
        content: row.content,
        sequence,
        min_sequence: sequence,
        snapshot: tried.id,
        files: row.files,
        rows: row.rows,
        key: key_of(alloc, &row.key)?,
        first_row: Some(tried.meta.next_row_id()),
    })
}

/// A copy of key metadata, where there are any.
fn key_of(alloc: Global, key: &Option<Octets>) -> Result<Option<Octets>, NoMemory>
    ensures { IfOk result (λ copy. copy ≡ key.now) }
{
    match key {
        Some(key) => Ok(Some(key.copy(alloc)?)),
        None => Ok(None),
    }
}
