//! The manifest of an append's data files, sealed and put.
ghost use Rattle.std.specs.Prelude.{◌≡◌, ◌<◌, ◌^◌, ℕ, IfOk, Some, length};
ghost use Rattle.icb_append.specs.Records.{manifest_row};
ghost use Rattle.icb_append.specs.Sealed.{PutsRecords, SealsRecords};
ghost use Rattle.icb_append.specs.Settings.{AreInRange};
ghost use Rattle.icb_manifest.specs.Written.{written_manifest};

use crate::fault::SealFault;
use crate::fresh::Fresh;
use crate::putting::put_file;
use crate::records::{full_path, key_bytes};
use crate::sealing::{SealedData, seal_short};
use crate::settings::Settings;
use icb_base::{Draws, KeyMeta, ObjPath, Store};
use icb_list::ListRow;
use icb_manifest::{Entry, write_manifest};
use icb_schema::{NoMemory, Text};
use icb_turns::JobFault;
use icb_types::TableSchema;
use std::alloc::Global;

/// What a manifest is made of, beside its key and its marker.
#[derive(Drop)]
pub struct ManifestOf<'a> {
    /// The schema of its files.
    pub schema: &'a TableSchema,
    /// The partition spec of its files.
    pub spec: i32,
    /// Its entries, each of a file that is added.
    pub entries: &'a [Entry],
    /// How many rows the files have together.
    pub rows: u64,
}

/// Puts the manifest of added files, under a key and with a marker that are drawn for it, and gives its row
/// in a list, without the numbers of a snapshot. All that takes memory is done before the put.
pub fn put_manifest<S: Store, D: Draws>(
    alloc: Global,
    of: &ManifestOf<'_>,
    settings: Settings,
    location: &Text,
    path: ObjPath,
    store: &mut S,
    draws: &mut D,
) -> Result<ListRow, JobFault>
    requires ranges { AreInRange settings }
    requires files { length of.now.entries.now < 2 ^ 31 }
    requires rows { of.now.rows < 2 ^ 63 }
    ensures { PutsRecords S.Store D.Draws settings path
        (written_manifest of.now.schema.now of.now.spec) of.now.entries.now
        (λ meta size row. row ≡ manifest_row location.now path of.now.spec
        (length of.now.entries.now) of.now.rows meta size) result store.old store.new draws.old
        draws.new }
{
    let Ok(fresh) = Fresh::draw(draws, settings.key) else {
        return Err(JobFault::Random);
    };
    match sealed_manifest(alloc, fresh, of, settings, location, &path) {
        Ok((sealed, row)) => match put_file(store, path, sealed.object.as_slice()) {
            Ok(()) => Ok(row),
            Err(fault) => Err(fault),
        },
        Err(fault) => Err(fault.of_job()),
    }
}

/// The object of a manifest, with its row.
fn sealed_manifest(
    alloc: Global,
    fresh: Fresh,
    of: &ManifestOf<'_>,
    settings: Settings,
    location: &Text,
    path: &ObjPath,
) -> Result<(SealedData, ListRow), SealFault>
    requires ranges { AreInRange settings }
    requires files { length of.now.entries.now < 2 ^ 31 }
    requires rows { of.now.rows < 2 ^ 63 }
    ensures { SealsRecords settings.block path.now
        (written_manifest of.now.schema.now of.now.spec) of.now.entries.now
        (λ meta size row. row ≡ manifest_row location.now path.now of.now.spec
        (length of.now.entries.now) of.now.rows meta size) fresh result }
{
    let Fresh { key, marker } = fresh;
    let header = write_manifest(alloc, of.schema, of.spec, &[], &marker);
    let plain = write_manifest(alloc, of.schema, of.spec, of.entries, &marker);
    let (Ok(header), Ok(plain)) = (header, plain) else {
        key.abandon();
        return Err(SealFault::NoMemory);
    };
    let block = settings.block;
    match seal_short(alloc, key, path, block, header.as_slice(), plain.as_slice()) {
        Ok(sealed) => match manifest_row(alloc, location, path, of, &sealed.meta) {
            Ok(row) => Ok((sealed, row)),
            Err(NoMemory) => Err(SealFault::NoMemory),
        },
        Err(fault) => Err(fault),
    }
}

/// The row of a manifest in a list, without the numbers of a snapshot.
fn manifest_row(
    alloc: Global,
    location: &Text,
    path: &ObjPath,
    of: &ManifestOf<'_>,
    meta: &KeyMeta,
) -> Result<ListRow, NoMemory>
    requires files { length of.now.entries.now < 2 ^ 31 }
    requires rows { of.now.rows < 2 ^ 63 }
    ensures { IfOk result (λ row. (size : ℕ) → meta.now.length_told ≡ Some size
        → row ≡ manifest_row location.now path.now of.now.spec (length of.now.entries.now)
        of.now.rows meta.now size) }
{
    Ok(ListRow {
        path: full_path(alloc, location.as_str(), path.as_str())?,
        length: meta.length().unwrap_or(0) as i64,
        spec: of.spec,
        content: 0,
        sequence: 0,
        min_sequence: 0,
        snapshot: 0,
        files: [of.entries.len() as i32, 0, 0],
        rows: [of.rows as i64, 0, 0],
        key: Some(key_bytes(alloc, meta)?),
        first_row: None,
    })
}
