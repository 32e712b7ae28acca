//! A data file, sealed under a key of its own, and put.
ghost use Rattle.std.specs.Prelude.{◌≡◌, Err, IfOk, false, map, true};
ghost use Rattle.icb_types.specs.Columns.{AreColumns};
ghost use Rattle.icb_append.specs.Settings.{AreInRange};
ghost use Rattle.icb_append.specs.Data.{IsDataObject, SealsData, file_record, is_cut, is_file};
ghost use Rattle.icb_append.specs.Puts.{PutsFile};

use crate::fault::SealFault;
use crate::fresh::Fresh;
use crate::putting::put_file;
use crate::records::file_record;
use crate::sealing::{MOST_HEADER, SealedData, seal};
use crate::settings::Settings;
use icb_base::{Draws, ObjPath, Store};
use icb_manifest::DataFile;
use icb_rows::{DataFault, write_limited};
use icb_schema::Text;
use icb_seal::FileKey;
use icb_turns::JobFault;
use icb_types::{Datum, TableSchema};
use std::alloc::Global;

/// Puts the data file of rows that stand one behind the other, under a key and with a marker that are drawn
/// for it, and says what a manifest says of it. All that takes memory is done before the put.
pub fn put_data<S: Store, D: Draws>(
    alloc: Global,
    schema: &TableSchema,
    rows: &[Vec<Datum>],
    settings: Settings,
    location: &Text,
    path: ObjPath,
    store: &mut S,
    draws: &mut D,
) -> Result<DataFile, JobFault>
    requires columns { AreColumns schema.now.columns }
    requires ranges { AreInRange settings }
    ensures { PutsFile S.Store D.Draws settings.key path
        (λ key marker object meta. IsDataObject settings schema.now.columns
        (map (λ row. row.items) rows.now) path marker key object meta)
        (λ marker. is_file settings schema.now.columns (map (λ row. row.items) rows.now) marker)
        (λ meta size file. file ≡ file_record location.now path schema.now.columns
        (map (λ row. row.items) rows.now) meta size) result store.old store.new draws.old
        draws.new }
{
    let Ok(fresh) = Fresh::draw(draws, settings.key) else {
        return Err(JobFault::Random);
    };
    match sealed_file(alloc, fresh, schema, rows, settings, location, &path) {
        Ok((sealed, file)) => match put_file(store, path, sealed.object.as_slice()) {
            Ok(()) => Ok(file),
            Err(fault) => Err(fault),
        },
        Err(fault) => Err(fault.of_job()),
    }
}

/// The object of a data file, with what a manifest says of it.
fn sealed_file(
    alloc: Global,
    fresh: Fresh,
    schema: &TableSchema,
    rows: &[Vec<Datum>],
    settings: Settings,
    location: &Text,
    path: &ObjPath,
) -> Result<(SealedData, DataFile), SealFault>
    requires columns { AreColumns schema.now.columns }
    requires ranges { AreInRange settings }
    ensures { SealsData settings schema.now.columns (map (λ row. row.items) rows.now)
        location.now path.now fresh result }
{
    let Fresh { key, marker } = fresh;
    match seal_data(alloc, key, &marker, schema, rows, settings, path) {
        Ok(sealed) => {
            let size = sealed.meta.length().unwrap_or(0);
            match file_record(alloc, location, path, schema, rows, &sealed.meta, size) {
                Ok(file) => Ok((sealed, file)),
                Err(_) => Err(SealFault::NoMemory),
            }
        }
        Err(fault) => Err(fault),
    }
}

/// The data file of rows that stand one behind the other, sealed under the key with its path in each
/// block's additional data. It is refused as `Limit` exactly where it may not be one file. The key is
/// spent.
pub fn seal_data(
    alloc: Global,
    key: FileKey,
    marker: &[u8; 16],
    schema: &TableSchema,
    rows: &[Vec<Datum>],
    settings: Settings,
    path: &ObjPath,
) -> Result<SealedData, SealFault>
    requires columns { AreColumns schema.now.columns }
    requires ranges { AreInRange settings }
    ensures object { IfOk result (λ sealed. IsDataObject settings schema.now.columns
        (map (λ row. row.items) rows.now) path.now marker.now key sealed.object sealed.meta) }
    ensures refused { result ≡ Err SealFault.Limit
        → is_file settings schema.now.columns (map (λ row. row.items) rows.now) marker.now
        ≡ false }
    ensures passed { IfOk result (λ _.
        is_file settings schema.now.columns (map (λ row. row.items) rows.now) marker.now
        ≡ true) }
{
    let Ok(header) = write_limited(alloc, schema, &[], settings.avro, marker) else {
        key.abandon();
        return Err(SealFault::NoMemory);
    };
    if header.as_slice().len() > MOST_HEADER {
        key.abandon();
        return Err(SealFault::Limit);
    }
    seal_rows(alloc, key, marker, schema, rows, settings, path)
}

/// The same of a file whose header is short. It is refused as `Limit` exactly where a block is too long, or
/// there are too many.
fn seal_rows(
    alloc: Global,
    key: FileKey,
    marker: &[u8; 16],
    schema: &TableSchema,
    rows: &[Vec<Datum>],
    settings: Settings,
    path: &ObjPath,
) -> Result<SealedData, SealFault>
    requires columns { AreColumns schema.now.columns }
    requires ranges { AreInRange settings }
    ensures object { IfOk result (λ sealed. IsDataObject settings schema.now.columns
        (map (λ row. row.items) rows.now) path.now marker.now key sealed.object sealed.meta) }
    ensures refused { result ≡ Err SealFault.Limit
        → is_cut settings schema.now.columns (map (λ row. row.items) rows.now) marker.now
        ≡ false }
    ensures passed { IfOk result (λ _.
        is_cut settings schema.now.columns (map (λ row. row.items) rows.now) marker.now
        ≡ true) }
{
    match write_limited(alloc, schema, rows, settings.avro, marker) {
        Ok(plain) => seal(alloc, key, path, settings.block, plain.as_slice()),
        Err(fault) => {
            key.abandon();
            match fault {
                DataFault::Block => Err(SealFault::Limit),
                DataFault::NoMemory => Err(SealFault::NoMemory),
            }
        }
    }
}
