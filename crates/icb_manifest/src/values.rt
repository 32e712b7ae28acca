//! The values of entries that are written.
ghost use Rattle.std.specs.Prelude.{◌≡◌, IfOk, map};
ghost use Rattle.icb_manifest.specs.Written.{bytes_array, bytes_value, entry_value, entry_values, file_value, file_values, longs_array, long_value, pair_value};

use crate::entry::Entry;
use crate::file::DataFile;
use icb_avro::Value;
use icb_fields::{bytes_or_null, long_or_null, not_null};
use icb_schema::{NoMemory, Octets};
use sqlite_items::Items;
use std::alloc::Global;

/// The values of entries.
pub(crate) fn manifest_values(alloc: Global, entries: &[Entry]) -> Result<Vec<Value>, NoMemory>
    ensures { IfOk result (λ values. values.items ≡ map entry_value entries.now) }
{
    let mut values = Vec::new(alloc);
    for entry in entries {
        values.push(entry_value(alloc, entry)?)?;
    }
    Ok(values)
}

/// The value of an entry.
fn entry_value(alloc: Global, entry: &Entry) -> Result<Value, NoMemory>
    ensures { IfOk result (λ value. value ≡ entry_value entry.now) }
{
    let values = entry_values(alloc, entry)?;
    Ok(Value::Record(values))
}

/// The values of an entry's fields.
fn entry_values(alloc: Global, entry: &Entry) -> Result<Items<Value>, NoMemory>
    ensures { IfOk result (λ values. values ≡ entry_values entry.now) }
{
    let mut values = Items::new(alloc);
    values.push(Value::Int(entry.status))?;
    values.push(long_or_null(alloc, entry.snapshot)?)?;
    values.push(long_or_null(alloc, entry.sequence)?)?;
    values.push(long_or_null(alloc, entry.file_sequence)?)?;
    values.push(file_value(alloc, &entry.file)?)?;
    Ok(values)
}

/// The value of a data file.
fn file_value(alloc: Global, file: &DataFile) -> Result<Value, NoMemory>
    ensures { IfOk result (λ value. value ≡ file_value file.now) }
{
    let values = file_values(alloc, file)?;
    Ok(Value::Record(values))
}

/// The values of a data file's fields.
fn file_values(alloc: Global, file: &DataFile) -> Result<Items<Value>, NoMemory>
    ensures { IfOk result (λ values. values ≡ file_values file.now) }
{
    let mut values = Items::new(alloc);
    values.push(Value::Int(file.content))?;
    values.push(Value::Text(file.path.copy(alloc)?))?;
    values.push(Value::Text(file.format.copy(alloc)?))?;
    values.push(Value::Record(Items::new(alloc)))?;
    values.push(Value::Long(file.records))?;
    values.push(Value::Long(file.size))?;
    values.push(longs_array(alloc, file.values.as_slice())?)?;
    values.push(longs_array(alloc, file.nulls.as_slice())?)?;
    values.push(bytes_array(alloc, file.lower.as_slice())?)?;
    values.push(bytes_array(alloc, file.upper.as_slice())?)?;
    values.push(bytes_or_null(alloc, &file.key)?)?;
    values.push(long_or_null(alloc, file.first_row)?)?;
    Ok(values)
}

/// A map of numbers.
fn longs_array(alloc: Global, pairs: &[(i32, i64)]) -> Result<Value, NoMemory>
    ensures { IfOk result (λ value. value ≡ longs_array pairs.now) }
{
    let values = long_values(alloc, pairs)?;
    not_null(alloc, Value::Array(values))
}

/// The keys and numbers of a map, in order.
fn long_values(alloc: Global, pairs: &[(i32, i64)]) -> Result<Items<Value>, NoMemory>
    ensures { IfOk result (λ values. values ≡ map long_value pairs.now) }
{
    let mut values = Items::new(alloc);
    for pair in pairs {
        values.push(pair_value(alloc, pair.0, Value::Long(pair.1))?)?;
    }
    Ok(values)
}

/// A map of bytes.
fn bytes_array(alloc: Global, pairs: &[(i32, Octets)]) -> Result<Value, NoMemory>
    ensures { IfOk result (λ value. value ≡ bytes_array pairs.now) }
{
    let values = bytes_values(alloc, pairs)?;
    not_null(alloc, Value::Array(values))
}

/// The keys and bytes of a map, in order.
fn bytes_values(alloc: Global, pairs: &[(i32, Octets)]) -> Result<Items<Value>, NoMemory>
    ensures { IfOk result (λ values. values ≡ map bytes_value pairs.now) }
{
    let mut values = Items::new(alloc);
    for pair in pairs {
        let bytes = pair.1.copy(alloc)?;
        values.push(pair_value(alloc, pair.0, Value::Bytes(bytes))?)?;
    }
    Ok(values)
}

/// A key and its value.
fn pair_value(alloc: Global, key: i32, value: Value) -> Result<Value, NoMemory>
    ensures { IfOk result (λ pair. pair ≡ pair_value key value) }
{
    let mut values = Items::new(alloc);
    values.push(Value::Int(key))?;
    values.push(value)?;
    Ok(Value::Record(values))
}
