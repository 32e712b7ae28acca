//! From the line of a row to its data.
ghost use Rattle.std.specs.Prelude.{◌≡◌, IfOk, Some, None, length, map, option_and_then, option_map};
ghost use Rattle.std.specs.Int.{w128, from_be_bytes};
ghost use Rattle.serde_json.specs.Find.{as_str};
ghost use Rattle.serde_json.specs.View.{view};
ghost use Rattle.uuid.specs.Text.{parsed};
ghost use Rattle.icb_schema.specs.Reading.{json_in};
ghost use Rattle.icb_types.specs.Answers.{ReadsRow};
ghost use Rattle.icb_types.specs.Lines.{as_u32, bytes_in, column_datum, data_from, datum_in, datum_of_text, int_in, is_time, or_refuse, row_in, row_of, time_in, uuid_in};
ghost use Rattle.icb_types.specs.Single.{sized};

use crate::columns::{ColType, Column, TableSchema};
use crate::datum::Datum;
use crate::fault::RowFault;
use hex::FromHexError;
use icb_schema::{NoMemory, Octets, Text};
use serde_json::Value;
use std::alloc::Global;
use uuid::Uuid;

/// The microseconds of a day.
const DAY: i64 = 86_400_000_000;

/// The row that a line shows under a schema, or the first refusal.
#[tactic(auto, unfolding(crate::specs::Lines::row_of))]
pub fn read_row(alloc: Global, schema: &TableSchema, line: &[u8]) -> Result<Vec<Datum>, RowFault>
    ensures { ReadsRow (λ row. row.items) result (row_of schema.now.columns line.now) }
{
    let value = read_json(alloc, line)?;
    read_values(alloc, schema.columns.as_slice(), &value)
}

/// The datum of a kind, other than null, that a text shows as one JSON value; none where it shows none.
pub fn read_datum(alloc: Global, kind: ColType, text: &[u8]) -> Result<Option<Datum>, NoMemory>
    ensures { IfOk result (λ found. found ≡ datum_of_text kind text.now) }
{
    match read_json(alloc, text) {
        Ok(value) => datum_in(alloc, kind, &value),
        Err(RowFault::NoMemory) => Err(NoMemory),
        Err(_) => Ok(None),
    }
}

/// The row that a value shows: an array with one value for each column.
fn read_values(alloc: Global, columns: &[Column], value: &Value) -> Result<Vec<Datum>, RowFault>
    ensures { ReadsRow (λ row. row.items) result (row_in columns.now (view value.now)) }
{
    let Some(values) = value.as_array() else {
        return Err(RowFault::NotArray);
    };
    if values.len() != columns.len() {
        return Err(RowFault::RowLength {
            found: as_u32(values.len()),
        });
    }
    read_data(alloc, columns, values)
}

/// The JSON value of a line.
fn read_json(alloc: Global, line: &[u8]) -> Result<Value, RowFault>
    ensures { ReadsRow view result (or_refuse RowFault.NotJson (json_in line.now)) }
{
    match Value::from_slice(alloc, line) {
        Ok(value) => Ok(value),
        Err(e) => if e.is_memory() {
            Err(RowFault::NoMemory)
        } else {
            Err(RowFault::NotJson)
        },
    }
}

/// The data of columns, one value for each.
fn read_data(alloc: Global, columns: &[Column], values: &[Value]) -> Result<Vec<Datum>, RowFault>
    requires { length values.now ≡ length columns.now }
    ensures { ReadsRow (λ row. row.items) result (data_from 0 columns.now (map view values.now)) }
{
    let mut row = Vec::new(alloc);
    for (at, column) in columns.iter().enumerate() {
        match column_datum(alloc, column, &values[at])? {
            Some(datum) => row.push(datum)?,
            None => {
                return Err(RowFault::BadValue { column: as_u32(at) });
            }
        }
    }
    Ok(row)
}

/// A count or a position, at most the greatest number of 32 bits.
fn as_u32(number: usize) -> u32
    ensures { result ≡ as_u32 number }
{
    u32::try_from(number).unwrap_or(u32::MAX)
}

/// The datum of a column that a value is: null, where the column isn't required.
fn column_datum(alloc: Global, column: &Column, value: &Value) -> Result<Option<Datum>, NoMemory>
    ensures { IfOk result (λ found. found ≡ column_datum column.now (view value.now)) }
{
    if !value.is_null() {
        return datum_in(alloc, column.kind, value);
    }
    if column.required {
        Ok(None)
    } else {
        Ok(Some(Datum::Null))
    }
}

/// The datum of a kind, other than null, that a value is.
fn datum_in(alloc: Global, kind: ColType, value: &Value) -> Result<Option<Datum>, NoMemory>
    ensures { IfOk result (λ found. found ≡ datum_in kind (view value.now)) }
{
    match kind {
        ColType::Boolean => Ok(value.as_bool().map(|b| Datum::Boolean(b))),
        ColType::Int => Ok(int_in(value).map(|n| Datum::Int(n))),
        ColType::Long => Ok(value.as_i64().map(|n| Datum::Long(n))),
        ColType::Date => Ok(int_in(value).map(|days| Datum::Date(days))),
        ColType::Time => Ok(time_in(value).map(|time| Datum::Time(time))),
        ColType::Timestamp => Ok(value.as_i64().map(|time| Datum::Timestamp(time))),
        ColType::TimestampTz => Ok(value.as_i64().map(|time| Datum::TimestampTz(time))),
        ColType::Text => Ok(text_in(alloc, value)?.map(|text| Datum::Text(text))),
        ColType::Uuid => Ok(uuid_in(value).map(|id| Datum::Uuid(id))),
        ColType::Fixed(size) => Ok(fixed_in(alloc, size, value)?.map(|bytes| Datum::Fixed(bytes))),
        ColType::Binary => Ok(bytes_in(alloc, value)?.map(|bytes| Datum::Binary(bytes))),
    }
}

/// A whole number of 32 bits.
fn int_in(value: &Value) -> Option<i32>
    ensures { result ≡ int_in (view value.now) }
{
    i32::try_from(value.as_i64()?).ok()
}

/// Microseconds since midnight, below those of a day.
fn time_in(value: &Value) -> Option<i64>
    ensures { result ≡ time_in (view value.now) }
{
    match value.as_i64() {
        Some(time) if is_time(time) => Some(time),
        _ => None,
    }
}

/// Whether microseconds are those of a day.
fn is_time(time: i64) -> bool
    ensures { result ≡ is_time time }
{
    0 <= time && time < DAY
}

/// A text.
fn text_in(alloc: Global, value: &Value) -> Result<Option<Text>, NoMemory>
    ensures { IfOk result (λ found. found ≡ as_str (view value.now)) }
{
    match value.as_str() {
        Some(text) => Ok(Some(Text::from_str(alloc, text)?)),
        None => Ok(None),
    }
}

/// The number of the identifier that a text is in one of its four forms.
fn uuid_in(value: &Value) -> Option<u128>
    ensures { result ≡ uuid_in (view value.now) }
{
    match Uuid::parse_str(value.as_str()?) {
        Ok(id) => Some(id.as_u128()),
        Err(_) => None,
    }
}

/// As many bytes as the size says.
fn fixed_in(alloc: Global, size: u32, value: &Value) -> Result<Option<Octets>, NoMemory>
    ensures { IfOk result (λ found. found
        ≡ option_and_then (sized size) (bytes_in (view value.now))) }
{
    match bytes_in(alloc, value)? {
        Some(bytes) if bytes.as_slice().len() == size as usize => Ok(Some(bytes)),
        _ => Ok(None),
    }
}

/// The bytes of a text in hexadecimal, of either case.
fn bytes_in(alloc: Global, value: &Value) -> Result<Option<Octets>, NoMemory>
    ensures { IfOk result (λ found. found ≡ bytes_in (view value.now)) }
{
    let Some(text) = value.as_str() else {
        return Ok(None);
    };
    match hex::decode(alloc, text) {
        Ok(bytes) => Ok(Some(Octets::from_vec(bytes))),
        Err(FromHexError::OutOfMemory) => Err(NoMemory),
        Err(_) => Ok(None),
    }
}
