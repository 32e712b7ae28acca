//! The line of a row, piece by piece.
ghost use Rattle.std.specs.Prelude.{◌≡◌, ◌++◌, IfOk, OnErr, OnOk, string_bytes};
ghost use Rattle.serde_json.specs.Data as json;
ghost use Rattle.serde_json.specs.View.{view};
ghost use Rattle.hex.specs.Hex.{encode_lower};
ghost use Rattle.icb_types.specs.Data.{seen};
ghost use Rattle.icb_types.specs.Lines.{closing, datum_json, datum_text, opening, uuid_text, with_datum};

use crate::datum::DatumRef;
use icb_schema::{NoMemory, Octets};
use serde_json::Value;
use std::alloc::Global;
use uuid::Uuid;

/// Appends a datum to a line: `[` before the first and `,` before each other, then its text. After the
/// refusal the line is as before.
pub fn row_datum(alloc: Global, line: &mut Octets, datum: &DatumRef) -> Result<(), NoMemory>
    ensures ok { OnOk result (line.new ≡ with_datum line.old (seen datum.now)) }
    ensures err { OnErr result (line.new ≡ line.old) }
{
    let text = datum_text(alloc, datum)?;
    append(line, opening(line), text.as_bytes())
}

/// Appends `]` and a line feed to a line, and `[` before them where it is empty. After the refusal the
/// line is as before.
pub fn row_end(line: &mut Octets) -> Result<(), NoMemory>
    ensures ok { OnOk result (line.new ≡ line.old ++ closing line.old) }
    ensures err { OnErr result (line.new ≡ line.old) }
{
    if line.as_slice().is_empty() {
        line.extend_from_slice(b"[]\n")
    } else {
        line.extend_from_slice(b"]\n")
    }
}

/// What stands before the next datum of a line.
fn opening(line: &Octets) -> &'static [u8]
    ensures { result.now ≡ opening line.now }
{
    if line.as_slice().is_empty() {
        b"["
    } else {
        b","
    }
}

/// Appends two pieces to a line, or none.
fn append(line: &mut Octets, first: &[u8], second: &[u8]) -> Result<(), NoMemory>
    ensures ok { OnOk result (line.new ≡ line.old ++ (first.now ++ second.now)) }
    ensures err { OnErr result (line.new ≡ line.old) }
{
    let length = line.as_slice().len();
    line.extend_from_slice(first)?;
    let appended = line.extend_from_slice(second);
    if appended.is_err() {
        line.truncate(length);
    }
    appended
}

/// The text of a datum: compact JSON.
fn datum_text(alloc: Global, datum: &DatumRef) -> Result<String, NoMemory>
    ensures { IfOk result (λ text. string_bytes text ≡ datum_text (seen datum.now)) }
{
    let value = datum_json(alloc, datum)?;
    Ok(value.to_string(alloc)?)
}

/// The JSON value of a datum.
fn datum_json(alloc: Global, datum: &DatumRef) -> Result<Value, NoMemory>
    ensures { IfOk result (λ value. view value ≡ datum_json (seen datum.now)) }
{
    match datum {
        DatumRef::Null => Ok(Value::Null),
        DatumRef::Boolean(b) => Ok(Value::Bool(*b)),
        DatumRef::Int(n) => Ok(Value::from(*n)),
        DatumRef::Long(n) => Ok(Value::from(*n)),
        DatumRef::Date(days) => Ok(Value::from(*days)),
        DatumRef::Time(time) => Ok(Value::from(*time)),
        DatumRef::Timestamp(time) => Ok(Value::from(*time)),
        DatumRef::TimestampTz(time) => Ok(Value::from(*time)),
        DatumRef::Text(text) => Ok(Value::try_from_str(alloc, text)?),
        DatumRef::Uuid(id) => uuid_json(alloc, *id),
        DatumRef::Fixed(bytes) => bytes_json(alloc, bytes),
        DatumRef::Binary(bytes) => bytes_json(alloc, bytes),
    }
}

/// An identifier with hyphens, in lower case.
fn uuid_json(alloc: Global, id: u128) -> Result<Value, NoMemory>
    ensures { IfOk result (λ value. view value ≡ json.string (uuid_text id)) }
{
    let mut buffer = Uuid::encode_buffer();
    let text = Uuid::from_u128(id).hyphenated().encode_lower(&mut buffer);
    Ok(Value::try_from_str(alloc, text)?)
}

/// Bytes in lower-case hexadecimal.
fn bytes_json(alloc: Global, bytes: &[u8]) -> Result<Value, NoMemory>
    ensures { IfOk result (λ value. view value ≡ json.string (encode_lower bytes.now)) }
{
    Ok(Value::String(hex::encode(alloc, bytes)?))
}
