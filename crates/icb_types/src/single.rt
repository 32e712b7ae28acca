//! Single values: the bytes of one datum (Apache Iceberg Table Spec, "Appendix D: Single-value serialization").
ghost use Rattle.std.specs.Prelude.{◌≡◌, ◌≢◌, IfOk, Some, option_map};
ghost use Rattle.icb_types.specs.Data.{seen};
ghost use Rattle.std.specs.Int.{w32, w64, w128, from_be_bytes};
ghost use Rattle.icb_types.specs.Single.{boolean_in, datum_of_single, number_in, single_of, sized, text_in};

use crate::columns::ColType;
use crate::datum::{Datum, DatumRef};
use icb_schema::{NoMemory, Octets};
use std::alloc::Global;

/// The single value of a datum that isn't null.
pub fn to_single(alloc: Global, datum: &Datum) -> Result<Octets, NoMemory>
    requires { datum.now ≢ Datum.Null }
    ensures { IfOk result (λ bytes. single_of datum.now ≡ Some bytes) }
{
    match datum {
        Datum::Null => Ok(Octets::new(alloc)),
        Datum::Boolean(b) => Octets::from_slice(alloc, &[u8::from(*b)]),
        Datum::Int(n) => Octets::from_slice(alloc, &n.to_le_bytes()),
        Datum::Long(n) => Octets::from_slice(alloc, &n.to_le_bytes()),
        Datum::Date(days) => Octets::from_slice(alloc, &days.to_le_bytes()),
        Datum::Time(time) => Octets::from_slice(alloc, &time.to_le_bytes()),
        Datum::Timestamp(time) => Octets::from_slice(alloc, &time.to_le_bytes()),
        Datum::TimestampTz(time) => Octets::from_slice(alloc, &time.to_le_bytes()),
        Datum::Text(text) => Octets::from_slice(alloc, text.as_slice()),
        Datum::Uuid(id) => Octets::from_slice(alloc, &id.to_be_bytes()),
        Datum::Fixed(bytes) => bytes.copy(alloc),
        Datum::Binary(bytes) => bytes.copy(alloc),
    }
}

/// The datum of a kind whose single value these bytes are. It takes no memory.
pub fn from_single<'a>(kind: &ColType, bytes: &'a [u8]) -> Option<DatumRef<'a>>
    ensures { option_map seen result ≡ datum_of_single kind.now bytes.now }
{
    match kind {
        ColType::Boolean => Some(DatumRef::Boolean(boolean(bytes)?)),
        ColType::Int => Some(DatumRef::Int(int(bytes)?)),
        ColType::Long => Some(DatumRef::Long(long(bytes)?)),
        ColType::Date => Some(DatumRef::Date(int(bytes)?)),
        ColType::Time => Some(DatumRef::Time(long(bytes)?)),
        ColType::Timestamp => Some(DatumRef::Timestamp(long(bytes)?)),
        ColType::TimestampTz => Some(DatumRef::TimestampTz(long(bytes)?)),
        ColType::Text => Some(DatumRef::Text(text(bytes)?)),
        ColType::Uuid => Some(DatumRef::Uuid(uuid(bytes)?)),
        ColType::Fixed(size) => Some(DatumRef::Fixed(sized(*size, bytes)?)),
        ColType::Binary => Some(DatumRef::Binary(bytes)),
    }
}

/// One byte, where 0 is false and any other is true.
fn boolean(bytes: &[u8]) -> Option<bool>
    ensures { result ≡ boolean_in bytes.now }
{
    match bytes {
        [byte] => Some(*byte != 0),
        _ => None,
    }
}

/// A number of 32 bits, low byte first.
fn int(bytes: &[u8]) -> Option<i32>
    ensures { result ≡ number_in w32 bytes.now }
{
    let bytes: [u8; 4] = bytes.try_into().ok()?;
    Some(i32::from_le_bytes(bytes))
}

/// A number of 64 bits, low byte first.
fn long(bytes: &[u8]) -> Option<i64>
    ensures { result ≡ number_in w64 bytes.now }
{
    let bytes: [u8; 8] = bytes.try_into().ok()?;
    Some(i64::from_le_bytes(bytes))
}

/// Bytes in UTF-8.
fn text(bytes: &[u8]) -> Option<&str>
    ensures { option_map (λ text. text.now) result ≡ text_in bytes.now }
{
    match std::str::from_utf8(bytes) {
        Ok(text) => Some(text),
        Err(_) => None,
    }
}

/// A number of 128 bits, high byte first.
fn uuid(bytes: &[u8]) -> Option<u128>
    ensures { result ≡ option_map (from_be_bytes w128) (sized 16 bytes.now) }
{
    let bytes: [u8; 16] = bytes.try_into().ok()?;
    Some(u128::from_be_bytes(bytes))
}

/// Bytes, where there are so many.
fn sized(size: u32, bytes: &[u8]) -> Option<&[u8]>
    ensures { option_map (λ found. found.now) result ≡ sized size bytes.now }
{
    if bytes.len() == size as usize {
        Some(bytes)
    } else {
        None
    }
}
