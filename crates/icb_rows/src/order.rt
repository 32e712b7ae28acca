//! How data of one column stand to one another (Apache Iceberg Table Spec, "Scan Planning").
ghost use Rattle.std.specs.Prelude.{◌≡◌};
ghost use Rattle.icb_types.specs.Data.{seen};
ghost use Rattle.icb_rows.specs.Order.{bytes_of, datum_cmp, id_of, is_null, number_of};

use icb_types::DatumRef;
use std::cmp::Ordering;

/// How a datum stands to another one of its column.
pub(crate) fn compare(a: &DatumRef, b: &DatumRef) -> Ordering
    ensures { result ≡ datum_cmp (seen a.now) (seen b.now) }
{
    let numbers = number_of(a).cmp(&number_of(b));
    let ids = id_of(a).cmp(&id_of(b));
    numbers.then(ids.then(bytes_of(a).cmp(bytes_of(b))))
}

/// Whether a datum is null.
pub(crate) fn is_null(datum: &DatumRef) -> bool
    ensures { result ≡ is_null (seen datum.now) }
{
    matches!(datum, DatumRef::Null)
}

/// The number that a datum is; 0 for other data.
fn number_of(datum: &DatumRef) -> i64
    ensures { result ≡ number_of (seen datum.now) }
{
    match datum {
        DatumRef::Boolean(b) => i64::from(*b),
        DatumRef::Int(n) => i64::from(*n),
        DatumRef::Long(n) => *n,
        DatumRef::Date(days) => i64::from(*days),
        DatumRef::Time(time) => *time,
        DatumRef::Timestamp(time) => *time,
        DatumRef::TimestampTz(time) => *time,
        _ => 0,
    }
}

/// The number that an identifier is; 0 for other data.
fn id_of(datum: &DatumRef) -> u128
    ensures { result ≡ id_of (seen datum.now) }
{
    match datum {
        DatumRef::Uuid(id) => *id,
        _ => 0,
    }
}

/// The bytes that a datum is; none for other data.
pub(crate) fn bytes_of<'a>(datum: &DatumRef<'a>) -> &'a [u8]
    ensures { result.now ≡ bytes_of (seen datum.now) }
{
    match datum {
        DatumRef::Text(text) => text.as_bytes(),
        DatumRef::Fixed(bytes) => bytes,
        DatumRef::Binary(bytes) => bytes,
        _ => b"",
    }
}
