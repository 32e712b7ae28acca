//! What one column has in one row.
ghost use Rattle.std.specs.Prelude.{◌≡◌, IfOk};
ghost use Rattle.icb_types.specs.Data.{seen};

use icb_schema::{NoMemory, Octets, Text};
use std::alloc::Global;

/// What a column has in a row: a value of its kind, or null.
#[derive(Debug, Drop)]
pub enum Datum {
    /// No value.
    Null,
    /// A truth value.
    Boolean(bool),
    /// A whole number of 32 bits.
    Int(i32),
    /// A whole number of 64 bits.
    Long(i64),
    /// Days since 1970-01-01.
    Date(i32),
    /// Microseconds since midnight.
    Time(i64),
    /// Microseconds since 1970-01-01, in no time zone.
    Timestamp(i64),
    /// Microseconds since 1970-01-01 in UTC.
    TimestampTz(i64),
    /// A text.
    Text(Text),
    /// An identifier, as the number that its 16 bytes are, high byte first.
    Uuid(u128),
    /// As many bytes as the column's kind says.
    Fixed(Octets),
    /// Any number of bytes.
    Binary(Octets),
}

/// A datum whose text or bytes are borrowed.
#[derive(Clone, Copy, Debug)]
pub enum DatumRef<'a> {
    /// No value.
    Null,
    /// A truth value.
    Boolean(bool),
    /// A whole number of 32 bits.
    Int(i32),
    /// A whole number of 64 bits.
    Long(i64),
    /// Days since 1970-01-01.
    Date(i32),
    /// Microseconds since midnight.
    Time(i64),
    /// Microseconds since 1970-01-01, in no time zone.
    Timestamp(i64),
    /// Microseconds since 1970-01-01 in UTC.
    TimestampTz(i64),
    /// A text.
    Text(&'a str),
    /// An identifier, as the number that its 16 bytes are, high byte first.
    Uuid(u128),
    /// As many bytes as the column's kind says.
    Fixed(&'a [u8]),
    /// Any number of bytes.
    Binary(&'a [u8]),
}

impl Datum {
    /// The same datum, borrowed.
    pub fn borrowed(&self) -> DatumRef<'_>
        ensures { seen result ≡ self.now }
    {
        match self {
            Datum::Null => DatumRef::Null,
            Datum::Boolean(b) => DatumRef::Boolean(*b),
            Datum::Int(n) => DatumRef::Int(*n),
            Datum::Long(n) => DatumRef::Long(*n),
            Datum::Date(days) => DatumRef::Date(*days),
            Datum::Time(time) => DatumRef::Time(*time),
            Datum::Timestamp(time) => DatumRef::Timestamp(*time),
            Datum::TimestampTz(time) => DatumRef::TimestampTz(*time),
            Datum::Text(text) => DatumRef::Text(text.as_str()),
            Datum::Uuid(id) => DatumRef::Uuid(*id),
            Datum::Fixed(bytes) => DatumRef::Fixed(bytes.as_slice()),
            Datum::Binary(bytes) => DatumRef::Binary(bytes.as_slice()),
        }
    }
    /// A second datum, with memory of its own.
    pub fn copy(&self, alloc: Global) -> Result<Datum, NoMemory>
        ensures { IfOk result (λ copy. copy ≡ self.now) }
    {
        self.borrowed().to_owned(alloc)
    }
}

impl DatumRef<'_> {
    /// The same datum, with memory of its own.
    pub fn to_owned(&self, alloc: Global) -> Result<Datum, NoMemory>
        ensures { IfOk result (λ datum. datum ≡ seen self.now) }
    {
        match self {
            DatumRef::Null => Ok(Datum::Null),
            DatumRef::Boolean(b) => Ok(Datum::Boolean(*b)),
            DatumRef::Int(n) => Ok(Datum::Int(*n)),
            DatumRef::Long(n) => Ok(Datum::Long(*n)),
            DatumRef::Date(days) => Ok(Datum::Date(*days)),
            DatumRef::Time(time) => Ok(Datum::Time(*time)),
            DatumRef::Timestamp(time) => Ok(Datum::Timestamp(*time)),
            DatumRef::TimestampTz(time) => Ok(Datum::TimestampTz(*time)),
            DatumRef::Text(text) => Ok(Datum::Text(Text::from_str(alloc, text)?)),
            DatumRef::Uuid(id) => Ok(Datum::Uuid(*id)),
            DatumRef::Fixed(bytes) => Ok(Datum::Fixed(Octets::from_slice(alloc, bytes)?)),
            DatumRef::Binary(bytes) => Ok(Datum::Binary(Octets::from_slice(alloc, bytes)?)),
        }
    }
}
