//! The columns of a table (Apache Iceberg Table Spec, "Schemas and Data Types").
use icb_schema::Text;
use sqlite_items::Items;

/// What the values of a column are.
#[derive(Clone, Copy, Debug, PartialEq, Eq)]
pub enum ColType {
    /// A truth value.
    Boolean,
    /// A whole number of 32 bits.
    Int,
    /// A whole number of 64 bits.
    Long,
    /// Days since 1970-01-01.
    Date,
    /// Microseconds since midnight.
    Time,
    /// Microseconds since 1970-01-01, in no time zone.
    Timestamp,
    /// Microseconds since 1970-01-01 in UTC.
    TimestampTz,
    /// A text in UTF-8.
    Text,
    /// A universally unique identifier.
    Uuid,
    /// So many bytes.
    Fixed(u32),
    /// Any number of bytes.
    Binary,
}

/// A column of a table.
#[derive(Debug, Drop)]
pub struct Column {
    /// The number by which data files know it, above 0.
    pub id: i32,
    /// Its name.
    pub name: Text,
    /// What its values are.
    pub kind: ColType,
    /// It has a value in each row.
    pub required: bool,
}

/// A schema of a table: its number and its columns, in order.
#[derive(Debug, Drop)]
pub struct TableSchema {
    /// The schema's number.
    pub id: i32,
    /// 1 to 1,000 columns, whose ids and names are distinct.
    pub columns: Items<Column>,
}
