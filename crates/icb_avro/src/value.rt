//! A value, as the schema's node has it.
use icb_schema::{Octets, Text};
use sqlite_items::{Boxed, Items};

/// A value (Apache Avro 1.11, "Schema Declaration").
#[derive(Debug, Drop)]
pub enum Value {
    /// The value of null.
    Null,
    /// A truth value.
    Boolean(bool),
    /// A whole number of 32 bits.
    Int(i32),
    /// A whole number of 64 bits.
    Long(i64),
    /// The bytes of a floating point number of 32 bits.
    Float([u8; 4]),
    /// The bytes of a floating point number of 64 bits.
    Double([u8; 8]),
    /// Bytes.
    Bytes(Octets),
    /// A text.
    Text(Text),
    /// The bytes of a fixed type.
    Fixed(Octets),
    /// The number of a symbol, from 0.
    Enum(u32),
    /// A value for each field.
    Record(Items<Value>),
    /// The items.
    Array(Items<Value>),
    /// The entries, in order; a key may stand twice.
    Map(Items<(Text, Value)>),
    /// The number of a branch, from 0, and its value.
    Union(u32, Boxed<Value>),
}
