//! A schema's nodes, as the store sees them.
use crate::lists::{Names, Text};
use sqlite_items::{Boxed, Items};

/// A schema or a part of one: its kind and its attributes.
#[cycle(node)]
#[derive(Debug, Drop)]
pub struct Node {
    /// What its values are.
    pub kind: Kind,
    /// The attribute `logicalType`.
    pub logical: Option<Text>,
    /// The attribute `adjust-to-utc`.
    pub utc: Option<bool>,
}

/// What the values of a node are (Apache Avro, "Schema Declaration"). Names of types are full names.
#[cycle(node)]
#[derive(Debug, Drop)]
pub enum Kind {
    /// No value.
    Null,
    /// A truth value.
    Boolean,
    /// A whole number of 32 bits.
    Int,
    /// A whole number of 64 bits.
    Long,
    /// A floating point number of 32 bits.
    Float,
    /// A floating point number of 64 bits.
    Double,
    /// Bytes, as many as are said.
    Bytes,
    /// A text.
    Text,
    /// Always as many bytes.
    Fixed {
        /// The type's full name.
        name: Text,
        /// How many bytes.
        size: u32,
    },
    /// One of the symbols.
    Enum {
        /// The type's full name.
        name: Text,
        /// The symbols, in order.
        symbols: Names,
    },
    /// A value for each field.
    Record {
        /// The type's full name.
        name: Text,
        /// The fields, in order.
        fields: Items<Field>,
    },
    /// Any number of values of one schema.
    Array {
        /// The schema of the values.
        items: Boxed<Node>,
        /// The attribute `element-id`.
        element: Option<i32>,
    },
    /// Any number of pairs of a text and a value of one schema.
    Map {
        /// The schema of the values.
        values: Boxed<Node>,
        /// The attribute `key-id`.
        key: Option<i32>,
        /// The attribute `value-id`.
        value: Option<i32>,
    },
    /// A value of one of the branches.
    Union {
        /// The branches, in order.
        branches: Items<Node>,
    },
}

/// A field of a record.
#[cycle(node)]
#[derive(Debug, Drop)]
pub struct Field {
    /// The field's name.
    pub name: Text,
    /// The attribute `field-id`.
    pub id: Option<i32>,
    /// The schema of its value.
    pub node: Node,
}
