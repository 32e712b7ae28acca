//! What the elements of table metadata are: snapshots and entries of keys.
use icb_schema::{Octets, Text};
use icb_types::TableSchema;
use sqlite_items::Items;

/// A state of the table (Apache Iceberg Table Spec, "Snapshots").
#[derive(Debug, Drop)]
pub struct Snapshot {
    /// Its id.
    pub id: i64,
    /// The id of the snapshot that it was made from.
    pub parent: Option<i64>,
    /// Its sequence number.
    pub sequence: i64,
    /// When it was made, in milliseconds since 1970-01-01 in UTC.
    pub ms: i64,
    /// Where its manifest list is.
    pub list: Text,
    /// What was done, from its summary.
    pub operation: Text,
    /// The id of the schema that was current.
    pub schema: Option<i32>,
    /// The id of the first row that it added.
    pub first_row: Option<i64>,
    /// How many row ids it took.
    pub added: Option<i64>,
    /// The id of the entry that holds its manifest list's key.
    pub key: Option<Text>,
}

/// A sealed key (Apache Iceberg Table Spec, "Encryption Keys").
#[derive(Debug, Drop)]
pub struct KeyEntry {
    /// The key's id.
    pub id: Text,
    /// The sealed bytes.
    pub sealed: Octets,
    /// The id of the key that sealed it.
    pub by: Option<Text>,
    /// Texts by their names.
    pub properties: Items<(Text, Text)>,
}

/// What a new table is made of.
#[derive(Debug, Drop)]
pub struct NewTable {
    /// Its schema.
    pub schema: TableSchema,
    /// Where it is: not empty, and without `/` at its end.
    pub location: Text,
    /// Its properties: texts by their names.
    pub properties: Items<(Text, Text)>,
}
