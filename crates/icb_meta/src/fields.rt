//! The record that table metadata shows (Apache Iceberg Table Spec, "Table Metadata Fields").
use crate::records::{KeyEntry, Snapshot};
use icb_schema::Text;
use icb_types::TableSchema;
use sqlite_items::Items;

/// What the table is and how far it has come.
#[derive(Debug, Drop)]
pub struct Heading {
    /// Its identifier, as the number that its 16 bytes are, high byte first.
    pub uuid: u128,
    /// Where it is.
    pub location: Text,
    /// The greatest sequence number.
    pub last_sequence: i64,
    /// When it was last changed, in milliseconds since 1970-01-01 in UTC.
    pub updated: i64,
}

/// How rows are laid out.
#[derive(Debug, Drop)]
pub struct Layout {
    /// The current schema.
    pub schema: TableSchema,
    /// The default partition spec's id.
    pub spec: i32,
    /// The default partition spec has fields.
    pub partitioned: bool,
    /// The default sort order has fields.
    pub sorted: bool,
}

/// What the table holds.
#[derive(Debug, Drop)]
pub struct State {
    /// Texts by their names, in the order of the names' bytes.
    pub properties: Items<(Text, Text)>,
    /// The snapshots, in order.
    pub snapshots: Items<Snapshot>,
    /// The current snapshot's id.
    pub current: Option<i64>,
    /// The id of the next row.
    pub next_row: i64,
    /// The sealed keys, in order.
    pub entries: Items<KeyEntry>,
}

/// All that the metadata shows.
#[derive(Debug, Drop)]
pub struct Fields {
    /// What the table is.
    pub heading: Heading,
    /// How rows are laid out.
    pub layout: Layout,
    /// What it holds.
    pub state: State,
}
