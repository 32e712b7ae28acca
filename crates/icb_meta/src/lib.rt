//! Iceberg table metadata, read and written, with all members that aren't known kept.
#![tactic(auto)]

mod distinct;
mod entry_list;
mod fault;
mod fields;
mod ids;
mod keys;
mod lookup;
mod members;
mod orders;
mod plain;
mod reading;
mod records;
mod schemas;
mod snapshots;
mod table;

pub use entry_list::KeyEntries;
pub use fault::MetaFault;
pub use fields::{Fields, Heading, Layout, State};
pub use members::is_location;
pub use records::{KeyEntry, NewTable, Snapshot};
pub use table::TableMeta;
