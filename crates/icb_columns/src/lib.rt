//! The JSON of a table's schema, as Iceberg writes it.
#![tactic(auto)]

mod printing;

pub use printing::{schema_json, schema_text};
