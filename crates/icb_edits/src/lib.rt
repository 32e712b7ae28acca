//! Changes to the metadata of a table, which keep all members that they don't name.
#![tactic(auto)]

mod columns;
mod commits;
mod key_change;
mod keys;
mod laws;
mod old;
mod snapshots;
mod tables;
mod values;

pub use commits::with_snapshot;
pub use key_change::with_keys;
pub use laws::others_stay;
pub use tables::new_table;
