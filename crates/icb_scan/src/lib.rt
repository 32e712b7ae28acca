//! The rows that a query chooses of a snapshot, printed to a sink over whatever a store holds.
#![tactic(auto)]

mod begin;
mod below;
mod bounds;
mod columns;
mod fault;
mod leaf;
mod plan;
mod query;
mod scanning;

pub use fault::ScanFault;
pub use query::{Query, RangeWords};
pub use scanning::scan;
