//! The records of Avro containers, gathered into blocks.
#![tactic(auto)]

mod gathering;
mod laws;

pub use gathering::gather;
pub use laws::blocks_hold_their_records;
