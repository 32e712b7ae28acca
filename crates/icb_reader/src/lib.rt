//! The records of a container, read one by one over any reader.
#![tactic(auto)]

mod fault;
mod filled;
mod front;
mod laws;
mod records;

pub use fault::RecordsFault;
pub use laws::{less_is_answered_alike, records_hold_over_more};
pub use records::Records;
