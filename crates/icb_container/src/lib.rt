//! Avro object container files: what a file holds, step by step over any reader, and writing.
#![tactic(auto)]

mod block;
mod container;
mod fault;
mod found;
mod laws;
mod numbers;
mod opening;
mod pieces;
mod properties;
mod records;
mod schema;
mod writing;

pub use block::Block;
pub use container::{Container, Spot};
pub use fault::ContainerFault;
pub use laws::{answers_hold_over_more, less_is_answered_alike, steps_agree};
pub use writing::write_container;
