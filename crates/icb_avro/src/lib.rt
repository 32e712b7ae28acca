//! Avro values: which bytes spell them, reading with the first fault named, and writing.
#![tactic(auto)]

mod blocks;
mod cursor;
mod encoding;
mod fault;
mod laws;
mod leaves;
mod making;
mod numbers;
mod parts;
mod skipping;
mod value;

pub use cursor::Cursor;
pub use encoding::encode;
pub use fault::{AvroCause, AvroFault, ValueFault};
pub use laws::{reading_is_spelling, writing_is_spelling};
pub use value::Value;
