//! Key metadata as bytes: which bytes they are, reading them, and writing them.
#![tactic(auto)]

mod decoding;
mod encoding;
mod fault;
mod laws;

pub use decoding::decode;
pub use encoding::encode;
pub use fault::DecodeFault;
pub use laws::decoding_is_spelling;
