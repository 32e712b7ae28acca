//! GHASH, the hash of AES-GCM (NIST SP 800-38D, 6.3 and 6.4), without memory.
#![tactic(auto)]

mod field;
mod hash;
mod key;
pub mod laws;
mod places;

pub use hash::Ghash;
pub use key::HashKey;
