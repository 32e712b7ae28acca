//! AES-GCM with 96-bit nonces and 128-bit tags (NIST SP 800-38D), in place and without memory.
#![tactic(auto)]

pub mod examples;
mod gcm_key;
mod groups;
mod in_place;
pub mod laws;
mod sealing;

pub use gcm_key::GcmKey;
pub use in_place::{open_in_place, seal_in_place};
pub use sealing::NotAuthentic;
