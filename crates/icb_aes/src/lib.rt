//! The AES block cipher (FIPS 197) for keys of 16, 24 and 32 bytes.
#![tactic(auto)]

mod circuit;
pub mod examples;
mod key;
pub mod laws;
mod planes;
mod schedule;
mod sliced;
mod tables;
mod transposition;

pub use key::{AesKey, KeyLength};
pub use sliced::SlicedKey;
