//! The outside as a command gets it: one value for all of its parts.
use icb_base::{Draws, Sink, Source, Store};

/// The parts of the outside that a command may use. Which of them it uses its clause says.
#[derive(Drop)]
pub struct Parts<
    't,
    'g,
    'i,
    'k,
    'm,
    'd,
    'o,
    S: Store,
    G: Store,
    I: Source,
    K: Source,
    M: Source,
    D: Draws,
    O: Sink,
> {
    /// The table.
    pub table: &'t mut S,
    /// The store that an audit compares the table with.
    pub genuine: &'g mut G,
    /// What a command takes in.
    pub input: &'i mut I,
    /// The keyring.
    pub keys: &'k mut K,
    /// Table metadata from elsewhere.
    pub trusted: &'m mut M,
    /// Random bytes.
    pub draws: &'d mut D,
    /// The time, in milliseconds since 1970, below 2^63.
    pub now_ms: u64,
    /// What a command writes.
    pub out: &'o mut O,
}
