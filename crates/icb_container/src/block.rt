//! A block of records as bytes.
use icb_schema::Octets;

/// A block of a container.
#[derive(Debug, Drop)]
pub struct Block {
    /// The number of its first record in the file, from 0.
    pub first: u64,
    /// How many records it has.
    pub count: u64,
    /// Where its records begin, in bytes from the file's first.
    pub place: u64,
    /// The records, one after another.
    pub bytes: Octets,
}
