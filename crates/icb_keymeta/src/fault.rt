//! Why bytes are no key metadata.

/// Why there is no key metadata of these bytes.
#[derive(Clone, Copy, Debug, PartialEq, Eq)]
pub enum DecodeFault {
    /// The bytes aren't key metadata.
    BadKeyMeta {
        /// Where the first refused item begins, in bytes from the first.
        place: u64,
    },
    /// No memory was left.
    NoMemory,
}
