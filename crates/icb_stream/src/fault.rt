//! Why a stream isn't opened or read.

use thiserror::Error;

/// Why a stream isn't opened, or a range of it isn't read, in the order in which it is tested.
///
/// `BadLength` comes twice: before the store is asked, where the recorded length has no room for a
/// header and an empty block, and after `BlockLength`, where the file isn't cut into such blocks.
#[derive(Clone, Copy, Debug, PartialEq, Eq, Error)]
pub enum StreamFault {
    /// No stream has the recorded length, or none of this block length has it.
    #[error("a stream of {length} bytes isn't cut into blocks")]
    BadLength {
        /// The recorded length.
        length: u64,
    },
    /// A call of the store failed.
    #[error("the store failed")]
    Store,
    /// Nothing is held at the path.
    #[error("the object isn't there")]
    Missing,
    /// The object has fewer bytes than the recorded length.
    #[error("the object has {size} bytes, fewer than its recorded length")]
    Short {
        /// How many bytes it has.
        size: u64,
    },
    /// The first four bytes aren't AGS1.
    #[error("the object doesn't begin with the magic of a stream")]
    Magic {
        /// The bytes found.
        found: [u8; 4],
    },
    /// The header's block length isn't 1 to 16,777,216.
    #[error("no block has {found} bytes")]
    BlockLength {
        /// The block length found.
        found: u32,
    },
    /// No memory was left.
    #[error("no memory is left")]
    NoMemory,
    /// A cipher block doesn't open under the key metadata.
    #[error("block {number} doesn't open")]
    Block {
        /// The block's number, from 0.
        number: u32,
    },
}
