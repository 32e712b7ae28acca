//! Why a text is no keyring, and why a key isn't opened.

use icb_schema::Text;
use std::alloc::AllocError;
use thiserror::Error;

/// Why a text is no keyring.
#[derive(Debug, Drop, Error)]
pub enum KeyringFault {
    /// More than 1,000 lines aren't empty.
    #[error("more than 1000 keys")]
    Many,
    /// A line isn't in the form `id=hex`, or its id stood before.
    #[error("line {line} is no key")]
    BadKeyring {
        /// The first such line's number, from 1.
        line: u64,
    },
    /// No memory was left.
    #[error("no memory is left")]
    NoMemory,
}

impl From<AllocError> for KeyringFault {
    ghost use Rattle.std.specs.Prelude.{◌≡◌};
    ghost use Rattle.icb_chain.specs.declared.fault.KeyringFault.TheVariants as variant;

    ghost from_gives = { λ _ fault. fault ≡ variant.NoMemory };

    fn from(_: AllocError) -> Self {
        KeyringFault::NoMemory
    }
}

/// Why a key isn't opened.
#[derive(Debug, Drop)]
pub enum ChainFault {
    /// The id isn't that of an entry of the needed kind, or of a master in the keyring.
    NoKey {
        /// The id that was looked up.
        id: Text,
    },
    /// The entry names no master, doesn't open, or opens to something else than it is to hold.
    KeyRefused {
        /// The entry's id.
        id: Text,
    },
    /// No memory was left.
    NoMemory,
}
