//! Reading the keyring that a command is given.
ghost use Rattle.std.specs.Prelude.{◌≡◌, Err, IfSome};
ghost use Rattle.icb_base.specs.Causes.{Blames};
ghost use Rattle.icb_run.specs.Keyrings.{ReadsKeyring, status_of_keys};

use crate::input::{ReadFault, read_to_end};
use crate::status::Status;
use icb_base::{Limited, Source};
use icb_chain::{Keyring, KeyringFault};
use std::alloc::Global;

/// The most bytes that a keyring may have.
const KEYRING_LIMIT: u64 = 1048576;

/// The most keys that it may have.
const MOST_KEYS: u64 = 1000;

/// Why there is no keyring.
#[derive(Clone, Copy, Debug, PartialEq, Eq)]
pub enum KeysFault {
    /// A read failed.
    Input,
    /// There are more bytes or keys than this limit.
    Limit {
        /// The limit.
        number: u64,
    },
    /// A line isn't in its form.
    BadKeyring {
        /// The first such line's number, from 1.
        line: u64,
    },
    /// No memory was left.
    NoMemory,
}

/// Reads the keyring to its end, or to one byte past its limit.
pub fn read_keyring<K: Source>(alloc: Global, keys: &mut K) -> Result<Keyring, KeysFault>
    ensures read { IfSome (K.left keys.old) (λ text.
        ReadsKeyring text (K.left keys.new) result) }
    ensures count { Blames (result ≡ Err KeysFault.Input) (K.faults keys.old) (K.faults keys.new) }
{
    let text = match read_to_end(alloc, keys, KEYRING_LIMIT as usize) {
        Ok(text) => text,
        Err(ReadFault::Input) => return Err(KeysFault::Input),
        Err(ReadFault::Limit) => return Err(KeysFault::Limit {
            number: KEYRING_LIMIT,
        }),
        Err(ReadFault::NoMemory) => return Err(KeysFault::NoMemory),
    };
    match Keyring::read(alloc, text.as_slice()) {
        Ok(ring) => Ok(ring),
        Err(KeyringFault::Many) => Err(KeysFault::Limit { number: MOST_KEYS }),
        Err(KeyringFault::BadKeyring { line }) => Err(KeysFault::BadKeyring { line }),
        Err(KeyringFault::NoMemory) => Err(KeysFault::NoMemory),
    }
}

/// The status of why there is no keyring.
pub fn keys_status(fault: KeysFault) -> Status
    ensures { result ≡ status_of_keys fault }
{
    match fault {
        KeysFault::Input => Status::InputFault,
        KeysFault::Limit { number } => Status::Limit {
            what: Limited::Keyring,
            number,
        },
        KeysFault::BadKeyring { line } => Status::BadKeyring { line },
        KeysFault::NoMemory => Status::NoMemory,
    }
}
