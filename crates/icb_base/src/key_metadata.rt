//! What key metadata says of one file: its key, the prefix of its additional data, its length.
ghost use Rattle.std.specs.Prelude.{◌≡◌, ◌≤◌, ◌<◌, ◌^◌, ◌↔◌, ℕ, false, length, IfOk, IfErr, IfSome, IsTrue, Option, Some, None, option_map};
ghost use Rattle.std.specs.Option.{ForSome};
ghost use Rattle.icb_base.specs.KeyMetadata.{IsKeyRecord, is_key_length};

use crate::byte_list::{Bytes, NoMemory};
use std::alloc::Global;
use std::marker::Model;
use thiserror::Error;

/// Why there is no key metadata of these parts.
#[derive(Debug, Drop, Error)]
pub enum KeyMetaFault {
    /// The key hasn't 16, 24 or 32 bytes.
    #[error("a key of {found} bytes is no AES key")]
    KeyLength {
        /// How many bytes it has.
        found: usize,
    },
    /// No memory was left.
    #[error("no memory is left")]
    NoMemory,
}

/// A file's key, the prefix of its blocks' additional data, and its length in bytes, the last two
/// where they are told. An absent prefix counts as the empty one in additional data.
#[derive(Debug, Drop)]
pub struct KeyMeta {
    key: Bytes,
    prefix: Option<Bytes>,
    file_length: Option<u64>,
}

impl Model for KeyMeta {
    ghost use Rattle.icb_base.specs.KeyMetadata.{IsKeyRecord, KeyRecord};

    ghost Value = { KeyRecord };

    ghost view = { λ meta. record { key = meta.key; prefix = meta.prefix; length_told = meta.file_length } };

    ghost invariant = { λ meta. IsKeyRecord meta.key meta.file_length };
}

impl KeyMeta {
    /// Key metadata of these parts. `file_length` is the file's, in bytes, below 2^63.
    pub fn new(
        alloc: Global,
        key: &[u8],
        prefix: Option<&[u8]>,
        file_length: Option<u64>,
    ) -> Result<KeyMeta, KeyMetaFault>
        requires { ForSome file_length (λ n. n < 2 ^ 63) }
        ensures meta { IfOk result (λ meta. (meta.key ≡ key.now)
            × (meta.prefix ≡ option_map (λ bytes. bytes.now) prefix.entry)
            × (meta.length_told ≡ file_length)) }
        ensures key_length_exactly { (found : ℕ) → (result ≡ Err (KeyMetaFault.KeyLength found))
            ↔ ((is_key_length (length key.now) ≡ false) × (found ≡ length key.now)) }
    {
        if !matches!(key.len(), 16 | 24 | 32) {
            return Err(KeyMetaFault::KeyLength { found: key.len() });
        }
        let Ok(key) = Bytes::from_slice(alloc, key) else {
            return Err(KeyMetaFault::NoMemory);
        };
        let Ok(prefix) = copy_of_prefix(alloc, prefix) else {
            return Err(KeyMetaFault::NoMemory);
        };
        Ok(KeyMeta {
            key,
            prefix,
            file_length,
        })
    }

    /// The key's bytes.
    pub fn key(&self) -> &[u8]
        ensures key { result.now ≡ self.now.key }
        ensures form { IsKeyRecord self.now.key self.now.length_told }
    {
        self.key.as_slice()
    }

    /// The prefix, where it is told.
    pub fn prefix(&self) -> Option<&[u8]>
        ensures { option_map (λ bytes. bytes.now) result ≡ self.now.prefix }
    {
        match &self.prefix {
            Some(prefix) => Some(prefix.as_slice()),
            None => None,
        }
    }

    /// The file's length in bytes, below 2^63, where it is told.
    pub fn length(&self) -> Option<u64>
        ensures length { result ≡ self.now.length_told }
        ensures form { IsKeyRecord self.now.key self.now.length_told }
    {
        self.file_length
    }

    /// The same key and prefix with this length, below 2^63.
    pub fn with_length(self, length: u64) -> KeyMeta
        requires { length < 2 ^ 63 }
        ensures { result ≡ record self { length_told = Some length } }
    {
        let KeyMeta {
            key,
            prefix,
            file_length: _,
        } = self;
        KeyMeta {
            key,
            prefix,
            file_length: Some(length),
        }
    }
}

/// A prefix of its own with the same bytes.
fn copy_of_prefix(alloc: Global, prefix: Option<&[u8]>) -> Result<Option<Bytes>, NoMemory>
    ensures { IfOk result (λ copy. copy ≡ option_map (λ bytes. bytes.now) prefix.entry) }
{
    match prefix {
        Some(bytes) => Ok(Some(Bytes::from_slice(alloc, bytes)?)),
        None => Ok(None),
    }
}
