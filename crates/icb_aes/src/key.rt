//! A key with its schedule, and the cipher of a block under it.

ghost use Rattle.std.specs.Prelude.{◌≡◌, ◌<◌, ◌↔◌, length, map, All, IsOk, IfOk, IfErr};
ghost use Rattle.icb_aes.specs.Columns.{word_of};
ghost use Rattle.icb_aes.specs.Fips197.{IsKeyLength, cipher};
ghost use Rattle.icb_aes.specs.Stored.{stored_words};

use crate::schedule::{MAX_WORDS, expand};
use crate::sliced::SlicedKey;
use std::marker::Model;

/// No key: its length, in bytes, isn't 16, 24 or 32.
#[derive(Clone, Copy, Debug, PartialEq, Eq)]
pub struct KeyLength {
    pub found: usize,
}

/// A key of 16, 24 or 32 bytes, with its key schedule.
#[derive(Clone, Copy)]
pub struct AesKey {
    length: usize,
    // The key, and then zeros.
    bytes: [u8; 32],
    // The key schedule, and then zeros.
    words: [u32; MAX_WORDS],
}

impl Model for AesKey {
    ghost use Rattle.std.specs.Prelude.{List, ℕ, take};

    ghost Value = { List ℕ };

    ghost use Rattle.icb_aes.specs.KeyLaw.{fields_determined};
    ghost use Rattle.icb_aes.specs.Key.{IsKeyInside, inside_of};

    ghost view = { λ k. take k.length k.bytes };

    ghost invariant = { IsKeyInside };

    ghost inverse = { inside_of };

    ghost inverse_ok = { fields_determined };
}

impl AesKey {
    /// The key with these bytes. Refuses a length other than 16, 24 or 32.
    pub fn new(bytes: &[u8]) -> Result<AesKey, KeyLength>
        ensures ok_exactly { IsOk result ↔ IsKeyLength (length bytes.now) }
        ensures key { IfOk result (λ key. key ≡ bytes.now) }
        ensures refused { IfErr result (λ e. e.found ≡ length bytes.now) }
    {
        let found = bytes.len();
        if found == 16 || found == 24 || found == 32 {
            Ok(AesKey::expanded(bytes))
        } else {
            Err(KeyLength { found })
        }
    }

    /// The key with its schedule.
    fn expanded(bytes: &[u8]) -> AesKey
        requires { IsKeyLength (length bytes.now) }
        ensures { result ≡ bytes.now }
    {
        let length = bytes.len();
        let mut stored = [0u8; 32];
        stored[..length].copy_from_slice(bytes);
        let words = expand(bytes);
        AesKey {
            length,
            bytes: stored,
            words,
        }
    }

    /// The bytes that `new` was given.
    pub fn bytes(&self) -> &[u8]
        ensures bytes { result.now ≡ self.now }
        ensures length { IsKeyLength (length self.now) }
        ensures are_bytes { All (λ b. b < 256) self.now }
    {
        &self.bytes[..self.length]
    }

    /// The words of the schedule, and then zeros.
    pub(crate) fn words(&self) -> &[u32; MAX_WORDS]
        ensures words { map word_of result.now ≡ stored_words self.now }
        ensures length { IsKeyLength (length self.now) }
        ensures are_bytes { All (λ b. b < 256) self.now }
    {
        &self.words
    }

    /// Replaces the block by its cipher (FIPS 197, 5.1). It is one of eight, and the others go unused.
    pub fn encrypt_block(&self, block: &mut [u8; 16])
        ensures { block.new ≡ cipher self.now block.old }
    {
        let ciphers = SlicedKey::new(self).encrypt(&[*block; 8]);
        *block = ciphers[0];
    }
}
