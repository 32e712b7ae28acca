//! The sealer of one file's blocks, in order, each under a nonce of its own.

ghost use Rattle.std.specs.Prelude.{◌≡◌, ◌+◌, ◌^◌, ◌<◌, ◌≤◌, [], ◌∷◌, ◌++◌, length, take, IfOk, Some};
ghost use Rattle.icb_seal.specs.Block.{sealed_block};
ghost use Rattle.icb_seal.specs.Keys.{IsFileKey, NoneTwice, nonces_of};

use crate::cipher_block::{NUMBER, SEED, nonce_of, seal_cipher_block, set_number};
use icb_aes::AesKey;
use icb_base::{KeyMeta, NoMemory};
use icb_gcm::GcmKey;
use std::alloc::Global;
use std::marker::Model;

/// The key and prefix of one file, and the number of its next block. It is no `Drop`: one that is
/// neither finished nor abandoned doesn't compile.
#[must_use]
pub struct Sealer {
    key: GcmKey,
    seed: [u8; SEED],
    /// The key metadata of the file, but for its length.
    meta: KeyMeta,
    /// The prefix, and then the four bytes of a block's number.
    aad: Vec<u8>,
    next_number: u32,
}

impl Model for Sealer {
    ghost use Rattle.icb_seal.specs.Keys.{IsSealerInside, SealerValue, prefix_inside};

    ghost Value = { SealerValue };

    ghost view = { λ s. record {
      key = s.key;
      prefix = prefix_inside s.aad.items;
      seed = s.seed;
      next = s.next_number;
    } };

    ghost invariant = { λ s. IsSealerInside s.key s.meta s.aad.items };
}

impl Sealer {
    /// The sealer of a file's blocks from block 0 on.
    pub(crate) fn new(
        alloc: Global,
        key: &AesKey,
        seed: [u8; SEED],
        prefix: &[u8],
    ) -> Result<Sealer, NoMemory>
        ensures ok { IfOk result (λ sealer. sealer
            ≡ record { key = key.now; prefix = prefix.now; seed = seed; next = 0 }) }
        ensures is_file_key { IfOk result (λ sealer. IsFileKey sealer.key sealer.seed) }
    {
        let Ok(meta) = KeyMeta::new(alloc, key.bytes(), Some(prefix), None) else {
            return Err(NoMemory);
        };
        let mut aad = prefix.to_vec(alloc)?;
        aad.extend_from_slice(&[0; NUMBER])?;
        Ok(Sealer {
            key: GcmKey::new(key),
            seed,
            meta,
            aad,
            next_number: 0,
        })
    }

    /// The number of the block that comes next, from 0 on.
    pub fn next(&self) -> u32
        ensures { result ≡ self.now.next }
    {
        self.next_number
    }

    /// Writes the next block of the file: the nonce, the ciphertext and the tag. It takes no memory.
    pub fn seal_block(&mut self, plain: &[u8], out: &mut [u8])
        requires room { length out.old ≡ length plain.now + 28 }
        requires small { length plain.now ≤ 16777216 }
        requires number { self.old.next < 2 ^ 31 }
        ensures block { let s = self.old in
            sealed_block s.key s.prefix s.seed s.next plain.now ≡ Some out.new }
        ensures rises { self.new ≡ record self.old { next = self.old.next + 1 } }
        ensures nonces { nonces_of self.new ≡ nonces_of self.old ++ take 12 out.new ∷ [] }
        ensures no_nonce_twice { NoneTwice (nonces_of self.new) }
    {
        let nonce = nonce_of(&self.seed, self.next_number);
        set_number(&mut self.aad, self.next_number);
        seal_cipher_block(&self.key, &nonce, self.aad.as_slice(), plain, out);
        self.next_number += 1;
    }

    /// The key metadata of the file, which has this length in bytes. It takes no memory.
    pub fn finish(self, length: u64) -> KeyMeta
        requires { length < 2 ^ 63 }
        ensures { result
            ≡ record { key = self.key; prefix = Some self.prefix; length_told = Some length } }
    {
        let Sealer {
            key: _,
            seed: _,
            meta,
            aad: _,
            next_number: _,
        } = self;
        meta.with_length(length)
    }

    /// Gives the file up.
    pub fn abandon(self) {
        let Sealer {
            key: _,
            seed: _,
            meta: _,
            aad: _,
            next_number: _,
        } = self;
    }
}
