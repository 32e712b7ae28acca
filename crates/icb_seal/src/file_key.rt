//! A file's key: drawn once, and spent on one file's blocks.

ghost use Rattle.std.specs.Prelude.{◌≡◌, length, IfOk, IfErr, IfSome, IsErr, OnErr, Some};
ghost use Rattle.icb_base.specs.Calls.{DrawsText};
ghost use Rattle.icb_seal.specs.Keys.{IsFileKey, drawn_bytes, key_bytes};

use crate::cipher_block::SEED;
use crate::sealer::Sealer;
use icb_aes::AesKey;
use icb_base::{Draws, Failed, NoMemory};
use std::alloc::Global;
use std::marker::Model;

/// How many bytes a file's key has.
#[derive(Clone, Copy, Debug, PartialEq, Eq)]
pub enum KeySize {
    /// 16 bytes: AES-128.
    Bytes16,
    /// 24 bytes: AES-192.
    Bytes24,
    /// 32 bytes: AES-256.
    Bytes32,
}

impl KeySize {
    /// How many bytes a key of this size has.
    fn bytes(self) -> usize
        ensures { result ≡ key_bytes self }
    {
        match self {
            KeySize::Bytes16 => 16,
            KeySize::Bytes24 => 24,
            KeySize::Bytes32 => 32,
        }
    }
}

/// The key of one file, and the 8 bytes with which the nonces of its blocks begin. It is no `Drop`: one
/// that is neither made into a `Sealer` nor abandoned doesn't compile.
#[must_use]
pub struct FileKey {
    key: AesKey,
    seed: [u8; SEED],
}

impl Model for FileKey {
    ghost use Rattle.std.specs.Prelude.{◌≡◌, length};
    ghost use Rattle.icb_seal.specs.Keys.{FileKeyValue};

    ghost Value = { FileKeyValue };

    ghost view = { λ k. record { key = k.key; seed = k.seed } };
}

impl FileKey {
    /// Draws a key and then the 8 bytes for nonces, in one fill: where it fails nothing is drawn. It takes no
    /// memory.
    pub fn draw<D: Draws>(draws: &mut D, size: KeySize) -> Result<FileKey, Failed>
        ensures draws { DrawsText D.Draws (drawn_bytes result) (IsErr result) draws.old draws.new }
        ensures failed { IfSome (D.drawn draws.old) (λ before.
            OnErr result (D.drawn draws.new ≡ Some before)) }
        ensures key_length { IfOk result (λ key. length key.key ≡ key_bytes size) }
        ensures seed_length { IfOk result (λ key. length key.seed ≡ 8) }
    {
        let length = size.bytes();
        let mut drawn = [0; 40];
        if draws.fill(&mut drawn[..length + SEED]).is_err() {
            return Err(Failed);
        }
        let Ok(key) = AesKey::new(&drawn[..length]) else {
            unreachable!();
        };
        let mut seed = [0; SEED];
        seed.copy_from_slice(&drawn[length..length + SEED]);
        Ok(FileKey { key, seed })
    }

    /// The sealer of the blocks of one file, whose additional data begins with this prefix. Where no
    /// memory is left, the key comes back.
    pub fn into_sealer(self, alloc: Global, prefix: &[u8]) -> Result<Sealer, (FileKey, NoMemory)>
        ensures ok { IfOk result (λ sealer. sealer
            ≡ record { key = self.key; prefix = prefix.now; seed = self.seed; next = 0 }) }
        ensures is_file_key { IfOk result (λ sealer. IsFileKey sealer.key sealer.seed) }
        ensures refused { IfErr result (λ e. e.0 ≡ self) }
    {
        match Sealer::new(alloc, &self.key, self.seed, prefix) {
            Ok(sealer) => {
                let FileKey { key: _, seed: _ } = self;
                Ok(sealer)
            }
            Err(NoMemory) => Err((self, NoMemory)),
        }
    }

    /// Gives the key up.
    pub fn abandon(self) {
        let FileKey { key: _, seed: _ } = self;
    }
}
