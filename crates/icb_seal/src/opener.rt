//! Cipher blocks by number, under a file's key and prefix.

ghost use Rattle.std.specs.Prelude.{◌≡◌, ◌-◌, ◌≤◌, length, replicate, slice_range, IfOk, IsOk, IsErr, MatchOption};
ghost use Rattle.icb_base.specs.KeyMetadata.{prefix_of};
ghost use Rattle.icb_seal.specs.Block.{KeepsEnds, opened_block};

use crate::cipher_block::{NUMBER, open_cipher_block, set_number};
use icb_aes::AesKey;
use icb_base::{KeyMeta, NoMemory};
use icb_gcm::{GcmKey, NotAuthentic};
use std::alloc::Global;
use std::marker::Model;

/// A file's key and prefix. It takes no memory once it is made.
#[derive(Drop)]
pub struct Opener {
    key: GcmKey,
    /// The prefix, and then the four bytes of a block's number.
    aad: Vec<u8>,
}

impl Model for Opener {
    ghost use Rattle.std.specs.Prelude.{◌≤◌, length};
    ghost use Rattle.icb_seal.specs.Keys.{OpenerValue, prefix_inside};

    ghost Value = { OpenerValue };

    ghost view = { λ o. record { key = o.key; prefix = prefix_inside o.aad.items } };

    ghost invariant = { λ o. 4 ≤ length o.aad.items };
}

/// The key that key metadata tells, for all blocks of its file.
fn key_of(meta: &KeyMeta) -> GcmKey
    ensures { result ≡ meta.now.key }
{
    let Ok(key) = AesKey::new(meta.key()) else {
        unreachable!();
    };
    GcmKey::new(&key)
}

impl Opener {
    /// The opener of a file's blocks. An absent prefix is the empty one.
    pub fn new(alloc: Global, meta: &KeyMeta) -> Result<Opener, NoMemory>
        ensures { IfOk result (λ opener. (opener.key ≡ meta.now.key)
            × (opener.prefix ≡ prefix_of meta.now)) }
    {
        let key = key_of(meta);
        let mut aad = meta.prefix().unwrap_or(&[]).to_vec(alloc)?;
        aad.extend_from_slice(&[0; NUMBER])?;
        Ok(Opener { key, aad })
    }

    /// Opens the cipher block of this number in place: its bytes between nonce and tag become the
    /// plaintext, or zeros where it doesn't open. Nonce and tag stay. It takes no memory.
    pub fn open_block(&mut self, number: u32, block: &mut [u8]) -> Result<(), NotAuthentic>
        requires room { 28 ≤ length block.old }
        requires small { length block.old ≤ 16777244 }
        ensures opened { MatchOption (opened_block self.old.key self.old.prefix number block.old)
            (IsErr result × (slice_range block.new 12 (length block.old - 16)
            ≡ replicate (length block.old - 28) 0))
            (λ plain. IsOk result × (slice_range block.new 12 (length block.old - 16) ≡ plain)) }
        ensures ends { KeepsEnds block.old block.new }
        ensures same { self.new ≡ self.old }
    {
        set_number(&mut self.aad, number);
        open_cipher_block(&self.key, self.aad.as_slice(), block)
    }
}
