//! A key that is kept for more than one text (NIST SP 800-38D, section 7).

ghost use Rattle.std.specs.Prelude.{◌≡◌, ◌-◌, ◌^◌, ◌≤◌, length, replicate, OnOk, OnErr, Some, None};
ghost use Rattle.icb_aes.specs.Fips197.{cipher};
ghost use Rattle.icb_ghash.specs.Ghash.{polynomial};
ghost use Rattle.icb_gcm.specs.Gcm.{opened, sealed};

use crate::groups::{add_key_stream, pads_of};
use crate::sealing::{NotAuthentic, is_same, tag_of};
use icb_aes::{AesKey, SlicedKey};
use icb_ghash::HashKey;
use std::marker::Model;

/// A key with what sealing and opening make of it, for more than one text.
#[derive(Drop)]
pub struct GcmKey {
    key: SlicedKey,
    hash_key: HashKey,
    ghost hash: { hash_key ≡ polynomial (cipher key (replicate 16 0)) },
}

impl Model for GcmKey {
    ghost use Rattle.std.specs.Prelude.{List, ℕ};

    ghost Value = { List ℕ };

    ghost view = { λ k. k.key };
}

/// The cipher of the block of zeros, which is the hash key (7.1, step 1).
fn cipher_of_zeros(key: &SlicedKey) -> [u8; 16]
    ensures { result ≡ cipher key.now (replicate 16 0) }
{
    let ciphers = key.encrypt(&[[0; 16]; 8]);
    ciphers[0]
}

impl GcmKey {
    /// The same key, for more than one text.
    pub fn new(key: &AesKey) -> GcmKey
        ensures { result ≡ key.now }
    {
        let key = SlicedKey::new(key);
        let hash_key = HashKey::for_many(cipher_of_zeros(&key));
        GcmKey { key, hash_key }
    }

    /// `seal_in_place` under this key.
    pub fn seal(&self, nonce: &[u8; 12], aad: &[u8], text: &mut [u8]) -> [u8; 16]
        requires { length text.old ≤ 2 ^ 36 - 32 }
        ensures { sealed self.now nonce.now aad.now text.old ≡ Some (text.new, result) }
    {
        let pads = pads_of(&self.key, nonce, 1);
        add_key_stream(&self.key, nonce, &pads, 1, text);
        tag_of(&self.hash_key, &pads[0], aad, text)
    }

    /// `open_in_place` under this key.
    pub fn open(
        &self,
        nonce: &[u8; 12],
        aad: &[u8],
        text: &mut [u8],
        tag: &[u8; 16],
    ) -> Result<(), NotAuthentic>
        requires { length text.old ≤ 2 ^ 36 - 32 }
        ensures ok { OnOk result
            (opened self.now nonce.now aad.now text.old tag.now ≡ Some text.new) }
        ensures not_authentic { OnErr result
            (opened self.now nonce.now aad.now text.old tag.now ≡ None) }
        ensures zeros { OnErr result (text.new ≡ replicate (length text.old) 0) }
    {
        let pads = pads_of(&self.key, nonce, 1);
        let expected = tag_of(&self.hash_key, &pads[0], aad, text);
        if !is_same(&expected, tag) {
            text.fill(0);
            return Err(NotAuthentic);
        }
        add_key_stream(&self.key, nonce, &pads, 1, text);
        Ok(())
    }
}
