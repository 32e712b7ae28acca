//! Counter blocks, tags and sums, of which a seal is made (NIST SP 800-38D, 6.2 and section 7).

ghost use Rattle.std.specs.Prelude.{◌≡◌, ℕ, ◌+◌, ◌*◌, ◌/◌, ◌%◌, ◌^◌, ◌<◌, ◌≤◌, ◌↔◌, ◌++◌, List, length, take, drop, replicate, IsTrue};
ghost use Rattle.icb_aes.specs.Fips197.{cipher};
ghost use Rattle.icb_ghash.specs.Ghash.{polynomial};
ghost use Rattle.icb_gcm.specs.Gcm.{added, bit_length, counter_block, tag_of};

use icb_ghash::{Ghash, HashKey};
use std::simd::u8x16;

/// The ciphertext and the tag are no seal under this key, nonce and additional data.
#[derive(Clone, Copy, Debug, PartialEq, Eq)]
pub struct NotAuthentic;

/// Adds the others to the bytes, bit by bit.
pub(crate) fn add(bytes: &mut [u8], others: &[u8])
    requires { length bytes.old ≤ length others.now }
    ensures { bytes.new ≡ added bytes.old others.now }
{
    for i in 0..bytes.len() {
        bytes[i] ^= others[i];
    }
}

/// Counter block `j`.
#[tactic(auto, unfolding(crate::specs::Gcm::counter_block))]
pub(crate) fn counter_block(nonce: &[u8; 12], j: u32) -> [u8; 16]
    ensures { result ≡ counter_block nonce.now j }
{
    let mut block = [0; 16];
    block[..12].copy_from_slice(nonce);
    block[12..].copy_from_slice(&j.to_be_bytes());
    block
}

/// Adds the pad to a whole block.
pub(crate) fn add_to_block(block: &mut [u8], pad: [u8; 16])
    requires { length block.old ≡ 16 }
    ensures { block.new ≡ added block.old pad }
{
    let mut bytes = [0; 16];
    bytes.copy_from_slice(block);
    let sum = u8x16::from_array(bytes) ^ u8x16::from_array(pad);
    block.copy_from_slice(&sum.to_array());
}

/// A number of bytes as a number of bits, modulo 2^64.
#[tactic(auto, unfolding(crate::specs::Gcm::bit_length))]
fn bit_length(n: usize) -> [u8; 8]
    ensures { result ≡ bit_length n }
{
    (n as u64).wrapping_mul(8).to_be_bytes()
}

/// The last block that the tag hashes.
fn lengths(aad: &[u8], ciphertext: &[u8]) -> [u8; 16]
    ensures { result ≡ bit_length (length aad.now) ++ bit_length (length ciphertext.now) }
{
    let mut block = [0; 16];
    block[..8].copy_from_slice(&bit_length(aad.len()));
    block[8..].copy_from_slice(&bit_length(ciphertext.len()));
    block
}

/// The tag of the ciphertext, by the hash key and the pad of the tag.
pub(crate) fn tag_of(hash_key: &HashKey, pad: &[u8; 16], aad: &[u8], ciphertext: &[u8]) -> [u8; 16]
    ensures { (key nonce : List ℕ)
        → hash_key.now ≡ polynomial (cipher key (replicate 16 0))
        → pad.now ≡ cipher key (counter_block nonce 1)
        → result ≡ tag_of key nonce aad.now ciphertext.now }
{
    let mut hash = Ghash::new(hash_key);
    hash.update(aad);
    hash.update(ciphertext);
    hash.update(&lengths(aad, ciphertext));
    let mut tag = hash.finish();
    add(&mut tag, pad);
    tag
}

/// Reads every byte, wherever the first difference is.
pub(crate) fn is_same(tag: &[u8; 16], other: &[u8; 16]) -> bool
    ensures { IsTrue result ↔ (tag.now ≡ other.now) }
{
    let mut difference = 0;
    for i in 0..16usize {
        difference |= tag[i] ^ other[i];
    }
    difference == 0
}
