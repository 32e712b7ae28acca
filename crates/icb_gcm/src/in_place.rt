//! Sealing and opening one text in place (NIST SP 800-38D, section 7).

ghost use Rattle.std.specs.Prelude.{◌≡◌, ℕ, ◌-◌, ◌^◌, ◌<◌, ◌≤◌, [], length, replicate, OnOk, OnErr, Some, None};
ghost use Rattle.std.specs.List.{slice_index_or};
ghost use Rattle.icb_aes.specs.Fips197.{cipher};
ghost use Rattle.icb_gcm.specs.Gcm.{counter_block, opened, sealed};

use crate::groups::add_key_stream;
use crate::sealing::{NotAuthentic, counter_block, is_same, tag_of};
use icb_aes::{AesKey, SlicedKey};
use icb_ghash::HashKey;

/// The cipher of the block of zeros, which is the hash key (7.1, step 1), that of counter block 1, which is
/// the tag's, and those of the next six, which are the text's.
fn ciphers_of(key: &SlicedKey, nonce: &[u8; 12]) -> [[u8; 16]; 8]
    ensures zeros { slice_index_or result 0 [] ≡ cipher key.now (replicate 16 0) }
    ensures pads { (j : ℕ) → 1 ≤ j → j < 8
        → slice_index_or result j [] ≡ cipher key.now (counter_block nonce.now j) }
{
    key.encrypt(&[
        [0; 16],
        counter_block(nonce, 1),
        counter_block(nonce, 2),
        counter_block(nonce, 3),
        counter_block(nonce, 4),
        counter_block(nonce, 5),
        counter_block(nonce, 6),
        counter_block(nonce, 7),
    ])
}

/// Turns the text into its ciphertext and gives the tag (7.1).
pub fn seal_in_place(key: &AesKey, nonce: &[u8; 12], aad: &[u8], text: &mut [u8]) -> [u8; 16]
    requires { length text.old ≤ 2 ^ 36 - 32 }
    ensures { sealed key.now nonce.now aad.now text.old ≡ Some (text.new, result) }
{
    let sliced = SlicedKey::new(key);
    let ciphers = ciphers_of(&sliced, nonce);
    add_key_stream(&sliced, nonce, &ciphers, 2, text);
    tag_of(&HashKey::new(ciphers[0]), &ciphers[1], aad, text)
}

/// Turns the ciphertext into the text that seals to it and the tag (7.2). Where there is none, the
/// text is all zeros.
pub fn open_in_place(
    key: &AesKey,
    nonce: &[u8; 12],
    aad: &[u8],
    text: &mut [u8],
    tag: &[u8; 16],
) -> Result<(), NotAuthentic>
    requires { length text.old ≤ 2 ^ 36 - 32 }
    ensures ok { OnOk result (opened key.now nonce.now aad.now text.old tag.now ≡ Some text.new) }
    ensures not_authentic { OnErr result
        (opened key.now nonce.now aad.now text.old tag.now ≡ None) }
    ensures zeros { OnErr result (text.new ≡ replicate (length text.old) 0) }
{
    let sliced = SlicedKey::new(key);
    let ciphers = ciphers_of(&sliced, nonce);
    let expected = tag_of(&HashKey::new(ciphers[0]), &ciphers[1], aad, text);
    if !is_same(&expected, tag) {
        text.fill(0);
        return Err(NotAuthentic);
    }
    add_key_stream(&sliced, nonce, &ciphers, 2, text);
    Ok(())
}
