//! One cipher block in place: a nonce, a ciphertext and a tag, one after another.

ghost use Rattle.std.specs.Prelude.{◌≡◌, ◌+◌, ◌-◌, ◌≤◌, length, replicate, slice_range, take, drop, IsOk, IsErr, MatchOption, Some};
ghost use Rattle.icb_seal.specs.Block.{KeepsEnds, additional_data, nonce_of, opened_cipher_block, sealed_cipher_block};

use icb_gcm::{GcmKey, NotAuthentic};

/// The bytes of a nonce.
pub(crate) const NONCE: usize = 12;

/// The bytes of a tag.
pub(crate) const TAG: usize = 16;

/// The bytes of a block's number, in its nonce and in its additional data.
pub(crate) const NUMBER: usize = 4;

/// The bytes that are drawn for the nonces of one file.
pub(crate) const SEED: usize = 8;

/// The nonce of the block with this number: the drawn bytes, and then the number, high byte first.
#[tactic(auto, unfolding(crate::specs::Block::nonce_of))]
pub(crate) fn nonce_of(seed: &[u8; SEED], number: u32) -> [u8; NONCE]
    ensures { result ≡ nonce_of seed.now number }
{
    let mut nonce = [0; NONCE];
    let (first, last) = nonce.split_at_mut(SEED);
    first.copy_from_slice(seed);
    last.copy_from_slice(&number.to_be_bytes());
    nonce
}

/// Writes a block's number over the last bytes of its additional data.
#[tactic(auto, unfolding(crate::specs::Block::additional_data))]
pub(crate) fn set_number(aad: &mut Vec<u8>, number: u32)
    requires { 4 ≤ length aad.old.items }
    ensures { aad.new.items
        ≡ additional_data (take (length aad.old.items - 4) aad.old.items) number }
{
    let prefix = aad.len() - NUMBER;
    aad[prefix..].copy_from_slice(&number.to_le_bytes());
}

/// Writes the cipher block of a text.
pub(crate) fn seal_cipher_block(
    key: &GcmKey,
    nonce: &[u8; NONCE],
    aad: &[u8],
    text: &[u8],
    block: &mut [u8],
)
    requires room { length block.old ≡ length text.now + 28 }
    requires small { length text.now ≤ 67108864 }
    ensures { sealed_cipher_block key.now nonce.now aad.now text.now ≡ Some block.new }
{
    let (front, last) = block.split_at_mut(block.len() - TAG);
    let (first, middle) = front.split_at_mut(NONCE);
    first.copy_from_slice(nonce);
    middle.copy_from_slice(text);
    let tag = key.seal(nonce, aad, middle);
    last.copy_from_slice(&tag);
}

/// The nonce and the tag of a cipher block.
pub(crate) fn nonce_and_tag(block: &[u8]) -> ([u8; NONCE], [u8; TAG])
    requires { 28 ≤ length block.now }
    ensures nonce { result.0 ≡ take 12 block.now }
    ensures tag { result.1 ≡ drop (length block.now - 16) block.now }
{
    let mut nonce = [0; NONCE];
    nonce.copy_from_slice(&block[..NONCE]);
    let mut tag = [0; TAG];
    tag.copy_from_slice(&block[block.len() - TAG..]);
    (nonce, tag)
}

/// Opens a cipher block in place, by its own nonce and tag, under this additional data.
pub(crate) fn open_cipher_block(
    key: &GcmKey,
    aad: &[u8],
    block: &mut [u8],
) -> Result<(), NotAuthentic>
    requires room { 28 ≤ length block.old }
    requires small { length block.old ≤ 16777244 }
    ensures opened { MatchOption (opened_cipher_block key.now aad.now block.old)
        (IsErr result × (slice_range block.new 12 (length block.old - 16)
        ≡ replicate (length block.old - 28) 0))
        (λ plain. IsOk result × (slice_range block.new 12 (length block.old - 16) ≡ plain)) }
    ensures ends { KeepsEnds block.old block.new }
{
    let (nonce, tag) = nonce_and_tag(block);
    let end = block.len() - TAG;
    key.open(&nonce, aad, &mut block[NONCE..end], &tag)
}
