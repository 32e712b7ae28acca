//! Counter mode over groups of eight blocks (NIST SP 800-38D, 6.5). A group that isn't needed whole has
//! spare blocks.

ghost use Rattle.std.specs.Prelude.{◌≡◌, ℕ, ◌+◌, ◌-◌, ◌*◌, ◌^◌, ◌<◌, ◌≤◌, [], List, length};
ghost use Rattle.std.specs.List.{slice_index_or};
ghost use Rattle.icb_aes.specs.Fips197.{cipher};
ghost use Rattle.icb_gcm.specs.Gcm.{counter_block, crypted, crypted_front};

use crate::sealing::{add, add_to_block, counter_block};
use icb_aes::SlicedKey;

/// The ciphers of the eight counter blocks from `j` on.
pub(crate) fn pads_of(key: &SlicedKey, nonce: &[u8; 12], j: u32) -> [[u8; 16]; 8]
    ensures { (b : ℕ) → b < 8
        → slice_index_or result b [] ≡ cipher key.now (counter_block nonce.now (j + b)) }
{
    key.encrypt(&[
        counter_block(nonce, j),
        counter_block(nonce, j.wrapping_add(1)),
        counter_block(nonce, j.wrapping_add(2)),
        counter_block(nonce, j.wrapping_add(3)),
        counter_block(nonce, j.wrapping_add(4)),
        counter_block(nonce, j.wrapping_add(5)),
        counter_block(nonce, j.wrapping_add(6)),
        counter_block(nonce, j.wrapping_add(7)),
    ])
}

/// Adds the pads to the eight blocks from block `n` on.
fn add_pads(text: &mut [u8], n: usize, pads: &[[u8; 16]; 8])
    requires { 16 * n + 128 ≤ length text.old }
    ensures { (key nonce whole : List ℕ) → length whole ≡ length text.old
        → text.old ≡ crypted_front key nonce n whole
        → ((b : ℕ) → b < 8
        → slice_index_or pads.now b [] ≡ cipher key (counter_block nonce (n + b + 2)))
        → text.new ≡ crypted_front key nonce (n + 8) whole }
{
    for b in 0..8usize {
        let from = 16 * (n + b);
        add_to_block(&mut text[from..from + 16], pads[b]);
    }
}

/// Adds the pads from pad `first` on to the text from block `n` on, as far as it goes.
fn add_some_pads(text: &mut [u8], n: usize, pads: &[[u8; 16]; 8], first: usize)
    requires inside { 16 * n ≤ length text.old }
    requires first { first ≤ 8 }
    ensures { (key nonce whole : List ℕ) → length whole ≡ length text.old
        → text.old ≡ crypted_front key nonce n whole
        → ((b : ℕ) → first + b < 8 → slice_index_or pads.now (first + b) []
        ≡ cipher key (counter_block nonce (n + b + 2)))
        → text.new ≡ crypted_front key nonce (n + (8 - first)) whole }
{
    let count = (text.len() / 16 - n).min(8 - first);
    for b in 0..count {
        let from = 16 * (n + b);
        add_to_block(&mut text[from..from + 16], pads[first + b]);
    }
    let done = 16 * (n + count);
    if first + count < 8 && done < text.len() {
        add(&mut text[done..], &pads[first + count]);
    }
}

/// Adds the key stream to the whole groups behind the first `n` blocks. Gives the number of blocks that are
/// done.
fn add_to_groups(key: &SlicedKey, nonce: &[u8; 12], text: &mut [u8], n: usize) -> usize
    requires small { length text.old ≤ 2 ^ 36 - 32 }
    requires n { n ≤ 8 }
    ensures done { (whole : List ℕ) → length whole ≡ length text.old
        → text.old ≡ crypted_front key.now nonce.now n whole
        → text.new ≡ crypted_front key.now nonce.now result whole }
    ensures rest { length text.old < 16 * result + 128 }
    ensures few { 16 * result ≤ length text.old + 128 }
{
    let groups = ((text.len() / 16).max(n) - n) / 8;
    for g in 0..groups {
        let from = n + 8 * g;
        let pads = pads_of(key, nonce, (from + 2) as u32);
        add_pads(text, from, &pads);
    }
    n + 8 * groups
}

/// Adds the key stream. Its first pads are there, from pad `first` on.
pub(crate) fn add_key_stream(
    key: &SlicedKey,
    nonce: &[u8; 12],
    pads: &[[u8; 16]; 8],
    first: usize,
    text: &mut [u8],
)
    requires small { length text.old ≤ 2 ^ 36 - 32 }
    requires first { first ≤ 8 }
    requires pads { (b : ℕ) → first + b < 8 → slice_index_or pads.now (first + b) []
        ≡ cipher key.now (counter_block nonce.now (b + 2)) }
    ensures { text.new ≡ crypted key.now nonce.now text.old }
{
    add_some_pads(text, 0, pads, first);
    let done = add_to_groups(key, nonce, text, 8 - first);
    if 16 * done < text.len() {
        let pads = pads_of(key, nonce, (done + 2) as u32);
        add_some_pads(text, done, &pads, 0);
    }
}
