//! The key schedule, each word one number (FIPS 197, 5.2).

ghost use Rattle.std.specs.Prelude.{◌≡◌, ◌≤◌, ◌<◌, ◌+◌, ◌*◌, ◌/◌, ◌^◌, length, map, All};
ghost use Rattle.icb_aes.specs.Columns.{block_of, state_of_numbers, word_of};
ghost use Rattle.icb_aes.specs.Fips197.{IsKeyLength, key_word, rot_word, round_key, schedule_term, sub_word};
ghost use Rattle.icb_aes.specs.Stored.{stored_words};

use crate::tables::{round_constant, sub_byte};

/// The words of the longest schedule, that of 14 rounds.
pub(crate) const MAX_WORDS: usize = 60;

/// The word turned by one byte.
fn rot_word(w: u32) -> u32
    ensures { word_of result ≡ rot_word (word_of w) }
{
    let [a, b, c, d] = w.to_be_bytes();
    u32::from_be_bytes([b, c, d, a])
}

/// Each byte of the word through the S-box.
fn sub_word(w: u32) -> u32
    ensures { word_of result ≡ sub_word (word_of w) }
{
    let [a, b, c, d] = w.to_be_bytes();
    u32::from_be_bytes([sub_byte(a), sub_byte(b), sub_byte(c), sub_byte(d)])
}

/// What word `i` adds to word `i - nk`, where `before` is word `i - 1`.
#[tactic(auto, unfolding(crate::specs::Fips197::schedule_term))]
fn schedule_term(nk: usize, i: usize, before: u32) -> u32
    requires some { 1 ≤ nk }
    requires past { nk ≤ i }
    requires constants { i / nk ≤ 10 }
    ensures { word_of result ≡ schedule_term nk i (word_of before) }
{
    if i % nk == 0 {
        sub_word(rot_word(before)) ^ round_constant(i / nk)
    } else if nk > 6 && i % nk == 4 {
        sub_word(before)
    } else {
        before
    }
}

/// Word `i` of the key.
fn key_word(key: &[u8], i: usize) -> u32
    requires { 4 * i + 4 ≤ length key.now }
    ensures { word_of result ≡ key_word key.now i }
{
    u32::from_be_bytes([key[4 * i], key[4 * i + 1], key[4 * i + 2], key[4 * i + 3]])
}

/// The words of the schedule, and then zeros.
pub(crate) fn expand(key: &[u8]) -> [u32; MAX_WORDS]
    requires { IsKeyLength (length key.now) }
    ensures words { map word_of result ≡ stored_words key.now }
    ensures numbers { All (λ n. n < 2 ^ 32) result }
{
    let nk = key.len() / 4;
    let mut words = [0u32; MAX_WORDS];
    'own: for i in 0..nk {
        words[i] = key_word(key, i);
    }
    'next: for i in nk..4 * (nk + 7) {
        words[i] = words[i - nk] ^ schedule_term(nk, i, words[i - 1]);
    }
    words
}

/// The words of the round key of round `i`.
pub(crate) fn round_key(words: &[u32; MAX_WORDS], i: usize) -> [u32; 4]
    requires { i < 15 }
    ensures { state_of_numbers result ≡ round_key (map word_of words.now) i }
{
    [
        words[4 * i],
        words[4 * i + 1],
        words[4 * i + 2],
        words[4 * i + 3],
    ]
}

/// The bytes of four words.
pub(crate) fn block_of(words: [u32; 4]) -> [u8; 16]
    ensures { result ≡ block_of words }
{
    let [a, b, c, d] = words[0].to_be_bytes();
    let [e, f, g, h] = words[1].to_be_bytes();
    let [i, j, k, l] = words[2].to_be_bytes();
    let [m, n, o, p] = words[3].to_be_bytes();
    [a, b, c, d, e, f, g, h, i, j, k, l, m, n, o, p]
}
