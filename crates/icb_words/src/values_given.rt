//! The values that options of more than one command give, or what stands where they aren't given.
ghost use Rattle.std.specs.Prelude.{◌≡◌, ◌<◌, ◌≤◌, ◌^◌, codes, map, string_bytes, unwrap_or, IfSome};
ghost use Rattle.icb_words.specs.Forms.{key_size_of, number_of, number_within};
ghost use Rattle.icb_words.specs.Options.{given};

use crate::forms::{key_size, number, number_within};
use crate::options::value_of;
use icb_seal::KeySize;

/// The size of a key that `--key-bytes` gives, else 16 bytes.
pub fn key_size_given(pairs: &[String]) -> KeySize
    ensures { result ≡ unwrap_or
        (given key_size_of (codes "--key-bytes") (map string_bytes pairs.now)) KeySize.Bytes16 }
{
    match value_of(pairs, "--key-bytes") {
        Some(word) => key_size(word).unwrap_or(KeySize::Bytes16),
        None => KeySize::Bytes16,
    }
}

/// The block length that `--block` gives, else 1 MiB.
pub fn block_given(pairs: &[String]) -> u32
    ensures value { result ≡ unwrap_or
        (given (number_within 1 16777216) (codes "--block") (map string_bytes pairs.now)) 1048576 }
    ensures some { 1 ≤ result }
    ensures most { result ≤ 2 ^ 24 }
{
    match value_of(pairs, "--block") {
        Some(word) => number_within(word, 1, 16777216).unwrap_or(1048576),
        None => 1048576,
    }
}

/// The number from the least to the most one that an option gives, if it is given.
pub fn number_within_given(pairs: &[String], name: &str, least: u32, most: u32) -> Option<u32>
    ensures { result ≡ given (number_within least most) name.now (map string_bytes pairs.now) }
{
    number_within(value_of(pairs, name)?, least, most)
}

/// The number that an option gives, if it is given.
pub fn number_given(pairs: &[String], name: &str) -> Option<u64>
    ensures value { result ≡ given number_of name.now (map string_bytes pairs.now) }
    ensures below { IfSome result (λ n. n < 2 ^ 63) }
{
    number(value_of(pairs, name)?)
}
