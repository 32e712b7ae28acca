//! The words that name types.
ghost use Rattle.std.specs.Prelude.{◌≡◌, ◌^◌, true, if◌then◌else◌, nat_lt, option_map, slice_index};
ghost use Rattle.std.specs.Char.{is_ascii_digit};
ghost use Rattle.std.specs.List.{list_all};
ghost use Rattle.std.specs.Str.Parse.{digits_value};
ghost use Rattle.icb_types.specs.Words.{after_prefix, before_suffix, fixed_word, has_plain_digits, kind_of_word, marked, size_in};

use crate::columns::ColType;

/// The greatest size of a fixed type.
const MAX_SIZE: u32 = 1_048_576;

/// The kind that a type's word names.
#[tactic(auto, unfolding(crate::specs::Words::kind_of_word))]
pub fn kind_of_word(word: &[u8]) -> Option<ColType>
    ensures { result ≡ kind_of_word word.now }
{
    if word == b"boolean".as_slice() {
        Some(ColType::Boolean)
    } else if word == b"int".as_slice() {
        Some(ColType::Int)
    } else if word == b"long".as_slice() {
        Some(ColType::Long)
    } else if word == b"date".as_slice() {
        Some(ColType::Date)
    } else if word == b"time".as_slice() {
        Some(ColType::Time)
    } else if word == b"timestamp".as_slice() {
        Some(ColType::Timestamp)
    } else if word == b"timestamptz".as_slice() {
        Some(ColType::TimestampTz)
    } else if word == b"string".as_slice() {
        Some(ColType::Text)
    } else if word == b"uuid".as_slice() {
        Some(ColType::Uuid)
    } else if word == b"binary".as_slice() {
        Some(ColType::Binary)
    } else {
        fixed_word(word)
    }
}

/// `fixed[N]`.
#[tactic(auto, unfolding(crate::specs::Words::fixed_word))]
fn fixed_word(word: &[u8]) -> Option<ColType>
    ensures { result ≡ fixed_word word.now }
{
    let digits = before_suffix(b"]", after_prefix(b"fixed[", word)?)?;
    Some(ColType::Fixed(size_in(digits)?))
}

/// What stands behind a prefix.
fn after_prefix<'a>(prefix: &[u8], text: &'a [u8]) -> Option<&'a [u8]>
    ensures { option_map (λ rest. rest.now) result ≡ after_prefix prefix.now text.now }
{
    text.strip_prefix(prefix)
}

/// What stands before a suffix.
fn before_suffix<'a>(suffix: &[u8], text: &'a [u8]) -> Option<&'a [u8]>
    ensures { option_map (λ front. front.now) result ≡ before_suffix suffix.now text.now }
{
    text.strip_suffix(suffix)
}

/// N: decimal digits without a leading zero, from 1 to 1,048,576.
#[tactic(auto, unfolding(crate::specs::Words::size_in))]
fn size_in(digits: &[u8]) -> Option<u32>
    ensures { result ≡ size_in digits.now }
{
    if !has_plain_digits(digits) {
        return None;
    }
    match number_in(digits) {
        Some(size) if 1 <= size && size <= MAX_SIZE => Some(size),
        _ => None,
    }
}

/// The number of plain digits, below 2^32.
fn number_in(digits: &[u8]) -> Option<u32>
    requires { has_plain_digits digits.now ≡ true }
    ensures { result ≡ (if nat_lt (digits_value 10 digits.now) (2 ^ 32)
        then Some (digits_value 10 digits.now) else None) }
{
    match std::str::from_utf8(digits) {
        Ok(text) => text.parse::<u32>().ok(),
        Err(_) => None,
    }
}

/// Only digits, the first of which isn't 0.
#[tactic(auto, unfolding(crate::specs::Words::has_plain_digits))]
fn has_plain_digits(digits: &[u8]) -> bool
    ensures { result ≡ has_plain_digits digits.now }
{
    has_only_digits(digits) && begins_above_zero(digits)
}

/// Only digits.
fn has_only_digits(digits: &[u8]) -> bool
    ensures { result ≡ list_all is_ascii_digit digits.now }
{
    digits.iter().all(|digit| digit.is_ascii_digit())
}

/// Whether the first byte is above the digit 0.
fn begins_above_zero(digits: &[u8]) -> bool
    ensures { result ≡ nat_lt 48 (slice_index digits.now 0) }
{
    digits.first().is_some_and(|digit| *digit > b'0')
}

/// A type's word, and whether `!` stands behind it.
#[tactic(auto, unfolding(crate::specs::Words::marked))]
pub(crate) fn marked(text: &[u8]) -> (&[u8], bool)
    ensures { (result.0.now, result.1) ≡ marked text.now }
{
    match before_suffix(b"!", text) {
        Some(word) => (word, true),
        None => (text, false),
    }
}
