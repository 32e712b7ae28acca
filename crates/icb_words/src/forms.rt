//! What a word may be: an object path, a key, a number, a text.
ghost use Rattle.std.specs.Prelude.{◌≡◌, ◌<◌, ◌≤◌, ◌^◌, ◌||◌, nat_lt, codes, slice_index, bytes_eq, IfOk, IfSome};
ghost use Rattle.std.specs.Char.{is_ascii_digit};
ghost use Rattle.std.specs.List.{list_all};
ghost use Rattle.icb_types.specs.Columns.{AreColumns};
ghost use Rattle.icb_words.specs.Forms.{is_in_form, is_plain_decimal, key_size_of, number_of, number_within, schema_of};

use icb_base::NoMemory;
use icb_chain::{is_id, key_of_digits};
use icb_meta::is_location;
use icb_seal::KeySize;
use icb_types::{TableSchema, WordsFault};
use std::alloc::Global;

/// The form of an option's value.
#[derive(Clone, Copy, Debug, PartialEq, Eq)]
pub enum ValueForm {
    /// A key: 32, 48 or 64 hexadecimal digits.
    Key,
    /// A number below 2^63 in decimal digits without sign or leading zero.
    Number,
    /// Any text.
    Text,
    /// How many bytes a key has: 16, 24 or 32.
    KeyBytes,
    /// A number from the least to the most one.
    Within {
        /// The least.
        least: u32,
        /// The most.
        most: u32,
    },
    /// The id of a master key.
    Id,
    /// Schema words.
    Schema,
    /// The location of a table: not empty, and with no `/` at its end.
    Location,
}

/// Whether a word is in the form.
pub fn is_in_form(alloc: Global, form: ValueForm, word: &str) -> Result<bool, NoMemory>
    ensures { IfOk result (λ answer. answer ≡ is_in_form form word.now) }
{
    let answer = match form {
        ValueForm::Key => key_of_digits(word.as_bytes()).is_some(),
        ValueForm::Number => number(word).is_some(),
        ValueForm::Text => true,
        ValueForm::KeyBytes => key_size(word).is_some(),
        ValueForm::Within { least, most } => number_within(word, least, most).is_some(),
        ValueForm::Id => is_id(word.as_bytes()),
        ValueForm::Schema => schema(alloc, word)?.is_some(),
        ValueForm::Location => is_location(word),
    };
    Ok(answer)
}

/// The size of a key that a word says.
pub fn key_size(word: &str) -> Option<KeySize>
    ensures { result ≡ key_size_of word.now }
{
    match word {
        "16" => Some(KeySize::Bytes16),
        "24" => Some(KeySize::Bytes24),
        "32" => Some(KeySize::Bytes32),
        _ => None,
    }
}

/// The number that a word is, from the least to the most one.
pub fn number_within(word: &str, least: u32, most: u32) -> Option<u32>
    ensures value { result ≡ number_within least most word.now }
    ensures within { IfSome result (λ n. (least ≤ n) × (n ≤ most)) }
{
    match number(word) {
        Some(n) if least as u64 <= n && n <= most as u64 => Some(n as u32),
        _ => None,
    }
}

/// The schema of schema words.
pub fn schema(alloc: Global, word: &str) -> Result<Option<TableSchema>, NoMemory>
    ensures read { IfOk result (λ schema. schema ≡ schema_of word.now) }
    ensures columns { IfOk result (λ schema. IfSome schema (λ found. AreColumns found.columns)) }
{
    match TableSchema::read_words(alloc, word) {
        Ok(schema) => Ok(Some(schema)),
        Err(WordsFault::BadColumn { position: _ }) => Ok(None),
        Err(WordsFault::NoMemory) => Err(NoMemory),
    }
}

/// The number that a word is, below 2^63, if it is plain decimal digits.
pub fn number(word: &str) -> Option<u64>
    ensures value { result ≡ number_of word.now }
    ensures below { IfSome result (λ n. n < 2 ^ 63) }
{
    if !is_plain_number(word.as_bytes()) {
        return None;
    }
    match word.parse::<u64>() {
        Ok(number) if number < 1 << 63 => Some(number),
        _ => None,
    }
}

/// Whether a word is decimal digits without sign or leading zero.
fn is_plain_number(word: &[u8]) -> bool
    ensures { result ≡ is_plain_decimal word.now }
{
    has_only_digits(word) && begins_without_zero(word)
}

/// Whether each byte of a word is a decimal digit.
fn has_only_digits(word: &[u8]) -> bool
    ensures { result ≡ list_all is_ascii_digit word.now }
{
    word.iter().all(|digit| digit.is_ascii_digit())
}

/// Whether a word of digits has no leading zero, or is the number 0.
fn begins_without_zero(word: &[u8]) -> bool
    ensures { result ≡ (nat_lt 48 (slice_index word.now 0) || bytes_eq word.now (codes "0")) }
{
    word.first().is_some_and(|digit| *digit > b'0') || word == b"0".as_slice()
}
