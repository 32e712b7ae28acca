//! The numbers by which files are written, from a table's properties.
ghost use Rattle.std.specs.Prelude.{◌≡◌, ◌≤◌, option_map, true};
ghost use Rattle.std.specs.List.{list_all};
ghost use Rattle.std.specs.Char.{is_ascii_digit};
ghost use Rattle.std.specs.Str.Parse.{digits_value};
ghost use Rattle.icb_meta.specs.Answers.{shown_of};
ghost use Rattle.icb_append.specs.Settings.{AreInRange, decimal_in, is_decimal, key_size, number_of, of_32_bits, settings_of};

use icb_meta::TableMeta;
use icb_schema::Text;
use icb_seal::KeySize;

/// The numbers by which files are written.
#[derive(Clone, Copy, Debug)]
pub struct Settings {
    /// The size of a file's key.
    pub key: KeySize,
    /// How many bytes of plaintext a stream's block has.
    pub block: u32,
    /// How many bytes end a data file's container block.
    pub avro: u32,
    /// How many rows each data file but the last has.
    pub rows: u32,
}

impl Settings {
    /// The numbers that a table's properties say.
    pub fn of(meta: &TableMeta) -> Settings
        ensures numbers { result ≡ settings_of (shown_of meta.now).state.properties }
        ensures ranges { AreInRange result }
    {
        let key = number(meta.property("encryption.data-key-length"), 16, 32, 16);
        Settings {
            key: key_size(key),
            block: number(meta.property("icb.block-length"), 1, 16_777_216, 1_048_576),
            avro: number(meta.property("icb.avro-block"), 1, 1_048_576, 65_536),
            rows: number(meta.property("icb.rows-per-file"), 1, 1_000_000, 100_000),
        }
    }
}

/// The size of a key of so many bytes.
fn key_size(bytes: u32) -> KeySize
    ensures { result ≡ key_size bytes }
{
    match bytes {
        24 => KeySize::Bytes24,
        32 => KeySize::Bytes32,
        _ => KeySize::Bytes16,
    }
}

/// The number that a property's text says, or the default where it says none of the range.
fn number(text: Option<&Text>, low: u32, high: u32, default: u32) -> u32
    requires least { low ≤ default }
    requires most { default ≤ high }
    ensures number { result
        ≡ number_of low high default (option_map (λ text. text.now) text.entry) }
    ensures least { low ≤ result }
    ensures most { result ≤ high }
{
    match text {
        Some(text) => match decimal_in(text.as_str()) {
            Some(number) if low <= number && number <= high => number,
            _ => default,
        },
        None => default,
    }
}

/// The number of 32 bits that decimal digits are.
fn decimal_in(text: &str) -> Option<u32>
    ensures { result ≡ decimal_in text.now }
{
    if is_decimal(text.as_bytes()) {
        number_in(text)
    } else {
        None
    }
}

/// The number of decimal digits, where it has 32 bits.
fn number_in(digits: &str) -> Option<u32>
    requires { is_decimal digits.now ≡ true }
    ensures { result ≡ of_32_bits (digits_value 10 digits.now) }
{
    digits.parse::<u32>().ok()
}

/// Whether a text is one or more decimal digits.
fn is_decimal(text: &[u8]) -> bool
    ensures { result ≡ is_decimal text.now }
{
    !text.is_empty() && has_only_digits(text)
}

/// Whether a text has only decimal digits.
fn has_only_digits(text: &[u8]) -> bool
    ensures { result ≡ list_all is_ascii_digit text.now }
{
    text.iter().all(|digit| digit.is_ascii_digit())
}
