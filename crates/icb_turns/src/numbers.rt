//! The numbers that a table's properties give.
ghost use Rattle.std.specs.Prelude.{◌≡◌};
ghost use Rattle.std.specs.Char.{is_ascii_digit};
ghost use Rattle.std.specs.List.{list_all};
ghost use Rattle.icb_meta.specs.Answers.{shown_of};
ghost use Rattle.icb_turns.specs.Numbers.{decimal_in, is_decimal, property_number, retries};

use icb_meta::TableMeta;

/// How often a job tries again where another put the version that it was to put.
pub fn retries(meta: &TableMeta) -> u64
    ensures { result ≡ retries (shown_of meta.now).state.properties }
{
    property_number(meta, "commit.retry.num-retries", 0, 100, 4)
}

/// The number that a property gives, where it is one in decimal digits from `least` to `most`; else the
/// default.
pub fn property_number(meta: &TableMeta, name: &str, least: u64, most: u64, default: u64) -> u64
    ensures { result ≡ property_number name.now least most default
        (shown_of meta.now).state.properties }
{
    let Some(text) = meta.property(name) else {
        return default;
    };
    match decimal_in(text.as_str()) {
        Some(number) if least <= number && number <= most => number,
        _ => default,
    }
}

/// The number of 64 bits that decimal digits are, without a sign.
fn decimal_in(text: &str) -> Option<u64>
    ensures { result ≡ decimal_in text.now }
{
    if !is_decimal(text.as_bytes()) {
        return None;
    }
    match text.parse::<u64>() {
        Ok(number) => Some(number),
        Err(_) => None,
    }
}

/// Whether a text is decimal digits, of which there is one at least.
fn is_decimal(text: &[u8]) -> bool
    ensures { result ≡ is_decimal text.now }
{
    !text.is_empty() && has_only_digits(text)
}

/// Whether each byte is a decimal digit.
fn has_only_digits(text: &[u8]) -> bool
    ensures { result ≡ list_all is_ascii_digit text.now }
{
    text.iter().all(|digit| digit.is_ascii_digit())
}
