//! What a line is made of.
ghost use Rattle.std.specs.Prelude.{◌≡◌, string_bytes, option_map, IfOk};
ghost use Rattle.json.specs.Print.{quoted};
ghost use Rattle.icb_listing.specs.Lines.{number_or_dash, text_or_dash};

use icb_schema::Text;
use serde_json::Value;
use std::alloc::{AllocError, Global};

/// A text as a JSON string text, with its escapes.
pub fn quoted(alloc: Global, text: &str) -> Result<String, AllocError>
    ensures { IfOk result (λ quotation. string_bytes quotation ≡ quoted text.now) }
{
    Value::try_from_str(alloc, text)?.to_string(alloc)
}

/// A number in decimal digits, or `-` where there is none.
pub(crate) fn number_or_dash(alloc: Global, number: Option<i64>) -> Result<String, AllocError>
    ensures { IfOk result (λ piece. string_bytes piece ≡ number_or_dash number) }
{
    match number {
        Some(number) => format!(in alloc; "{number}"),
        None => String::from_str(alloc, "-"),
    }
}

/// A text as a JSON string text, or `-` where there is none.
pub(crate) fn text_or_dash(alloc: Global, text: Option<&Text>) -> Result<String, AllocError>
    ensures { IfOk result (λ piece. string_bytes piece
        ≡ text_or_dash (option_map (λ t. t.now) text.entry)) }
{
    match text {
        Some(text) => quoted(alloc, text.as_str()),
        None => String::from_str(alloc, "-"),
    }
}
