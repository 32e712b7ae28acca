//! The options of a command, behind its positional words: pairs of a name and a value, in any order,
//! each name once.
ghost use Rattle.std.specs.Prelude.{◌≡◌, ◌<◌, ◌≤◌, map, string_bytes, length, is_some, option_map, IfOk, IfSome, MatchResult, Ok, Err};
ghost use Rattle.icb_words.specs.Options.{has_place, is_new_name, misplaced, pairs_from, position, value_of};
ghost use Rattle.icb_words.specs.Steps.{IsReadingOf};
ghost use Rattle.icb_words.specs.OptionTables.{options_of};

use crate::forms::is_in_form;
use crate::option_tables::OptionTable;
use crate::words::WordFault;
use icb_base::NoMemory;
use std::alloc::Global;

/// The words behind the first ones, where each of them has its place among the options.
pub fn pairs_from<'a>(
    alloc: Global,
    words: &'a [String],
    first: usize,
    options: OptionTable,
) -> Result<&'a [String], WordFault>
    requires { first ≤ length words.now }
    ensures { MatchResult result
        (λ pairs. pairs_from (options_of options) first (map string_bytes words.now)
        ≡ Ok (map string_bytes pairs.now))
        (λ fault. IsReadingOf (pairs_from (options_of options) first (map string_bytes words.now))
        (Err fault)) }
{
    let pairs = &words[first..];
    match misplaced(alloc, options, pairs) {
        Ok(None) => {}
        Ok(Some(at)) => return Err(no_place(first.saturating_add(at))),
        Err(NoMemory) => return Err(WordFault::NoMemory),
    }
    if pairs.len() % 2 == 1 {
        return Err(no_place(words.len()));
    }
    Ok(pairs)
}

/// The fault of the word at a position.
pub fn no_place(at: usize) -> WordFault
    ensures { result ≡ WordFault.NoPlace (position at) }
{
    WordFault::NoPlace {
        word: u32::try_from(at).unwrap_or(u32::MAX),
    }
}

/// The first word that has no place among the pairs, if there is one.
fn misplaced(
    alloc: Global,
    options: OptionTable,
    pairs: &[String],
) -> Result<Option<usize>, NoMemory>
    ensures first { IfOk result (λ found.
        found ≡ misplaced (options_of options) (map string_bytes pairs.now)) }
    ensures inside { IfOk result (λ found. IfSome found (λ at. at < length pairs.now)) }
{
    for at in 0..pairs.len() {
        if !has_place(alloc, options, pairs, at)? {
            return Ok(Some(at));
        }
    }
    Ok(None)
}

/// Whether a word has a place among the pairs, as a name or as a value.
fn has_place(
    alloc: Global,
    options: OptionTable,
    pairs: &[String],
    at: usize,
) -> Result<bool, NoMemory>
    requires { at < length pairs.now }
    ensures { IfOk result (λ answer.
        answer ≡ has_place (options_of options) (map string_bytes pairs.now) at) }
{
    let word = pairs[at].as_str();
    if at % 2 == 0 {
        return Ok(is_new_name(options, &pairs[..at], word));
    }
    match options.form_of(pairs[at - 1].as_str()) {
        Some(form) => is_in_form(alloc, form, word),
        None => Ok(false),
    }
}

/// Whether the command has an option of this name and no earlier pair gives it.
fn is_new_name(options: OptionTable, earlier: &[String], name: &str) -> bool
    ensures { result ≡ is_new_name (options_of options) (map string_bytes earlier.now) name.now }
{
    options.form_of(name).is_some() && value_of(earlier, name).is_none()
}

/// The value that an option has in the pairs, if it is given.
pub fn value_of<'a>(pairs: &'a [String], name: &str) -> Option<&'a str>
    ensures value { option_map (λ value. value.now) result
        ≡ value_of name.now (map string_bytes pairs.now) }
    ensures given { is_some result ≡ is_some (value_of name.now (map string_bytes pairs.now)) }
{
    let mut rest = pairs;
    while let [given, value, more @ ..] = rest {
        if given.as_str() == name {
            return Some(value.as_str());
        }
        rest = more;
    }
    None
}
