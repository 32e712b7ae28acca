//! The words of `scan`.
ghost use Rattle.std.specs.Prelude.{◌≡◌, codes, map, option_map, pos, string_bytes, IfOk, MatchOption, MatchResult, Err, None, Ok, Some};
ghost use Rattle.icb_types.specs.Words.{cut_at, parts_of};
ghost use Rattle.icb_words.specs.Forms.{number_of};
ghost use Rattle.icb_words.specs.Options.{given, value_of};
ghost use Rattle.icb_words.specs.Steps.{IsReadingOf};
ghost use Rattle.icb_words.specs.Words.{KeepsLimits, range_given, scan_of};

use crate::option_tables::OptionTable;
use crate::options::{no_place, pairs_from, value_of};
use crate::values_given::number_given;
use crate::words::{Command, WordFault, word_at};
use icb_schema::{Names, NoMemory, Text};
use std::alloc::Global;

/// The words of `scan`.
#[derive(Debug, Drop)]
pub struct Scan {
    /// Whether the table's metadata is handed in.
    pub is_handed_in: bool,
    /// The snapshot's id, none for the current one.
    pub snapshot: Option<i64>,
    /// The names of the columns that are shown, in order; none for all.
    pub columns: Option<Names>,
    /// The range that the rows are in.
    pub range: Option<RangeWords>,
    /// How many of the rows in it are left out.
    pub skip: u64,
    /// How many at most are shown behind those; all where it isn't given.
    pub take: Option<u64>,
}

/// The words of a range.
#[derive(Debug, Drop)]
pub struct RangeWords {
    /// The column's name.
    pub column: Text,
    /// The lower end, none where it is open.
    pub low: Option<Text>,
    /// The upper end, none where it is open.
    pub high: Option<Text>,
}

/// The words of `scan`.
#[tactic(auto, unfolding(crate::specs::Words::scan_of))]
pub fn read_scan(alloc: Global, words: &[String]) -> Result<Command, WordFault>
    ensures read { IsReadingOf (scan_of (map string_bytes words.now)) result }
    ensures limits { IfOk result KeepsLimits }
{
    word_at(words, 1)?;
    let pairs = pairs_from(alloc, words, 2, OptionTable::Scan)?;
    if value_of(pairs, "--keys").is_none() {
        return Err(no_place(words.len()));
    }
    let range = range_given(alloc, words, pairs)?;
    let Ok(columns) = columns_given(alloc, pairs) else {
        return Err(WordFault::NoMemory);
    };
    Ok(Command::Scan(Scan {
        is_handed_in: value_of(pairs, "--metadata").is_some(),
        snapshot: snapshot_given(pairs),
        columns,
        range,
        skip: number_given(pairs, "--skip").unwrap_or(0),
        take: number_given(pairs, "--take"),
    }))
}

/// The snapshot's id that `--snapshot` gives, if it is given.
fn snapshot_given(pairs: &[String]) -> Option<i64>
    ensures { result ≡ option_map pos
        (given number_of (codes "--snapshot") (map string_bytes pairs.now)) }
{
    match number_given(pairs, "--snapshot") {
        Some(id) => Some(id as i64),
        None => None,
    }
}

/// The range that `--range`, `--low` and `--high` give, if they are given.
fn range_given(
    alloc: Global,
    words: &[String],
    pairs: &[String],
) -> Result<Option<RangeWords>, WordFault>
    ensures { IsReadingOf (range_given (map string_bytes words.now) (map string_bytes pairs.now))
        result }
{
    let low = value_of(pairs, "--low");
    let high = value_of(pairs, "--high");
    let Some(column) = value_of(pairs, "--range") else {
        if low.is_none() && high.is_none() {
            return Ok(None);
        }
        return Err(no_place(words.len()));
    };
    match range_words(alloc, column, low, high) {
        Ok(range) => Ok(Some(range)),
        Err(NoMemory) => Err(WordFault::NoMemory),
    }
}

/// A range of a column and its ends.
fn range_words(
    alloc: Global,
    column: &str,
    low: Option<&str>,
    high: Option<&str>,
) -> Result<RangeWords, NoMemory>
    ensures { IfOk result (λ range. range ≡ record {
      column = column.now;
      low = option_map (λ end. end.now) low.entry;
      high = option_map (λ end. end.now) high.entry;
    }) }
{
    Ok(RangeWords {
        column: Text::from_str(alloc, column)?,
        low: text_if_given(alloc, low)?,
        high: text_if_given(alloc, high)?,
    })
}

/// A text that may be given.
fn text_if_given(alloc: Global, word: Option<&str>) -> Result<Option<Text>, NoMemory>
    ensures { IfOk result (λ text. text ≡ option_map (λ given. given.now) word.entry) }
{
    match word {
        Some(word) => match Text::from_str(alloc, word) {
            Ok(text) => Ok(Some(text)),
            Err(fault) => Err(fault),
        },
        None => Ok(None),
    }
}

/// The names that `--columns` gives, if it is given.
fn columns_given(alloc: Global, pairs: &[String]) -> Result<Option<Names>, NoMemory>
    ensures { IfOk result (λ names. names ≡ option_map parts_of
        (value_of (codes "--columns") (map string_bytes pairs.now))) }
{
    match value_of(pairs, "--columns") {
        Some(word) => match names_in(alloc, word) {
            Ok(names) => Ok(Some(names)),
            Err(fault) => Err(fault),
        },
        None => Ok(None),
    }
}

/// The names that commas part.
fn names_in(alloc: Global, word: &str) -> Result<Names, NoMemory>
    ensures { IfOk result (λ names. names ≡ parts_of word.now) }
{
    let mut names = Names::new(alloc);
    let mut rest = Some(word);
    while let Some(left) = rest {
        let (name, more) = first_name(left);
        names.push(Text::from_str(alloc, name)?)?;
        rest = more;
    }
    Ok(names)
}

/// The first of the names that commas part, and what stands behind its comma.
#[tactic(auto, unfolding(icb_types::specs::Words::cut_at))]
fn first_name(text: &str) -> (&str, Option<&str>)
    ensures { MatchOption result.1
        ((cut_at 44 text.now ≡ None) × (result.0.now ≡ text.now))
        (λ more. cut_at 44 text.now ≡ Some (result.0.now, more.now)) }
{
    match text.split_once(',') {
        Some((name, more)) => (name, Some(more)),
        None => (text, None),
    }
}
