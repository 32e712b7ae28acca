//! Schema words: the columns of a new table.
ghost use Rattle.std.specs.Prelude.{◌≡◌, ◌≤◌, ◌<◌, ◌&&◌, ℕ, length, nat_le, option_map, pos, slice_index, IfOk, MatchOption, None, Some};
ghost use Rattle.std.specs.List.{list_all};
ghost use Rattle.icb_types.specs.Columns.{AreColumns};
ghost use Rattle.icb_types.specs.Words.{begins_name, column_in, column_of, columns_of, cut_at, has_name, is_in_name, is_name, marked, next_column};
ghost use Rattle.icb_types.specs.Answers.{ReadsWords};

use crate::columns::{Column, TableSchema};
use crate::fault::WordsFault;
use crate::type_words::{kind_of_word, marked};
use icb_schema::{NoMemory, Text};
use sqlite_items::Items;
use std::alloc::Global;

/// The most columns of a table.
const MAX_COLUMNS: usize = 1000;

/// The longest name of a column.
const MAX_NAME: usize = 128;

impl TableSchema {
    /// The schema of schema words: its number is 0, and the columns' ids count from 1.
    pub fn read_words(alloc: Global, text: &str) -> Result<TableSchema, WordsFault>
        ensures reads { ReadsWords result (columns_of text.now) }
        ensures columns { IfOk result (λ schema. AreColumns schema.columns) }
    {
        let mut columns = Items::new(alloc);
        let mut rest = Some(text);
        while let Some(left) = rest {
            let (part, more) = first_part(left);
            match next_column(alloc, columns.as_slice(), part)? {
                Some(column) => columns.push(column)?,
                None => {
                    return Err(WordsFault::BadColumn {
                        position: columns.len() as u32,
                    });
                }
            }
            rest = more;
        }
        Ok(TableSchema { id: 0, columns })
    }
}

/// The first of the parts that commas part, and what stands behind its comma.
fn first_part(text: &str) -> (&str, Option<&str>)
    ensures { MatchOption result.1
        ((cut_at 44 text.now ≡ None) × (result.0.now ≡ text.now))
        (λ more. cut_at 44 text.now ≡ Some (result.0.now, more.now)) }
{
    match cut_at(text, ',') {
        Some((part, more)) => (part, Some(more)),
        None => (text, None),
    }
}

/// What stands before the first such character, and what behind it.
#[tactic(auto, unfolding(crate::specs::Words::cut_at))]
fn cut_at(text: &str, at: char) -> Option<(&str, &str)>
    requires { at < 128 }
    ensures { option_map (λ parts. (parts.0.now, parts.1.now)) result ≡ cut_at at text.now }
{
    text.split_once(at)
}

/// The column that a part is behind these.
#[tactic(auto, unfolding(crate::specs::Words::next_column))]
fn next_column(alloc: Global, columns: &[Column], part: &str) -> Result<Option<Column>, NoMemory>
    ensures { IfOk result (λ found. found ≡ next_column columns.now part.now) }
{
    if columns.len() >= MAX_COLUMNS {
        return Ok(None);
    }
    match column_in(alloc, columns.len() as i32 + 1, part)? {
        Some(column) if !has_name(columns, column.name.as_slice()) => Ok(Some(column)),
        _ => Ok(None),
    }
}

/// Whether one of the columns has this name.
#[tactic(auto, unfolding(crate::specs::Words::has_name))]
fn has_name(columns: &[Column], name: &[u8]) -> bool
    ensures { result ≡ has_name name.now columns.now }
{
    columns.iter().any(|column| column.name.as_slice() == name)
}

/// The column that a part is, with this id.
#[tactic(auto, unfolding(crate::specs::Words::column_in))]
fn column_in(alloc: Global, id: i32, part: &str) -> Result<Option<Column>, NoMemory>
    ensures { IfOk result (λ found. found ≡ column_in id part.now) }
{
    match cut_at(part, ':') {
        Some((name, kind)) if is_name(name.as_bytes()) => column_of(alloc, id, name, kind),
        _ => Ok(None),
    }
}

/// The column of a name and a type's text.
fn column_of(alloc: Global, id: i32, name: &str, kind: &str) -> Result<Option<Column>, NoMemory>
    ensures { IfOk result (λ found. found ≡ column_of id name.now (marked kind.now)) }
{
    let (word, required) = marked(kind.as_bytes());
    let Some(kind) = kind_of_word(word) else {
        return Ok(None);
    };
    Ok(Some(Column {
        id,
        name: Text::from_str(alloc, name)?,
        kind,
        required,
    }))
}

/// Whether a column may be named so.
#[tactic(auto, unfolding(crate::specs::Words::is_name))]
fn is_name(name: &[u8]) -> bool
    ensures { result ≡ is_name name.now }
{
    begins_with_letter(name) && has_name_bytes(name) && name.len() <= MAX_NAME
}

/// Only letters, digits and `_`.
fn has_name_bytes(name: &[u8]) -> bool
    ensures { result ≡ list_all is_in_name name.now }
{
    name.iter().all(|byte| is_in_name(*byte))
}

/// Whether the first byte is a letter or `_`.
fn begins_with_letter(name: &[u8]) -> bool
    ensures { result ≡ begins_name (slice_index name.now 0) }
{
    name.first().is_some_and(|first| begins_name(*first))
}

/// A letter or `_`.
fn begins_name(byte: u8) -> bool
    ensures { result ≡ begins_name byte }
{
    byte.is_ascii_alphabetic() || byte == b'_'
}

/// A letter, a digit or `_`.
fn is_in_name(byte: u8) -> bool
    ensures { result ≡ is_in_name byte }
{
    begins_name(byte) || byte.is_ascii_digit()
}
