//! The words of `rotate`.
ghost use Rattle.std.specs.Prelude.{◌≡◌, map, string_bytes, IfOk};
ghost use Rattle.icb_words.specs.Steps.{IsReadingOf};
ghost use Rattle.icb_words.specs.Words.{KeepsLimits, rotate_of};

use crate::create_words::needed_master;
use crate::option_tables::OptionTable;
use crate::options::{no_place, pairs_from, value_of};
use crate::words::{Command, WordFault, word_at};
use icb_schema::Text;
use std::alloc::Global;

/// The words of `rotate`.
#[derive(Debug, Drop)]
pub struct Rotate {
    /// The id of the new master key in the keyring.
    pub master: Text,
}

/// The words of `rotate`.
#[tactic(auto, unfolding(crate::specs::Words::rotate_of))]
pub fn read_rotate(alloc: Global, words: &[String]) -> Result<Command, WordFault>
    ensures read { IsReadingOf (rotate_of (map string_bytes words.now)) result }
    ensures limits { IfOk result KeepsLimits }
{
    word_at(words, 1)?;
    let pairs = pairs_from(alloc, words, 2, OptionTable::Rotate)?;
    if value_of(pairs, "--keys").is_none() {
        return Err(no_place(words.len()));
    }
    let master = needed_master(alloc, words, pairs)?;
    Ok(Command::Rotate(Rotate { master }))
}
