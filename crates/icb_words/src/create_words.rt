//! The words of `create`.
ghost use Rattle.std.specs.Prelude.{◌≡◌, codes, map, string_bytes, true, unwrap_or, IfOk};
ghost use Rattle.icb_meta.specs.Forms.{is_location};
ghost use Rattle.icb_types.specs.Columns.{AreColumns};
ghost use Rattle.icb_words.specs.Forms.{id_of, location_of, schema_of};
ghost use Rattle.icb_words.specs.Options.{given, needed};
ghost use Rattle.icb_words.specs.Steps.{IsReadingOf};
ghost use Rattle.icb_words.specs.Words.{KeepsLimits, create_of};

use crate::forms::schema;
use crate::option_tables::OptionTable;
use crate::options::{no_place, pairs_from, value_of};
use crate::values_given::{block_given, key_size_given, number_within_given};
use crate::words::{Command, WordFault, word_at};
use icb_base::NoMemory;
use icb_chain::is_id;
use icb_meta::is_location;
use icb_schema::Text;
use icb_seal::KeySize;
use icb_types::TableSchema;
use std::alloc::Global;

/// The words of `create`.
#[derive(Debug, Drop)]
pub struct Create {
    /// The id of the master key in the keyring.
    pub master: Text,
    /// The table's columns.
    pub schema: TableSchema,
    /// Where the table is, as its metadata says.
    pub location: Text,
    /// How many bytes the keys of its files have.
    pub key_size: KeySize,
    /// How many bytes of plaintext a block of a file has, 1 to 16,777,216.
    pub block: u32,
    /// How many bytes of rows begin a new Avro block, 1 to 1,048,576.
    pub avro_block: u32,
    /// How many rows a data file has at most, 1 to 1,000,000.
    pub rows_per_file: u32,
    /// How often a commit is tried again, 0 to 100.
    pub retries: u32,
}

/// The words of `create`.
#[tactic(auto, unfolding(crate::specs::Words::create_of))]
pub fn read_create(alloc: Global, words: &[String]) -> Result<Command, WordFault>
    ensures read { IsReadingOf (create_of (map string_bytes words.now)) result }
    ensures limits { IfOk result KeepsLimits }
{
    word_at(words, 1)?;
    let pairs = pairs_from(alloc, words, 2, OptionTable::Create)?;
    if value_of(pairs, "--keys").is_none() {
        return Err(no_place(words.len()));
    }
    let master = needed_master(alloc, words, pairs)?;
    let schema = needed_schema(alloc, words, pairs)?;
    let Ok(location) = Text::from_str(alloc, location_given(pairs)) else {
        return Err(WordFault::NoMemory);
    };
    Ok(Command::Create(Create {
        master,
        schema,
        location,
        key_size: key_size_given(pairs),
        block: block_given(pairs),
        avro_block: number_within_given(pairs, "--avro-block", 1, 1048576).unwrap_or(65536),
        rows_per_file: number_within_given(pairs, "--rows-per-file", 1, 1000000).unwrap_or(100000),
        retries: number_within_given(pairs, "--retries", 0, 100).unwrap_or(4),
    }))
}

/// The id that `--master` gives, which has to be given.
pub fn needed_master(alloc: Global, words: &[String], pairs: &[String]) -> Result<Text, WordFault>
    ensures { IsReadingOf (needed (map string_bytes words.now)
        (given id_of (codes "--master") (map string_bytes pairs.now))) result }
{
    match value_of(pairs, "--master") {
        Some(id) if is_id(id.as_bytes()) => match Text::from_str(alloc, id) {
            Ok(id) => Ok(id),
            Err(_) => Err(WordFault::NoMemory),
        },
        _ => Err(no_place(words.len())),
    }
}

/// The schema that `--schema` gives, which has to be given.
fn needed_schema(
    alloc: Global,
    words: &[String],
    pairs: &[String],
) -> Result<TableSchema, WordFault>
    ensures read { IsReadingOf (needed (map string_bytes words.now)
        (given schema_of (codes "--schema") (map string_bytes pairs.now))) result }
    ensures columns { IfOk result (λ schema. AreColumns schema.columns) }
{
    let Some(word) = value_of(pairs, "--schema") else {
        return Err(no_place(words.len()));
    };
    match schema(alloc, word) {
        Ok(Some(schema)) => Ok(schema),
        Ok(None) => Err(no_place(words.len())),
        Err(NoMemory) => Err(WordFault::NoMemory),
    }
}

/// The location that `--location` gives, else `file:///table`.
fn location_given(pairs: &[String]) -> &str
    ensures value { result.now ≡ unwrap_or (given location_of (codes "--location")
        (map string_bytes pairs.now)) (codes "file:///table") }
    ensures limits { is_location result.now ≡ true }
{
    match value_of(pairs, "--location") {
        Some(location) if is_location(location) => location,
        _ => "file:///table",
    }
}
