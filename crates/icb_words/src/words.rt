//! The words of a command line, read from left to right into a command.
ghost use Rattle.std.specs.Prelude.{◌≡◌, ◌≤◌, ◌^◌, codes, map, string_bytes, slice_get, unwrap_or, IfOk, MatchResult, Ok, Err};
ghost use Rattle.icb_words.specs.Forms.{number_of, path_of};
ghost use Rattle.icb_words.specs.Options.{given, needed};
ghost use Rattle.icb_words.specs.Steps.{IsReadingOf, word_as};
ghost use Rattle.icb_words.specs.Words.{KeepsLimits, cat_file_of, command_of, file_words_of, keyring_word_of, meta_of, seal_file_of, table_word_of};

use crate::create_words::{Create, read_create};
use crate::option_tables::OptionTable;
use crate::options::{no_place, pairs_from, value_of};
use crate::rotate_words::{Rotate, read_rotate};
use crate::scan_words::{Scan, read_scan};
use crate::values_given::{block_given, key_size_given, number_given};
use hex::FromHexError;
use icb_base::{KeyMeta, KeyMetaFault, ObjPath, PathFault};
use icb_seal::KeySize;
use std::alloc::Global;

/// What a list of words asks for.
#[derive(Debug, Drop)]
pub enum Command {
    /// How the program is called.
    Help,
    /// The program's version.
    Version,
    /// The plaintext of one encrypted file.
    CatFile(CatFile),
    /// An encrypted file of the input.
    SealFile(SealFile),
    /// A new table.
    Create(Create),
    /// The input's rows, added to a table.
    Append,
    /// The chosen rows of a table.
    Scan(Scan),
    /// Another master key of a table.
    Rotate(Rotate),
    /// A line for each snapshot of a table.
    Snapshots,
    /// A line for each sealed key of a table.
    Keys,
}

/// The words of `cat-file`.
#[derive(Debug, Drop)]
pub struct CatFile {
    /// The file's path in the table.
    pub path: ObjPath,
    /// The file's key, and the prefix of its additional data.
    pub meta: KeyMeta,
    /// The file's recorded length in bytes, below 2^63.
    pub file_length: u64,
    /// How many bytes of the plaintext are passed over.
    pub skip: u64,
    /// How many bytes are written at most; all where it isn't given.
    pub take: Option<u64>,
}

/// The words of `seal-file`.
#[derive(Debug, Drop)]
pub struct SealFile {
    /// The file's path in the table, and the prefix of its additional data.
    pub path: ObjPath,
    /// How many bytes its key has.
    pub key_size: KeySize,
    /// How many bytes of plaintext its blocks have, 1 to 16,777,216.
    pub block: u32,
}

/// Why words are no command.
#[derive(Clone, Copy, Debug, PartialEq, Eq)]
pub enum WordFault {
    /// The word at this position has no place; the number of words where one is missing.
    NoPlace {
        /// The position, counted from 0.
        word: u32,
    },
    /// No memory was left.
    NoMemory,
}

/// Reads words from left to right; the first that has no place decides.
pub fn read_words(alloc: Global, words: &[String]) -> Result<Command, WordFault>
    ensures read { IsReadingOf (command_of (map string_bytes words.now)) result }
    ensures limits { IfOk result KeepsLimits }
{
    match word_at(words, 0)? {
        "--help" => Ok(Command::Help),
        "--version" => Ok(Command::Version),
        "cat-file" => read_cat_file(alloc, words),
        "seal-file" => read_seal_file(alloc, words),
        "create" => read_create(alloc, words),
        "append" => read_keyring_word(alloc, words, Command::Append),
        "scan" => read_scan(alloc, words),
        "rotate" => read_rotate(alloc, words),
        "snapshots" => read_table_word(alloc, words, Command::Snapshots),
        "keys" => read_table_word(alloc, words, Command::Keys),
        _ => Err(WordFault::NoPlace { word: 0 }),
    }
}

/// The words of `cat-file`.
#[tactic(auto, unfolding(crate::specs::Words::cat_file_of))]
fn read_cat_file(alloc: Global, words: &[String]) -> Result<Command, WordFault>
    ensures read { IsReadingOf (cat_file_of (map string_bytes words.now)) result }
    ensures limits { IfOk result KeepsLimits }
{
    let (path, pairs) = read_file_words(alloc, words, OptionTable::CatFile)?;
    let meta = needed_meta(alloc, words, pairs)?;
    let file_length = needed_number(words, pairs, "--length")?;
    Ok(Command::CatFile(CatFile {
        path,
        meta,
        file_length,
        skip: number_given(pairs, "--skip").unwrap_or(0),
        take: number_given(pairs, "--take"),
    }))
}

/// The words of `seal-file`.
#[tactic(auto, unfolding(crate::specs::Words::seal_file_of))]
fn read_seal_file(alloc: Global, words: &[String]) -> Result<Command, WordFault>
    ensures read { IsReadingOf (seal_file_of (map string_bytes words.now)) result }
    ensures limits { IfOk result KeepsLimits }
{
    let (path, pairs) = read_file_words(alloc, words, OptionTable::SealFile)?;
    let key_size = key_size_given(pairs);
    let block = block_given(pairs);
    Ok(Command::SealFile(SealFile {
        path,
        key_size,
        block,
    }))
}

/// The command, where the words behind its name are a table's folder alone.
#[tactic(auto, unfolding(crate::specs::Words::table_word_of))]
fn read_table_word(alloc: Global, words: &[String], command: Command) -> Result<Command, WordFault>
    requires { KeepsLimits command }
    ensures read { IsReadingOf (table_word_of command (map string_bytes words.now)) result }
    ensures limits { IfOk result KeepsLimits }
{
    word_at(words, 1)?;
    pairs_from(alloc, words, 2, OptionTable::Empty)?;
    Ok(command)
}

/// The command, where the words behind its name are a table's folder and a keyring.
#[tactic(auto, unfolding(crate::specs::Words::keyring_word_of))]
fn read_keyring_word(
    alloc: Global,
    words: &[String],
    command: Command,
) -> Result<Command, WordFault>
    requires { KeepsLimits command }
    ensures read { IsReadingOf (keyring_word_of command (map string_bytes words.now)) result }
    ensures limits { IfOk result KeepsLimits }
{
    word_at(words, 1)?;
    let pairs = pairs_from(alloc, words, 2, OptionTable::Keyring)?;
    if value_of(pairs, "--keys").is_none() {
        return Err(no_place(words.len()));
    }
    Ok(command)
}

/// The path of a command on one file, and the pairs of its options.
fn read_file_words<'a>(
    alloc: Global,
    words: &'a [String],
    table: OptionTable,
) -> Result<(ObjPath, &'a [String]), WordFault>
    ensures { MatchResult result
        (λ file. file_words_of table (map string_bytes words.now)
        ≡ Ok (record { path = file.0; pairs = map string_bytes file.1.now }))
        (λ fault. IsReadingOf (file_words_of table (map string_bytes words.now)) (Err fault)) }
{
    word_at(words, 1)?;
    let path = path_at(alloc, words, 2)?;
    let pairs = pairs_from(alloc, words, 3, table)?;
    Ok((path, pairs))
}

/// The word at a position.
pub fn word_at(words: &[String], at: u32) -> Result<&str, WordFault>
    ensures { MatchResult result (λ word. slice_get (map string_bytes words.now) at ≡ Some word.now)
        (λ fault. (slice_get (map string_bytes words.now) at ≡ None)
        × (fault ≡ WordFault.NoPlace at)) }
{
    match words.get(at as usize) {
        Some(word) => Ok(word.as_str()),
        None => Err(WordFault::NoPlace { word: at }),
    }
}

/// The object path that the word at a position is.
fn path_at(alloc: Global, words: &[String], at: u32) -> Result<ObjPath, WordFault>
    ensures { IsReadingOf (word_as path_of (map string_bytes words.now) at) result }
{
    match ObjPath::read(alloc, word_at(words, at)?.as_bytes()) {
        Ok(path) => Ok(path),
        Err(PathFault::BadPath) => Err(WordFault::NoPlace { word: at }),
        Err(PathFault::NoMemory) => Err(WordFault::NoMemory),
    }
}

/// The key that `--key` gives, with the prefix that `--prefix` may give.
fn needed_meta(alloc: Global, words: &[String], pairs: &[String]) -> Result<KeyMeta, WordFault>
    ensures { IsReadingOf (meta_of (map string_bytes words.now) (map string_bytes pairs.now))
        result }
{
    let Some(digits) = value_of(pairs, "--key") else {
        return Err(no_place(words.len()));
    };
    let key = match hex::decode(alloc, digits) {
        Ok(key) => key,
        Err(FromHexError::OutOfMemory) => return Err(WordFault::NoMemory),
        Err(_) => return Err(no_place(words.len())),
    };
    let prefix = value_of(pairs, "--prefix").map(|prefix| prefix.as_bytes());
    match KeyMeta::new(alloc, key.as_slice(), prefix, None) {
        Ok(meta) => Ok(meta),
        Err(KeyMetaFault::KeyLength { found: _ }) => Err(no_place(words.len())),
        Err(KeyMetaFault::NoMemory) => Err(WordFault::NoMemory),
    }
}

/// The number that an option gives, which has to be given.
fn needed_number(words: &[String], pairs: &[String], name: &str) -> Result<u64, WordFault>
    ensures { IsReadingOf (needed (map string_bytes words.now)
        (given number_of name.now (map string_bytes pairs.now))) result }
{
    number_given(pairs, name).ok_or(no_place(words.len()))
}
