//! The properties of a new table: texts by their names.
ghost use Rattle.std.specs.Prelude.{◌≡◌, ◌++◌, ◌∷◌, [], decimal, IfOk, OnOk};
ghost use Rattle.icb_create.specs.FirstVersion.{properties_of};
ghost use Rattle.icb_seal.specs.Keys.{key_bytes};

use icb_base::NoMemory;
use icb_schema::Text;
use icb_seal::KeySize;
use icb_words::Create;
use sqlite_items::Items;
use std::alloc::Global;

/// The properties of a new table, in the order of their names.
#[tactic(auto, unfolding(crate::specs::FirstVersion::properties_of))]
pub(crate) fn properties_of(alloc: Global, words: &Create) -> Result<Items<(Text, Text)>, NoMemory>
    ensures { IfOk result (λ properties. properties ≡ properties_of words.now) }
{
    let key_bytes = key_bytes(words.key_size) as u32;
    let mut texts = Items::new(alloc);
    put_number(alloc, &mut texts, "commit.retry.num-retries", words.retries)?;
    put_number(alloc, &mut texts, "encryption.data-key-length", key_bytes)?;
    put(
        alloc,
        &mut texts,
        "encryption.key-id",
        words.master.as_str(),
    )?;
    put_number(alloc, &mut texts, "icb.avro-block", words.avro_block)?;
    put_number(alloc, &mut texts, "icb.block-length", words.block)?;
    put_number(alloc, &mut texts, "icb.rows-per-file", words.rows_per_file)?;
    Ok(texts)
}

/// How many bytes a key of this size has.
pub(crate) fn key_bytes(size: KeySize) -> usize
    ensures { result ≡ key_bytes size }
{
    match size {
        KeySize::Bytes16 => 16,
        KeySize::Bytes24 => 24,
        KeySize::Bytes32 => 32,
    }
}

/// Puts a number in decimal digits behind the others.
fn put_number(
    alloc: Global,
    texts: &mut Items<(Text, Text)>,
    name: &str,
    number: u32,
) -> Result<(), NoMemory>
    ensures { OnOk result (texts.new ≡ texts.old ++ (name.now, decimal number) ∷ []) }
{
    let digits = format!(in alloc; "{number}")?;
    put(alloc, texts, name, digits.as_str())
}

/// Puts a text by its name behind the others.
fn put(
    alloc: Global,
    texts: &mut Items<(Text, Text)>,
    name: &str,
    text: &str,
) -> Result<(), NoMemory>
    ensures { OnOk result (texts.new ≡ texts.old ++ (name.now, text.now) ∷ []) }
{
    let (Ok(name), Ok(text)) = (Text::from_str(alloc, name), Text::from_str(alloc, text)) else {
        return Err(NoMemory);
    };
    match texts.push((name, text)) {
        Ok(()) => Ok(()),
        Err(_) => Err(NoMemory),
    }
}
