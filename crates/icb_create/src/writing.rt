//! The first version of a new table.
ghost use Rattle.std.specs.Prelude.{◌≡◌, ◌<◌, ◌^◌, true, IfOk};
ghost use Rattle.icb_create.specs.FirstVersion.{IsFirstEntry, IsFirstVersion, first_id, table_of};
ghost use Rattle.icb_meta.specs.Forms.{is_location};
ghost use Rattle.icb_types.specs.Columns.{AreColumns};

use crate::drawing::Drawn;
use crate::named_texts::properties_of;
use icb_aes::AesKey;
use icb_base::NoMemory;
use icb_chain::seal_entry;
use icb_edits::new_table;
use icb_meta::{KeyEntry, NewTable};
use icb_schema::{Octets, Text};
use icb_words::Create;
use std::alloc::Global;

/// The text of the first version of a new table: it has no snapshot, and one key, which the master seals.
pub fn first_version(
    alloc: Global,
    words: Create,
    master: &AesKey,
    drawn: &Drawn,
    now_ms: u64,
) -> Result<Octets, NoMemory>
    requires columns { AreColumns words.schema.columns }
    requires location { is_location words.location ≡ true }
    requires time { now_ms < 2 ^ 63 }
    ensures { IfOk result (IsFirstVersion words master.now drawn.now now_ms) }
{
    let entry = first_entry(alloc, &words, master, drawn)?;
    let table = table_of(alloc, words)?;
    let meta = new_table(alloc, &table, drawn.uuid(), entry, now_ms)?;
    meta.to_bytes(alloc)
}

/// The key of a new table, sealed under its master.
#[tactic(auto, using(crate::proofs::OpensLemmas::key_opens))]
fn first_entry(
    alloc: Global,
    words: &Create,
    master: &AesKey,
    drawn: &Drawn,
) -> Result<KeyEntry, NoMemory>
    ensures { IfOk result (IsFirstEntry words.now master.now drawn.now) }
{
    let id = Text::from_str(alloc, first_id(&words.master));
    let (Ok(id), Ok(by)) = (id, words.master.copy(alloc)) else {
        return Err(NoMemory);
    };
    let key = drawn.key.bytes();
    seal_entry(alloc, drawn.uuid(), master, id, by, &drawn.nonce, key)
}

/// The id of the first key: `key-1`, or `key-2` where its master has that id.
fn first_id(master: &Text) -> &'static str
    ensures { result.now ≡ first_id master.now }
{
    if master.as_str() == "key-1" {
        "key-2"
    } else {
        "key-1"
    }
}

/// What a new table is made of.
fn table_of(alloc: Global, words: Create) -> Result<NewTable, NoMemory>
    ensures { IfOk result (λ table. table ≡ table_of words) }
{
    let properties = properties_of(alloc, &words)?;
    let Create {
        schema,
        location,
        ..
    } = words;
    Ok(NewTable {
        schema,
        location,
        properties,
    })
}
