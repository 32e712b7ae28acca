//! The JSON of sealed keys.
ghost use Rattle.std.specs.Prelude.{◌≡◌, IfOk, Ok, OnOk, Some, codes, map, option_map};
ghost use Rattle.base64.specs.GeneralPurpose.{decode_of, encode_of};
ghost use Rattle.base64.specs.Engines.{standard};
ghost use Rattle.serde_json.specs.Data as json;
ghost use Rattle.serde_json.specs.View.{members_view, view};
ghost use Rattle.icb_schema.specs.Reading.{all_read};
ghost use Rattle.icb_meta.specs.Forms.{base64_in, entry_in};
ghost use Rattle.icb_edits.specs.Sets.{set_one};
ghost use Rattle.icb_edits.specs.Values.{entry_json, ordered, texts_or_none};

use crate::values::{put, put_str, put_text_or_none, texts_json};
use base64::engine::general_purpose::STANDARD;
use icb_base::NoMemory;
use icb_meta::KeyEntry;
use icb_schema::{Octets, Text};
use serde_json::{Map, Value};
use std::alloc::Global;

/// A sealed key, which reads as the key with its texts in the order of their names.
pub(crate) fn entry_json(alloc: Global, entry: &KeyEntry) -> Result<Value, NoMemory>
    ensures json { IfOk result (λ value. view value ≡ entry_json entry.now) }
    ensures reads { IfOk result (λ value. entry_in (entry_json entry.now)
        ≡ Some (ordered entry.now)) }
{
    let sealed = sealed_json(alloc, &entry.sealed)?;
    entry_object(alloc, entry, sealed)
}

/// Its members, of which the sealed bytes are made.
#[tactic(auto, unfolding(crate::specs::Values::entry_json))]
fn entry_object(alloc: Global, entry: &KeyEntry, sealed: Value) -> Result<Value, NoMemory>
    requires { view sealed ≡ json.string (encode_of standard entry.now.sealed) }
    ensures { IfOk result (λ value. view value ≡ entry_json entry.now) }
{
    let mut members = Map::new(alloc);
    put_text_or_none(alloc, &mut members, "encrypted-by-id", entry.by.as_ref())?;
    put(alloc, &mut members, "encrypted-key-metadata", sealed)?;
    put_str(alloc, &mut members, "key-id", entry.id.as_str())?;
    put_texts(alloc, &mut members, entry.properties.as_slice())?;
    Ok(Value::Object(members))
}

/// Sealed bytes, in base64, which read as them.
fn sealed_json(alloc: Global, sealed: &Octets) -> Result<Value, NoMemory>
    ensures json { IfOk result (λ value. view value ≡ json.string (encode_of standard sealed.now)) }
    ensures reads { IfOk result (λ value. base64_in (json.string (encode_of standard sealed.now))
        ≡ Some sealed.now) }
{
    let text = STANDARD.encode(alloc, sealed.as_slice())?;
    Ok(Value::String(text))
}

/// Sets the texts, where there are any.
fn put_texts(
    alloc: Global,
    members: &mut Map<String, Value>,
    texts: &[(Text, Text)],
) -> Result<(), NoMemory>
    ensures { OnOk result (members_view members.new.entries
        ≡ set_one (codes "properties") (texts_or_none texts.now)
        (members_view members.old.entries)) }
{
    match texts {
        [] => Ok(()),
        [_, ..] => put(alloc, members, "properties", texts_json(alloc, texts)?),
    }
}

/// Sealed keys, in order, which read as the keys with their texts in order.
pub(crate) fn entries_json(alloc: Global, entries: &[KeyEntry]) -> Result<Vec<Value>, NoMemory>
    ensures json { IfOk result (λ values. map view values.items ≡ map entry_json entries.now) }
    ensures reads { IfOk result (λ values. all_read entry_in (map entry_json entries.now)
        ≡ Some (map ordered entries.now)) }
{
    let mut values = Vec::new(alloc);
    for entry in entries {
        values.push(entry_json(alloc, entry)?)?;
    }
    Ok(values)
}
