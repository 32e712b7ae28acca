//! Sealed keys, and texts by their names (Apache Iceberg Table Spec, "Encryption Keys").
ghost use Rattle.std.specs.Prelude.{◌≡◌, [], codes, map, option_map};
ghost use Rattle.serde_json.specs.View.{members_view, view};
ghost use Rattle.icb_schema.specs.Reading.{all_read, needed};
ghost use Rattle.icb_meta.specs.Answers.{Shows};
ghost use Rattle.icb_meta.specs.Forms.{base64_in, entries_in, entry_in, entry_of, if_absent, properties_in, texts_of};
ghost use Rattle.icb_meta.specs.Shown.{member_or, or_field};

use crate::distinct::have_distinct_names;
use crate::fault::Refusal;
use crate::members::{items_in, needed_text, optional_text};
use crate::records::KeyEntry;
use base64::DecodeAllocError;
use base64::engine::general_purpose::STANDARD;
use icb_schema::{Octets, Text};
use serde_json::{Map, Value};
use sqlite_items::Items;
use std::alloc::Global;

/// The table's sealed keys.
pub(crate) fn entries_field(alloc: Global, object: &Value) -> Result<Items<KeyEntry>, Refusal>
    ensures { Shows (λ entries. entries) result
        (member_or [] entries_in (codes "encryption-keys") (view object.now)) }
{
    match object.get("encryption-keys") {
        Some(value) => entries_in(alloc, value),
        None => Ok(Items::new(alloc)),
    }
}

/// Sealed keys whose ids are distinct.
#[tactic(auto, unfolding(crate::specs::Forms::entries_in))]
fn entries_in(alloc: Global, value: &Value) -> Result<Items<KeyEntry>, Refusal>
    ensures { Shows (λ entries. entries) result
        (or_field (codes "encryption-keys") (entries_in (view value.now))) }
{
    let Some(items) = items_in(value) else {
        return Err(Refusal::Field("encryption-keys"));
    };
    let entries = all_entries(alloc, items)?;
    if have_distinct_names(alloc, entries.as_slice())? {
        Ok(entries)
    } else {
        Err(Refusal::Field("encryption-keys"))
    }
}

/// Values that are all sealed keys.
fn all_entries(alloc: Global, items: &[Value]) -> Result<Items<KeyEntry>, Refusal>
    ensures { Shows (λ entries. entries) result
        (or_field (codes "encryption-keys") (all_read entry_in (map view items.now))) }
{
    let mut entries = Items::new(alloc);
    for item in items {
        entries.push(entry_in(alloc, item)?)?;
    }
    Ok(entries)
}

/// A sealed key.
#[tactic(auto, unfolding(crate::specs::Forms::entry_in))]
fn entry_in(alloc: Global, value: &Value) -> Result<KeyEntry, Refusal>
    ensures { Shows (λ entry. entry) result
        (or_field (codes "encryption-keys") (entry_in (view value.now))) }
{
    let sealed = sealed_in(alloc, value)?;
    let properties = properties_or_none(alloc, value.get("properties"), "encryption-keys")?;
    entry_of(alloc, sealed, properties, value)
}

/// The entry of sealed bytes and properties, with its ids.
#[tactic(auto, unfolding(crate::specs::Forms::entry_of))]
fn entry_of(
    alloc: Global,
    sealed: Octets,
    properties: Items<(Text, Text)>,
    value: &Value,
) -> Result<KeyEntry, Refusal>
    ensures { Shows (λ entry. entry) result
        (or_field (codes "encryption-keys") (entry_of sealed properties (view value.now))) }
{
    let refusal = Refusal::Field("encryption-keys");
    let id = needed_text(value, "key-id").ok_or(refusal)?;
    let by = optional_text(value, "encrypted-by-id").ok_or(refusal)?;
    let id = Text::from_str(alloc, id)?;
    let by = match by {
        Some(by) => Some(Text::from_str(alloc, by)?),
        None => None,
    };
    Ok(KeyEntry {
        id,
        sealed,
        by,
        properties,
    })
}

/// The sealed bytes, in base64.
fn sealed_in(alloc: Global, value: &Value) -> Result<Octets, Refusal>
    ensures { Shows (λ bytes. bytes) result (or_field (codes "encryption-keys")
        (needed base64_in (codes "encrypted-key-metadata") (view value.now))) }
{
    let Some(text) = needed_text(value, "encrypted-key-metadata") else {
        return Err(Refusal::Field("encryption-keys"));
    };
    match STANDARD.decode(alloc, text.as_bytes()) {
        Ok(bytes) => Ok(Octets::from_vec(bytes)),
        Err(DecodeAllocError::OutOfMemory) => Err(Refusal::NoMemory),
        Err(_) => Err(Refusal::Field("encryption-keys")),
    }
}

/// The table's properties.
pub(crate) fn properties_field(
    alloc: Global,
    object: &Value,
) -> Result<Items<(Text, Text)>, Refusal>
    ensures { Shows (λ texts. texts) result
        (member_or [] properties_in (codes "properties") (view object.now)) }
{
    properties_or_none(alloc, object.get("properties"), "properties")
}

/// Texts by their names, none where the member is absent; the field of this name is refused.
fn properties_or_none(
    alloc: Global,
    member: Option<&Value>,
    field: &'static str,
) -> Result<Items<(Text, Text)>, Refusal>
    ensures { Shows (λ texts. texts) result
        (or_field field.now
        (if_absent [] properties_in (option_map (λ v. view v.now) member.entry))) }
{
    let Some(member) = member else {
        return Ok(Items::new(alloc));
    };
    match member.as_object() {
        Some(members) => texts_in(alloc, members, field),
        None => Err(Refusal::Field(field)),
    }
}

/// Members that are all texts, with their names.
fn texts_in(
    alloc: Global,
    members: &Map<String, Value>,
    field: &'static str,
) -> Result<Items<(Text, Text)>, Refusal>
    ensures { Shows (λ texts. texts) result
        (or_field field.now (texts_of (members_view members.now.entries))) }
{
    let mut texts = Items::new(alloc);
    for (name, member) in members.iter() {
        let Some(text) = member.as_str() else {
            return Err(Refusal::Field(field));
        };
        let name = Text::from_str(alloc, name.as_str())?;
        texts.push((name, Text::from_str(alloc, text)?))?;
    }
    Ok(texts)
}
