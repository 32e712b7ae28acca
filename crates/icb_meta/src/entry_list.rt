//! A list of key entries.
ghost use Rattle.std.specs.Prelude.{◌≡◌, [], ◌∷◌, ◌++◌, IfOk, OnErr, OnOk, option_map};

use crate::records::KeyEntry;
use icb_base::NoMemory;
use icb_schema::{Octets, Text};
use sqlite_items::Items;
use std::alloc::Global;
use std::marker::Model;

/// Entries of keys, seen as their list.
#[derive(Debug, Drop)]
pub struct KeyEntries {
    items: Vec<KeyEntry>,
}

impl Model for KeyEntries {
    ghost use Rattle.std.specs.Prelude.{List};
    ghost use Rattle.icb_meta.specs.declared.records.KeyEntry.{KeyEntry};

    ghost Value = { List KeyEntry };

    ghost view = { λ entries. entries.items.items };
}

impl KeyEntries {
    /// No entries. It takes no memory and keeps the allocator for when it grows.
    pub fn new(alloc: Global) -> Self
        ensures { result ≡ [] }
    {
        KeyEntries {
            items: Vec::new(alloc),
        }
    }

    /// The list of these entries, in their memory.
    pub fn from_vec(items: Vec<KeyEntry>) -> Self
        ensures { result ≡ items.items }
    {
        KeyEntries { items }
    }

    /// The entries.
    pub fn as_slice(&self) -> &[KeyEntry]
        ensures { result.now ≡ self.now }
    {
        self.items.as_slice()
    }

    /// Adds an entry at the end; after the refusal the list is as before.
    pub fn push(&mut self, item: KeyEntry) -> Result<(), NoMemory>
        ensures ok { OnOk result (self.new ≡ self.old ++ item ∷ []) }
        ensures err { OnErr result (self.new ≡ self.old) }
    {
        self.items.push(item)?;
        Ok(())
    }

    /// A second list of the same entries.
    pub fn copy(&self, alloc: Global) -> Result<Self, NoMemory>
        ensures { IfOk result (λ copy. copy ≡ self.now) }
    {
        let mut copies = KeyEntries::new(alloc);
        for entry in self.as_slice() {
            copies.push(entry.copy(alloc)?)?;
        }
        Ok(copies)
    }
}

impl KeyEntry {
    /// A second entry of the same content.
    pub fn copy(&self, alloc: Global) -> Result<KeyEntry, NoMemory>
        ensures { IfOk result (λ copy. copy ≡ self.now) }
    {
        let properties = copies_of(alloc, self.properties.as_slice())?;
        let by = match &self.by {
            Some(by) => Some(copy_of(alloc, by)?),
            None => None,
        };
        let id = copy_of(alloc, &self.id)?;
        let Ok(sealed) = self.sealed.copy(alloc) else {
            return Err(NoMemory);
        };
        Ok(KeyEntry {
            id,
            sealed,
            by,
            properties,
        })
    }
}

/// A second list of the same texts.
fn copies_of(alloc: Global, properties: &[(Text, Text)]) -> Result<Items<(Text, Text)>, NoMemory>
    ensures { IfOk result (λ copy. copy ≡ properties.now) }
{
    let mut copies = Items::new(alloc);
    for (name, text) in properties {
        let name = copy_of(alloc, name)?;
        copies.push((name, copy_of(alloc, text)?))?;
    }
    Ok(copies)
}

/// A second text of the same bytes.
fn copy_of(alloc: Global, text: &Text) -> Result<Text, NoMemory>
    ensures { IfOk result (λ copy. copy ≡ text.now) }
{
    match text.copy(alloc) {
        Ok(copy) => Ok(copy),
        Err(_) => Err(NoMemory),
    }
}
