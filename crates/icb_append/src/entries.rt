//! Lists of entries and of manifests' rows.
ghost use Rattle.std.specs.Prelude.{◌≡◌, [], ◌∷◌, ◌++◌, OnErr, OnOk};

use icb_list::ListRow;
use icb_manifest::Entry;
use icb_schema::NoMemory;
use std::alloc::Global;
use std::marker::Model;

/// Entries of a manifest, seen as their list.
#[derive(Debug, Drop)]
pub struct Entries {
    items: Vec<Entry>,
}

impl Model for Entries {
    ghost use Rattle.std.specs.Prelude.{List};
    ghost use Rattle.icb_manifest.specs.declared.entry.Entry.{Entry};

    ghost Value = { List Entry };

    ghost view = { λ entries. entries.items.items };
}

impl Entries {
    /// No entries. It takes no memory and keeps the allocator for when it grows.
    pub fn new(alloc: Global) -> Self
        ensures { result ≡ [] }
    {
        Entries {
            items: Vec::new(alloc),
        }
    }

    /// The entries.
    pub fn as_slice(&self) -> &[Entry]
        ensures { result.now ≡ self.now }
    {
        self.items.as_slice()
    }

    /// Adds an entry at the end; after the refusal the list is as before.
    pub fn push(&mut self, entry: Entry) -> Result<(), NoMemory>
        ensures ok { OnOk result (self.new ≡ self.old ++ entry ∷ []) }
        ensures err { OnErr result (self.new ≡ self.old) }
    {
        self.items.push(entry)?;
        Ok(())
    }
}

/// Rows of a manifest list, seen as their list.
#[derive(Debug, Drop)]
pub struct ListRows {
    items: Vec<ListRow>,
}

impl Model for ListRows {
    ghost use Rattle.std.specs.Prelude.{List};
    ghost use Rattle.icb_list.specs.declared.row.ListRow.{ListRow};

    ghost Value = { List ListRow };

    ghost view = { λ rows. rows.items.items };
}

impl ListRows {
    /// No rows. It takes no memory and keeps the allocator for when it grows.
    pub fn new(alloc: Global) -> Self
        ensures { result ≡ [] }
    {
        ListRows {
            items: Vec::new(alloc),
        }
    }

    /// These rows.
    pub fn from_vec(items: Vec<ListRow>) -> Self
        ensures { result ≡ items.items }
    {
        ListRows { items }
    }

    /// The rows.
    pub fn as_slice(&self) -> &[ListRow]
        ensures { result.now ≡ self.now }
    {
        self.items.as_slice()
    }

    /// Adds a row at the end; after the refusal the list is as before.
    pub fn push(&mut self, row: ListRow) -> Result<(), NoMemory>
        ensures ok { OnOk result (self.new ≡ self.old ++ row ∷ []) }
        ensures err { OnErr result (self.new ≡ self.old) }
    {
        self.items.push(row)?;
        Ok(())
    }
}
