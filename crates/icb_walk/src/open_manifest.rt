//! A manifest that is open, and its entries, one by one.

ghost use Rattle.std.specs.Prelude.{◌≡◌, ◌≢◌, ℕ, List, Err, IfErr, IfSome, None};
ghost use Rattle.icb_base.specs.Objects.{Objects};
ghost use Rattle.icb_walk.specs.Entries.{FitsEntries, IsFileFault, StepsIn};
ghost use Rattle.icb_walk.specs.Steps.{ReadsFile};

use crate::fault::TreeFault;
use crate::leaf::Leaf;
use crate::listing::{Listing, data_file_of, is_deleted};
use crate::opened::OpenFile;
use crate::trouble::at;
use icb_base::Store;
use icb_manifest::Entry;
use icb_schema::Text;
use std::alloc::Global;

/// An entry that was read and not passed yet.
#[derive(Drop)]
pub(crate) struct PlacedEntry {
    /// Its place in the manifest.
    pub(crate) place: u64,
    pub(crate) entry: Entry,
}

/// A manifest that is open.
#[derive(Drop)]
pub(crate) struct OpenManifest {
    /// The manifest, as its row names it.
    pub(crate) file: Listing,
    pub(crate) reader: OpenFile,
    /// The position of its row in the list.
    pub(crate) row: u64,
    /// The entry that was read and not passed yet.
    pub(crate) entry: Option<PlacedEntry>,
}

/// What a step finds.
#[derive(Drop)]
pub(crate) enum Found {
    /// There may be more.
    More,
    /// There is no more.
    End,
    /// The next live data file.
    File(Leaf),
}

impl OpenManifest {
    /// Reads the next entry, or passes the one that was read.
    pub(crate) fn step<S: Store>(
        &mut self,
        alloc: Global,
        location: &Text,
        store: &mut S,
    ) -> Result<Found, TreeFault>
        ensures steps { IfSome (S.held store.old) (λ files. FitsEntries files self.old
            → StepsIn files location.now self.old self.new result) }
        ensures same { (self.new.file ≡ self.old.file) × (self.new.row ≡ self.old.row) }
        ensures fault { IfErr result IsFileFault }
        ensures reads { ReadsFile S.Store self.old.reader.stream.path (result ≡ Err TreeFault.Store)
            store.old store.new }
    {
        if self.entry.is_some() {
            self.pass_entry(alloc, location)
        } else {
            self.read_entry(alloc, store)
        }
    }

    /// Reads the next entry.
    fn read_entry<S: Store>(&mut self, alloc: Global, store: &mut S) -> Result<Found, TreeFault>
        requires { self.old.entry ≡ None }
        ensures steps { IfSome (S.held store.old) (λ files. FitsEntries files self.old
            → (location : List ℕ) → StepsIn files location self.old self.new result) }
        ensures same { (self.new.file ≡ self.old.file) × (self.new.row ≡ self.old.row) }
        ensures fault { IfErr result IsFileFault }
        ensures reads { ReadsFile S.Store self.old.reader.stream.path (result ≡ Err TreeFault.Store)
            store.old store.new }
    {
        let found = match self.reader.next(alloc, store) {
            Ok(found) => found,
            Err(trouble) => return Err(at(alloc, &self.file.path, trouble)),
        };
        let Some(entry) = found else {
            return Ok(Found::End);
        };
        let place = self.reader.records.place();
        self.entry = Some(PlacedEntry { place, entry });
        Ok(Found::More)
    }

    /// Passes the entry that was read: its file is given where it is live.
    fn pass_entry(&mut self, alloc: Global, location: &Text) -> Result<Found, TreeFault>
        ensures steps { (files : Objects) → FitsEntries files self.old
            → StepsIn files location.now self.old self.new result }
        ensures same { (self.new.file ≡ self.old.file) × (self.new.row ≡ self.old.row)
            × (self.new.reader ≡ self.old.reader) }
        ensures fault { IfErr result IsFileFault }
        ensures no_store { result ≢ Err TreeFault.Store }
    {
        let Some(placed) = self.entry.take() else {
            return Ok(Found::More);
        };
        if is_deleted(&placed.entry) {
            return Ok(Found::More);
        }
        match data_file_of(alloc, location, placed.place, &placed.entry.file) {
            Ok(file) => Ok(Found::File(Leaf {
                path: file.path,
                key: file.key,
                length: file.length,
                file: placed.entry.file,
                row: self.row,
            })),
            Err(trouble) => {
                self.entry = Some(placed);
                Err(at(alloc, &self.file.path, trouble))
            }
        }
    }
}
