//! A manifest list that is open, and its rows, one by one.

ghost use Rattle.std.specs.Prelude.{◌≡◌, Err, IfErr, IfSome, None};
ghost use Rattle.icb_walk.specs.Entries.{IsFileFault};
ghost use Rattle.icb_walk.specs.Rows.{EntersRow, FitsRows, OpensList, OpensManifest, ReadsRow};
ghost use Rattle.icb_walk.specs.Steps.{ReadsFile, ReadsStore};

use crate::fault::TreeFault;
use crate::listing::{Listing, is_passed, manifest_of};
use crate::open_manifest::OpenManifest;
use crate::opened::OpenFile;
use crate::trouble::at;
use icb_base::Store;
use icb_list::ListRow;
use icb_schema::Text;
use std::alloc::Global;

/// A row that was read and not passed yet.
#[derive(Drop)]
pub(crate) struct PlacedRow {
    /// Its position in the list, from 0.
    pub(crate) number: u64,
    /// Its place in the list.
    pub(crate) place: u64,
    pub(crate) row: ListRow,
}

/// A list that is open.
#[derive(Drop)]
pub(crate) struct OpenList {
    pub(crate) reader: OpenFile,
    /// How many rows were read.
    pub(crate) count: u64,
    /// The row that was read and not passed yet.
    pub(crate) row: Option<PlacedRow>,
}

/// The rows of a list.
#[derive(Drop)]
pub(crate) enum Rows {
    /// The list wasn't opened yet.
    Before,
    /// The list is open.
    Open(OpenList),
    /// All rows were passed.
    Behind,
}

impl OpenList {
    /// Reads the next row, and says whether there is one. No walk counts 2^64 rows; one that did would be
    /// told that no memory is left.
    pub(crate) fn read_row<S: Store>(
        &mut self,
        alloc: Global,
        file: &Listing,
        store: &mut S,
    ) -> Result<bool, TreeFault>
        requires { self.old.row ≡ None }
        ensures reads_row { IfSome (S.held store.old) (λ files. FitsRows files file.now self.old
            → ReadsRow files file.now self.old self.new result) }
        ensures fault { IfErr result IsFileFault }
        ensures reads { ReadsFile S.Store self.old.reader.stream.path (result ≡ Err TreeFault.Store)
            store.old store.new }
    {
        let number = self.count;
        if number == u64::MAX {
            return Err(TreeFault::NoMemory);
        }
        let found = match self.reader.next(alloc, store) {
            Ok(found) => found,
            Err(trouble) => return Err(at(alloc, &file.path, trouble)),
        };
        let Some(row) = found else {
            return Ok(false);
        };
        let place = self.reader.records.place();
        self.count = number + 1;
        self.row = Some(PlacedRow { number, place, row });
        Ok(true)
    }

    /// Passes the row that was read: its manifest is opened where it counts.
    pub(crate) fn enter_row<S: Store>(
        &mut self,
        alloc: Global,
        location: &Text,
        file: &Listing,
        store: &mut S,
    ) -> Result<Option<OpenManifest>, TreeFault>
        ensures enters { IfSome (S.held store.old) (λ files. FitsRows files file.now self.old
            → EntersRow S.Store files location.now file.now self.old self.new store.old store.new
            result) }
        ensures fault { IfErr result IsFileFault }
        ensures reads { ReadsStore S.Store (result ≡ Err TreeFault.Store) store.old store.new }
    {
        let Some(placed) = self.row.take() else {
            return Ok(None);
        };
        if is_passed(&placed.row) {
            return Ok(None);
        }
        let found = match manifest_of(alloc, location, placed.place, &placed.row) {
            Ok(found) => found,
            Err(trouble) => {
                self.row = Some(placed);
                return Err(at(alloc, &file.path, trouble));
            }
        };
        match open_manifest(alloc, found, placed.number, store) {
            Ok(manifest) => Ok(Some(manifest)),
            Err(fault) => {
                self.row = Some(placed);
                Err(fault)
            }
        }
    }
}

/// Opens a list; it stands before the first row.
pub(crate) fn open_list<S: Store>(
    alloc: Global,
    file: &Listing,
    store: &mut S,
) -> Result<OpenList, TreeFault>
    ensures opens { IfSome (S.held store.old) (λ files. OpensList files file.now result) }
    ensures fault { IfErr result IsFileFault }
    ensures reads { ReadsFile S.Store file.now.path (result ≡ Err TreeFault.Store)
        store.old store.new }
{
    match OpenFile::open(alloc, file, store) {
        Ok(reader) => Ok(OpenList {
            reader,
            count: 0,
            row: None,
        }),
        Err(trouble) => Err(at(alloc, &file.path, trouble)),
    }
}

/// Opens the manifest of the row at this position; it stands before the first entry.
fn open_manifest<S: Store>(
    alloc: Global,
    file: Listing,
    row: u64,
    store: &mut S,
) -> Result<OpenManifest, TreeFault>
    ensures opens { IfSome (S.held store.old) (λ files. OpensManifest files file row result) }
    ensures fault { IfErr result IsFileFault }
    ensures reads { ReadsFile S.Store file.path (result ≡ Err TreeFault.Store)
        store.old store.new }
{
    match OpenFile::open(alloc, &file, store) {
        Ok(reader) => Ok(OpenManifest {
            file,
            reader,
            row,
            entry: None,
        }),
        Err(trouble) => Err(at(alloc, &file.path, trouble)),
    }
}
