//! All rows of the manifest list of a snapshot.

ghost use Rattle.std.specs.Prelude.{◌≡◌, Err, IfErr, IfSome};
ghost use Rattle.icb_meta.specs.Answers.{shown_of};
ghost use Rattle.icb_table.specs.Snapshots.{list_of};
ghost use Rattle.icb_walk.specs.Entries.{IsFileFault};
ghost use Rattle.icb_walk.specs.Judged.{listing};
ghost use Rattle.icb_walk.specs.Steps.{ReadsFile, ReadsStore};
ghost use Rattle.icb_walk.specs.WholeLists.{AsksList, FindsList, Gathers, ReadsList, ReadsWhole};

use crate::fault::TreeFault;
use crate::listing::Listing;
use crate::opened::OpenFile;
use crate::snapshot_list::list_of;
use crate::trouble::{Trouble, at};
use icb_base::Store;
use icb_chain::Keyring;
use icb_list::ListRow;
use icb_meta::TableMeta;
use std::alloc::Global;

/// All rows of the list of a snapshot as they are, in their order: no test of a walk is made of them.
/// The first refusal is that of `Walk::new`; then the list is read to its end, and nothing else.
pub fn list_rows<S: Store>(
    alloc: Global,
    store: &mut S,
    meta: &TableMeta,
    ring: &Keyring,
    snapshot: i64,
) -> Result<Vec<ListRow>, TreeFault>
    ensures finds { FindsList (list_of (shown_of meta.now) ring.now snapshot) result }
    ensures rows { IfSome (S.held store.old) (λ files.
        ReadsList files (list_of (shown_of meta.now) ring.now snapshot) result) }
    ensures asks { IfSome (S.held store.old) (λ _. AsksList S.Store
        (list_of (shown_of meta.now) ring.now snapshot) store.old store.new) }
    ensures reads { ReadsStore S.Store (result ≡ Err TreeFault.Store) store.old store.new }
{
    match list_of(alloc, meta, ring, snapshot) {
        Ok(file) => whole_list(alloc, &file, store),
        Err(fault) => Err(fault),
    }
}

/// All rows of a list.
fn whole_list<S: Store>(
    alloc: Global,
    file: &Listing,
    store: &mut S,
) -> Result<Vec<ListRow>, TreeFault>
    ensures rows { IfSome (S.held store.old) (λ files.
        ReadsWhole files (listing file.now) result) }
    ensures fault { IfErr result IsFileFault }
    ensures reads { ReadsFile S.Store file.now.path (result ≡ Err TreeFault.Store)
        store.old store.new }
{
    match gather(alloc, file, store) {
        Ok(rows) => Ok(rows),
        Err(trouble) => Err(at(alloc, &file.path, trouble)),
    }
}

/// All rows of a list, or why it isn't read to its end. No list has 2^64 rows; one that did would be told
/// that no memory is left.
fn gather<S: Store>(alloc: Global, file: &Listing, store: &mut S) -> Result<Vec<ListRow>, Trouble>
    ensures rows { IfSome (S.held store.old) (λ files. Gathers files (listing file.now) result) }
    ensures reads { ReadsFile S.Store file.now.path (result ≡ Err Trouble.Store)
        store.old store.new }
{
    let mut open_file = match OpenFile::open(alloc, file, store) {
        Ok(open_file) => open_file,
        Err(trouble) => return Err(trouble),
    };
    let mut rows = Vec::new(alloc);
    'rows: for _ in 0..u64::MAX {
        let found = match open_file.next(alloc, store) {
            Ok(found) => found,
            Err(trouble) => return Err(trouble),
        };
        let Some(row) = found else {
            return Ok(rows);
        };
        if rows.push(row).is_err() {
            return Err(Trouble::NoMemory);
        }
    }
    Err(Trouble::NoMemory)
}
