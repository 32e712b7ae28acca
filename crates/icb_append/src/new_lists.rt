//! The list of an append's snapshot: the parent's rows, and then its manifest.
ghost use Rattle.std.specs.Prelude.{◌≡◌, IfOk};
ghost use Rattle.icb_append.specs.NewLists.{PutsOwnList, ReadsParent, have_row_ids, list_rows_of, parent_rows, path_of_list};

use crate::entries::ListRows;
use crate::lists::put_list;
use crate::paths::list_path;
use crate::records::row_in;
use crate::settings::Settings;
use crate::tried::Tried;
use icb_base::{Draws, KeyMeta, ObjPath, Store};
use icb_chain::Keyring;
use icb_list::ListRow;
use icb_schema::NoMemory;
use icb_turns::{CannotWhat, JobFault};
use icb_walk::{TreeFault, list_rows};
use std::alloc::Global;

/// Reads the rows of the parent's list, each of which must have a first row id.
pub fn read_parent<S: Store>(
    alloc: Global,
    tried: &Tried,
    parent: i64,
    ring: &Keyring,
    store: &mut S,
) -> Result<ListRows, JobFault>
    ensures { ReadsParent S.Store ring.now tried.now parent result store.old store.new }
{
    parent_rows(list_rows(alloc, store, &tried.meta, ring, parent))
}

/// The rows of a parent's list, where each has a first row id, or why nothing is added to them.
fn parent_rows(read: Result<Vec<ListRow>, TreeFault>) -> Result<ListRows, JobFault>
    ensures { result ≡ parent_rows read }
{
    match read {
        Ok(rows) => {
            if have_row_ids(rows.as_slice()) {
                Ok(ListRows::from_vec(rows))
            } else {
                Err(JobFault::Cannot {
                    what: CannotWhat::NoRowIds,
                })
            }
        }
        Err(TreeFault::Store) => Err(JobFault::Store),
        Err(TreeFault::NoMemory) => Err(JobFault::NoMemory),
        Err(fault) => Err(JobFault::Tree(fault)),
    }
}

/// Whether each row has a first row id.
fn have_row_ids(rows: &[ListRow]) -> bool
    ensures { result ≡ have_row_ids rows.now }
{
    rows.iter().all(|row| row.first_row.is_some())
}

/// A parent's rows as they are, and then the append's manifest, where it has one.
pub fn list_rows_of(
    alloc: Global,
    rows: ListRows,
    manifest: &Option<ListRow>,
    tried: &Tried,
) -> Result<ListRows, NoMemory>
    ensures { IfOk result (λ all. all ≡ list_rows_of rows manifest.now tried.now) }
{
    let mut rows = rows;
    if let Some(row) = manifest {
        rows.push(row_in(alloc, row, tried)?)?;
    }
    Ok(rows)
}

/// The path of the list at an attempt, from 1 on.
pub fn path_of_list(
    alloc: Global,
    unique: &[u8; 16],
    tried: &Tried,
    attempt: u32,
) -> Result<ObjPath, icb_base::NoMemory>
    ensures { IfOk result (λ path. path ≡ path_of_list unique.now tried.now attempt) }
{
    list_path(alloc, unique, tried.id as u64, attempt)
}

/// Puts the list of these rows at an attempt, and gives the key metadata by which it opens.
pub fn put_own_list<S: Store, D: Draws>(
    alloc: Global,
    unique: &[u8; 16],
    tried: &Tried,
    rows: &ListRows,
    attempt: u32,
    store: &mut S,
    draws: &mut D,
) -> Result<KeyMeta, JobFault>
    ensures { PutsOwnList S.Store D.Draws unique.now tried.now rows.now attempt result store.old
        store.new draws.old draws.new }
{
    let Ok(path) = path_of_list(alloc, unique, tried, attempt) else {
        return Err(JobFault::NoMemory);
    };
    let settings = Settings::of(&tried.meta);
    put_list(alloc, rows.as_slice(), settings, path, store, draws)
}
