//! What a job has of its append once it has read a version, and the turns that go on with it.
ghost use Rattle.std.specs.Prelude.{◌≡◌, ◌<◌, ◌^◌, IsSome, IsSomeAnd};
ghost use Rattle.icb_append.specs.NewLists.{PutsOwnList, list_rows_of};
ghost use Rattle.icb_append.specs.Turning.{Commits, KeepsRow, PutsFiles, PutsList, PutsNextVersion, ReadsList, behind_begun, behind_files, parent_for};

use crate::committing::put_next_version;
use crate::draft::Draft;
use crate::entries::ListRows;
use crate::new_lists::{list_rows_of, path_of_list, put_own_list, read_parent};
use crate::place::{Place, Turn};
use crate::tried::Tried;
use icb_base::{Draws, KeyMeta, Put, Store};
use icb_chain::Keyring;
use icb_list::ListRow;
use icb_turns::{JobFault, Versions};
use std::alloc::Global;
use std::mem::replace;

/// The attempt at a commit. There is one.
const ATTEMPT: u32 = 1;

/// What a job has of its append once it has read a version.
#[derive(Drop)]
pub(crate) struct Work {
    /// Its rows, and what it has put of them.
    pub draft: Draft,
    /// The version to which it adds them.
    pub tried: Tried,
    /// The row of its manifest, once that is put.
    pub manifest: Option<ListRow>,
    /// The rows of the parent's list, from when they are read until its own is made.
    pub parent: ListRows,
    /// The key metadata of its list, once that is put.
    pub list: Option<KeyMeta>,
}

impl Work {
    /// Where the job goes on when the work has begun.
    pub(crate) fn first_place(&self) -> Place
        ensures { result ≡ behind_begun self.now }
    {
        if self.tried.rows == 0 {
            self.behind_files()
        } else {
            Place::Filing
        }
    }

    /// Where the job goes on when its files are put.
    fn behind_files(&self) -> Place
        ensures { result ≡ behind_files (parent_for self.now.tried) }
    {
        match self.tried.meta.current() {
            Some(parent) => Place::Listing(parent),
            None => Place::Writing,
        }
    }

    /// Puts the next data file, or the manifest.
    pub(crate) fn put_files<S: Store, D: Draws>(
        &mut self,
        alloc: Global,
        store: &mut S,
        draws: &mut D,
    ) -> Result<Turn, JobFault>
        ensures { PutsFiles S.Store D.Draws self.old self.new result store.old store.new draws.old
            draws.new }
    {
        match self.draft.put_next(alloc, &self.tried, store, draws) {
            Ok(row) => Ok(Turn::To(self.keep_row(row))),
            Err(fault) => Err(fault),
        }
    }

    /// Keeps the manifest's row, if it is that which was put, and says where the job goes on.
    fn keep_row(&mut self, row: Option<ListRow>) -> Place
        ensures { KeepsRow self.old row self.new result }
    {
        match row {
            Some(row) => {
                self.manifest = Some(row);
                self.behind_files()
            }
            None => Place::Filing,
        }
    }

    /// Reads the rows of the parent's list.
    pub(crate) fn read_list<S: Store>(
        &mut self,
        alloc: Global,
        parent: i64,
        ring: &Keyring,
        store: &mut S,
    ) -> Result<Turn, JobFault>
        ensures { ReadsList S.Store ring.now parent self.old self.new result store.old store.new }
    {
        match read_parent(alloc, &self.tried, parent, ring, store) {
            Ok(rows) => {
                self.parent = rows;
                Ok(Turn::To(Place::Writing))
            }
            Err(fault) => Err(fault),
        }
    }

    /// Puts the list: the parent's rows, and then the manifest's.
    pub(crate) fn put_list<S: Store, D: Draws>(
        &mut self,
        alloc: Global,
        store: &mut S,
        draws: &mut D,
    ) -> Result<Turn, JobFault>
        ensures { PutsList S.Store D.Draws self.old self.new result store.old store.new draws.old
            draws.new }
    {
        let parent = replace(&mut self.parent, ListRows::new(alloc));
        match self.put_rows(alloc, parent, store, draws) {
            Ok(list) => {
                self.list = Some(list);
                Ok(Turn::To(Place::Committing))
            }
            Err(fault) => Err(fault),
        }
    }

    /// Puts the list of these rows, and then the manifest's.
    fn put_rows<S: Store, D: Draws>(
        &self,
        alloc: Global,
        parent: ListRows,
        store: &mut S,
        draws: &mut D,
    ) -> Result<KeyMeta, JobFault>
        ensures { PutsOwnList S.Store D.Draws self.now.draft.unique self.now.tried
            (list_rows_of parent self.now.manifest self.now.tried) 1 result store.old store.new
            draws.old draws.new }
    {
        let Ok(rows) = list_rows_of(alloc, parent, &self.manifest, &self.tried) else {
            return Err(JobFault::NoMemory);
        };
        let unique = &self.draft.unique;
        put_own_list(alloc, unique, &self.tried, &rows, ATTEMPT, store, draws)
    }

    /// Puts the version. Where another one is held there it notes that, and gives up.
    pub(crate) fn commit<S: Store, D: Draws>(
        &self,
        alloc: Global,
        taken: &mut Versions,
        store: &mut S,
        draws: &mut D,
        now_ms: u64,
    ) -> Result<Turn, JobFault>
        requires list { IsSome self.now.list }
        requires time { now_ms < 2 ^ 63 }
        ensures { Commits S.Store D.Draws now_ms self.now taken.old taken.new result store.old
            store.new draws.old draws.new }
    {
        let version = self.tried.version + 1;
        let (Ok(more), Ok(given)) = (taken.with(alloc, version), taken.with(alloc, version)) else {
            return Err(JobFault::NoMemory);
        };
        match self.put_version(alloc, store, draws, now_ms) {
            Ok(Put::Done) => Ok(Turn::Done {
                snapshot: self.tried.id,
                version,
            }),
            Ok(Put::Taken) => {
                *taken = more;
                Err(JobFault::Contended { versions: given })
            }
            Err(fault) => Err(fault),
        }
    }

    /// Puts the version, whose snapshot has the list that was put.
    fn put_version<S: Store, D: Draws>(
        &self,
        alloc: Global,
        store: &mut S,
        draws: &mut D,
        now_ms: u64,
    ) -> Result<Put, JobFault>
        requires list { IsSome self.now.list }
        requires time { now_ms < 2 ^ 63 }
        ensures { IsSomeAnd self.now.list (λ list. PutsNextVersion S.Store D.Draws now_ms self.now
            list result store.old store.new draws.old draws.new) }
    {
        let Some(list) = &self.list else {
            unreachable!();
        };
        let Ok(path) = path_of_list(alloc, &self.draft.unique, &self.tried, ATTEMPT) else {
            return Err(JobFault::NoMemory);
        };
        put_next_version(alloc, &self.tried, &path, list, store, draws, now_ms)
    }
}
