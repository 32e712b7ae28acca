//! What an append has of its own: its rows, and what it has put of them.
ghost use Rattle.std.specs.Prelude.{◌≡◌, ◌+◌, ◌<◌, ◌≤◌, ◌^◌, IfOk, Some, drop, length, map, take};
ghost use Rattle.icb_append.specs.Drafts.{PutsEntries, PutsNext, PutsRows, ends_draft, holds_all, new_draft, rows_at};
ghost use Rattle.icb_append.specs.Records.{added_entry};

use crate::data::put_data;
use crate::entries::Entries;
use crate::manifests::{ManifestOf, put_manifest};
use crate::paths::{data_path, manifest_path};
use crate::settings::Settings;
use crate::tried::Tried;
use icb_base::{Draws, NoMemory, Store};
use icb_list::ListRow;
use icb_manifest::{DataFile, Entry};
use icb_turns::JobFault;
use icb_types::{Datum, Rows};
use std::alloc::Global;

/// The most data files of an append. An input has far fewer lines.
const MOST_FILES: usize = (1 << 31) - 1;

/// What an append has of its own: rows, and what it has put of them.
#[derive(Drop)]
pub struct Draft {
    /// Its rows.
    pub rows: Rows,
    /// The bytes that stand in the paths of its files.
    pub unique: [u8; 16],
    /// The entries of the data files that it has put.
    pub entries: Entries,
}

impl Draft {
    /// An append of these rows, which has put none. It takes no memory.
    pub fn new(alloc: Global, rows: Rows, unique: [u8; 16]) -> Draft
        ensures { result ≡ new_draft rows unique }
    {
        Draft {
            rows,
            unique,
            entries: Entries::new(alloc),
        }
    }

    /// Puts the next data file, or where all rows are in data files the manifest, and gives its row. All
    /// memory but that of the list of entries is taken before the put.
    pub fn put_next<S: Store, D: Draws>(
        &mut self,
        alloc: Global,
        tried: &Tried,
        store: &mut S,
        draws: &mut D,
    ) -> Result<Option<ListRow>, JobFault>
        ensures { PutsNext S.Store D.Draws tried.now self.old self.new result store.old store.new
            draws.old draws.new }
    {
        let size = Settings::of(&tried.meta).rows;
        let Ok(files) = self.next_number() else {
            return Err(JobFault::NoMemory);
        };
        if self.holds_all(size, files) {
            match self.put_entries(alloc, tried, store, draws) {
                Ok(row) => Ok(Some(row)),
                Err(fault) => Err(fault),
            }
        } else {
            match self.put_rows(alloc, tried, files, store, draws) {
                Ok(file) => self.add(file),
                Err(fault) => Err(fault),
            }
        }
    }

    /// Notes a data file that was put.
    fn add(&mut self, file: DataFile) -> Result<Option<ListRow>, JobFault>
        ensures { ends_draft self.old file self.new result }
    {
        match self.entries.push(added_entry(file)) {
            Ok(()) => Ok(None),
            Err(_) => Err(JobFault::NoMemory),
        }
    }

    /// Puts the data file of this number, which is the next.
    fn put_rows<S: Store, D: Draws>(
        &self,
        alloc: Global,
        tried: &Tried,
        number: u32,
        store: &mut S,
        draws: &mut D,
    ) -> Result<DataFile, JobFault>
        requires { number ≡ length self.now.entries }
        ensures { PutsRows S.Store D.Draws self.now tried.now result store.old store.new draws.old
            draws.new }
    {
        let Ok(path) = data_path(alloc, &self.unique, number) else {
            return Err(JobFault::NoMemory);
        };
        let settings = Settings::of(&tried.meta);
        let rows = self.rows_at(settings.rows, number);
        let schema = tried.meta.schema();
        let location = tried.meta.location();
        put_data(alloc, schema, rows, settings, location, path, store, draws)
    }

    /// Puts the manifest.
    fn put_entries<S: Store, D: Draws>(
        &self,
        alloc: Global,
        tried: &Tried,
        store: &mut S,
        draws: &mut D,
    ) -> Result<ListRow, JobFault>
        requires { length self.now.entries < 2 ^ 31 }
        ensures { PutsEntries S.Store D.Draws self.now tried.now result store.old store.new
            draws.old draws.new }
    {
        let Ok(path) = manifest_path(alloc, &self.unique) else {
            return Err(JobFault::NoMemory);
        };
        let settings = Settings::of(&tried.meta);
        let location = tried.meta.location();
        let of = ManifestOf {
            schema: tried.meta.schema(),
            spec: tried.meta.default_spec(),
            entries: self.entries.as_slice(),
            rows: tried.rows,
        };
        put_manifest(alloc, &of, settings, location, path, store, draws)
    }

    /// The number of its next data file, from 0 on.
    fn next_number(&self) -> Result<u32, NoMemory>
        ensures number { IfOk result (λ number. number ≡ length self.now.entries) }
        ensures few { IfOk result (λ number. number + 1 < 2 ^ 31) }
    {
        let files = self.entries.as_slice().len();
        if files >= MOST_FILES {
            return Err(NoMemory);
        }
        Ok(files as u32)
    }

    /// Whether so many data files have all its rows, where each but the last has `size`.
    fn holds_all(&self, size: u32, files: u32) -> bool
        ensures { result ≡ holds_all size self.now.rows files }
    {
        count_of(&self.rows) <= size as u64 * files as u64
    }

    /// The rows of the data file of a number, where each but the last has `size`.
    #[tactic(auto, using(crate::proofs::DraftLemmas::rows_mapped))]
    fn rows_at(&self, size: u32, number: u32) -> &[Vec<Datum>]
        ensures { map (λ row. row.items) result.now ≡ rows_at size self.now.rows number }
    {
        let rest = behind(self.rows.as_slice(), size as usize * number as usize);
        front(rest, size as usize)
    }
}

/// The rows from a place on, none where there are fewer.
fn behind(rows: &[Vec<Datum>], place: usize) -> &[Vec<Datum>]
    ensures { result.now ≡ drop place rows.now }
{
    if place > rows.len() {
        return &rows[rows.len()..];
    }
    &rows[place..]
}

/// The first so many rows, all where there are fewer.
fn front(rows: &[Vec<Datum>], most: usize) -> &[Vec<Datum>]
    ensures { result.now ≡ take most rows.now }
{
    if most > rows.len() {
        return rows;
    }
    &rows[..most]
}

/// How many rows there are.
fn count_of(rows: &Rows) -> u64
    ensures { result ≡ length rows.now }
{
    rows.as_slice().len() as u64
}

/// The entry of a file that is added.
fn added_entry(file: DataFile) -> Entry
    ensures { result ≡ added_entry file }
{
    Entry {
        status: 1,
        snapshot: None,
        sequence: None,
        file_sequence: None,
        file,
    }
}
