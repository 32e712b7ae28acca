//! A file of records that is open: its stream, and the records that weren't read yet.

ghost use Rattle.std.specs.Prelude.{◌≡◌, Err, IfSome, OnErr};
ghost use Rattle.icb_table.specs.Listed.{Listed};
ghost use Rattle.icb_walk.specs.Fits.{FitsOpen};
ghost use Rattle.icb_walk.specs.Judged.{listing};
ghost use Rattle.icb_walk.specs.Steps.{OpensFile, ReadsFile, ReadsNext};

use crate::listing::Listing;
use crate::trouble::{Trouble, of_records, of_stream};
use icb_base::Store;
use icb_fields::FromRecord;
use icb_reader::Records;
use icb_stream::{Attached, Stream};
use std::alloc::Global;

/// A file that is open, and where its reader stands.
#[derive(Drop)]
pub(crate) struct OpenFile {
    pub(crate) stream: Stream,
    pub(crate) records: Records,
}

impl OpenFile {
    /// Opens a file; its reader stands before the first record.
    pub(crate) fn open<S: Store>(
        alloc: Global,
        file: &Listing,
        store: &mut S,
    ) -> Result<OpenFile, Trouble>
        ensures opens { IfSome (S.held store.old) (λ files.
            OpensFile files (listing file.now) result) }
        ensures reads { ReadsFile S.Store file.now.path (result ≡ Err Trouble.Store)
            store.old store.new }
    {
        let mut stream = match Stream::open(alloc, store, &file.path, &file.key, file.length) {
            Ok(stream) => stream,
            Err(fault) => return Err(of_stream(fault)),
        };
        let mut reader = Attached {
            stream: &mut stream,
            store,
        };
        match Records::open(alloc, &mut reader) {
            Ok(records) => Ok(OpenFile { stream, records }),
            Err(fault) => Err(of_records(fault)),
        }
    }

    /// What is made of the next record, or none at the end. After a refusal the reader stands where it
    /// stood.
    pub(crate) fn next<T: FromRecord, S: Store>(
        &mut self,
        alloc: Global,
        store: &mut S,
    ) -> Result<Option<T>, Trouble>
        ensures next { IfSome (S.held store.old) (λ files.
            (f : Listed) → FitsOpen files f self.old.stream self.old.records
            → ReadsNext T.FromRecord.made files f self.old self.new result) }
        ensures stays { OnErr result (self.new.records ≡ self.old.records) }
        ensures reads { ReadsFile S.Store self.old.stream.path (result ≡ Err Trouble.Store)
            store.old store.new }
    {
        let mut reader = Attached {
            stream: &mut self.stream,
            store,
        };
        match self.records.next(alloc, &mut reader) {
            Ok(found) => Ok(found),
            Err(fault) => Err(of_records(fault)),
        }
    }
}
