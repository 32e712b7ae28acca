//! A manifest that is read entry by entry, over any reader.
ghost use Rattle.std.specs.Prelude.{◌≡◌, IfErr, OnErr};
ghost use Rattle.icb_container.specs.Known.{ForEachFile, ReadsOnly};
ghost use Rattle.icb_reader.specs.Answers.{IsPlain, OpensRecords, ReadsRecord, records_fault};
ghost use Rattle.icb_manifest.specs.Entries.{entry_of};

use crate::entry::Entry;
use icb_base::ReadAt;
use icb_reader::{Records, RecordsFault};
use std::alloc::Global;
use std::marker::Model;

/// Why a manifest isn't opened, or its next entry isn't read.
pub type ManifestFault<F> = RecordsFault<F>;

/// A manifest that was opened, and where it stands: before an entry, or at the end.
#[derive(Debug, Drop)]
pub struct Manifest {
    records: Records,
}

impl Model for Manifest {
    ghost use Rattle.icb_reader.specs.declared.records.Records.{Records};
    ghost use Rattle.icb_reader.specs.contracts.records.Records as reading;

    ghost Value = { Records };

    ghost coded = { reading.the_row.coded };

    ghost view = { λ manifest. manifest.records };
}

impl Manifest {
    /// Opens a manifest: its header is read, and it stands before the first entry.
    pub fn open<R: ReadAt>(
        alloc: Global,
        reader: &mut R,
    ) -> Result<Manifest, ManifestFault<R::Fault>>
        ensures opens { ForEachFile (R.content reader.old) (OpensRecords result) }
        ensures plain { IfErr result IsPlain }
        ensures reader { ReadsOnly R.ReadAt (records_fault result) reader.old reader.new }
    {
        let records = Records::open(alloc, reader)?;
        Ok(Manifest { records })
    }

    /// The next entry, or none at the end. A block is read whole before its first entry is given.
    /// After a refusal it stands where it stood.
    pub fn next<R: ReadAt>(
        &mut self,
        alloc: Global,
        reader: &mut R,
    ) -> Result<Option<Entry>, ManifestFault<R::Fault>>
        ensures reads { ForEachFile (R.content reader.old)
            (ReadsRecord entry_of result self.old self.new) }
        ensures stays { OnErr result (self.new ≡ self.old) }
        ensures plain { IfErr result IsPlain }
        ensures reader { ReadsOnly R.ReadAt (records_fault result) reader.old reader.new }
    {
        self.records.next(alloc, reader)
    }

    /// The place in the file of the entry that was read last, and 0 before the first.
    pub fn place(&self) -> u64
        ensures { result ≡ self.now.last }
    {
        self.records.place()
    }
}
