//! A manifest list that is read row by row, over any reader.
ghost use Rattle.std.specs.Prelude.{◌≡◌, IfErr, OnErr};
ghost use Rattle.icb_container.specs.Known.{ForEachFile, ReadsOnly};
ghost use Rattle.icb_reader.specs.Answers.{IsPlain, OpensRecords, ReadsRecord, records_fault};
ghost use Rattle.icb_list.specs.Rows.{list_row};

use crate::row::ListRow;
use icb_base::ReadAt;
use icb_reader::{Records, RecordsFault};
use std::alloc::Global;
use std::marker::Model;

/// Why a manifest list isn't opened, or its next row isn't read.
pub type ListFault<F> = RecordsFault<F>;

/// A manifest list that was opened, and where it stands: before a row, or at the end.
#[derive(Debug, Drop)]
pub struct List {
    records: Records,
}

impl Model for List {
    ghost use Rattle.icb_reader.specs.declared.records.Records.{Records};
    ghost use Rattle.icb_reader.specs.contracts.records.Records as reading;

    ghost Value = { Records };

    ghost coded = { reading.the_row.coded };

    ghost view = { λ list. list.records };
}

impl List {
    /// Opens a manifest list: its header is read, and it stands before the first row.
    pub fn open<R: ReadAt>(alloc: Global, reader: &mut R) -> Result<List, ListFault<R::Fault>>
        ensures opens { ForEachFile (R.content reader.old) (OpensRecords result) }
        ensures plain { IfErr result IsPlain }
        ensures reader { ReadsOnly R.ReadAt (records_fault result) reader.old reader.new }
    {
        let records = Records::open(alloc, reader)?;
        Ok(List { records })
    }

    /// The next row, or none at the end. A block is read whole before its first row is given.
    /// After a refusal it stands where it stood.
    pub fn next<R: ReadAt>(
        &mut self,
        alloc: Global,
        reader: &mut R,
    ) -> Result<Option<ListRow>, ListFault<R::Fault>>
        ensures reads { ForEachFile (R.content reader.old)
            (ReadsRecord list_row result self.old self.new) }
        ensures stays { OnErr result (self.new ≡ self.old) }
        ensures plain { IfErr result IsPlain }
        ensures reader { ReadsOnly R.ReadAt (records_fault result) reader.old reader.new }
    {
        self.records.next(alloc, reader)
    }

    /// The place in the file of the row that was read last, and 0 before the first.
    pub fn place(&self) -> u64
        ensures { result ≡ self.now.last }
    {
        self.records.place()
    }
}
