//! The records of a container, one by one.
ghost use Rattle.std.specs.Prelude.{◌≡◌, ◌≤◌, drop, IfErr, OnErr};
ghost use Rattle.icb_container.specs.Known.{ForEachFile, ReadsOnly};
ghost use Rattle.icb_reader.specs.Answers.{GivesRecord, IsOfFile, IsPlain, OnlyMoved, OpensRecords, ReadsBehind, ReadsRecord, reading_of, records_fault};
ghost use Rattle.icb_reader.specs.Records.{in_block};

use crate::fault::RecordsFault;
use crate::filled::next_filled;
use crate::front::front_of;
use icb_base::ReadAt;
use icb_container::Container;
use icb_fields::FromRecord;
use icb_schema::Octets;
use std::alloc::Global;

/// The records of a container that was opened, and where it stands: before a record, or at the end.
#[derive(Debug, Drop)]
pub struct Records {
    /// Behind the block whose records are read.
    container: Container,
    /// The bytes of that block.
    bytes: Octets,
    /// How many of them were read.
    at: usize,
    /// How many of its records weren't read yet.
    left: u64,
    /// The place behind its bytes.
    end: u64,
    /// The place of the record that was read last.
    last: u64,
}

impl Records {
    /// Opens a container: its header is read, and it stands before the first record.
    pub fn open<R: ReadAt>(alloc: Global, reader: &mut R) -> Result<Records, RecordsFault<R::Fault>>
        ensures opens { ForEachFile (R.content reader.old) (OpensRecords result) }
        ensures plain { IfErr result IsPlain }
        ensures reader { ReadsOnly R.ReadAt (records_fault result) reader.old reader.new }
    {
        let container = Container::open(alloc, reader)?;
        Ok(Records {
            container,
            bytes: Octets::new(alloc),
            at: 0,
            left: 0,
            end: 0,
            last: 0,
        })
    }

    /// What is made of the next record, or none at the end. A block is read whole before its first
    /// record is given. After a refusal it stands where it stood.
    pub fn next<T: FromRecord, R: ReadAt>(
        &mut self,
        alloc: Global,
        reader: &mut R,
    ) -> Result<Option<T>, RecordsFault<R::Fault>>
        ensures reads { ForEachFile (R.content reader.old)
            (ReadsRecord T.FromRecord.made result self.old self.new) }
        ensures stays { OnErr result (self.new ≡ self.old) }
        ensures plain { IfErr result IsPlain }
        ensures reader { ReadsOnly R.ReadAt (records_fault result) reader.old reader.new }
    {
        if self.left > 0 {
            return self.next_in_block(alloc);
        }
        let spot = self.container.spot();
        let found = self.next_behind(alloc, reader);
        if found.is_err() {
            self.container.go_back(spot);
        }
        found
    }

    /// The place in the file of the record that was read last, and 0 before the first.
    pub fn place(&self) -> u64
        ensures { result ≡ self.now.last }
    {
        self.last
    }

    /// What is made of the next record of the block.
    fn next_in_block<T: FromRecord, F>(
        &mut self,
        alloc: Global,
    ) -> Result<Option<T>, RecordsFault<F>>
        ensures gives { GivesRecord (λ found. (found, reading_of self.new)) result
            (in_block T.FromRecord.made (reading_of self.old)) }
        ensures stays { OnErr result (self.new ≡ self.old) }
        ensures header { self.new.container ≡ self.old.container }
        ensures answers { IfErr result IsOfFile }
    {
        let node = self.container.schema().root();
        let rest = unread(self.bytes.as_slice(), self.at);
        let place = self.end.saturating_sub(rest.len() as u64);
        let (record, count) = front_of(alloc, node, rest, self.end)?;
        self.at += count;
        self.left = self.left.saturating_sub(1);
        self.last = place;
        Ok(Some(record))
    }

    /// What is made of the first record of the next block that has one. After a refusal only the
    /// container may have moved.
    fn next_behind<T: FromRecord, R: ReadAt>(
        &mut self,
        alloc: Global,
        reader: &mut R,
    ) -> Result<Option<T>, RecordsFault<R::Fault>>
        requires { self.old.container.block ≤ self.old.container.place }
        ensures reads { ForEachFile (R.content reader.old)
            (ReadsBehind T.FromRecord.made result self.old self.new) }
        ensures moved { OnErr result (OnlyMoved self.old self.new) }
        ensures plain { IfErr result IsPlain }
        ensures reader { ReadsOnly R.ReadAt (records_fault result) reader.old reader.new }
    {
        let Some(block) = next_filled(alloc, &mut self.container, reader)? else {
            return Ok(None);
        };
        let bytes = block.bytes.as_slice();
        let end = block.place + bytes.len() as u64;
        let node = self.container.schema().root();
        let (record, count) = front_of(alloc, node, bytes, end)?;
        self.last = block.place;
        self.at = count;
        self.left = block.count - 1;
        self.end = end;
        self.bytes = block.bytes;
        Ok(Some(record))
    }
}

/// The bytes from a place on, none behind the last.
fn unread(bytes: &[u8], at: usize) -> &[u8]
    ensures { result.now ≡ drop at bytes.now }
{
    match bytes.get(at..) {
        Some(rest) => rest,
        None => &[],
    }
}
