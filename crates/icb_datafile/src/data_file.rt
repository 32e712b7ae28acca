//! A data file, gone over block by block.
ghost use Rattle.std.specs.Prelude.{◌≡◌, ◌≤◌, ◌<◌, [], length, Err, IfErr, IfOk, IfSome, IsErr, None, false, true};
ghost use Rattle.icb_base.specs.Calls.{WritesText};
ghost use Rattle.icb_base.specs.Causes.{Blames};
ghost use Rattle.icb_container.specs.Known.{ForEachFile, ReadsOnly};
ghost use Rattle.icb_reader.specs.Answers.{IsPlain, records_fault};
ghost use Rattle.icb_datafile.specs.Plans.{KeepsWords, OnlySkips, asks_none, emptied};
ghost use Rattle.icb_datafile.specs.Answers.{IsAhead, IsPlainRows, LeavesOut, OpensFile, PrintsBlock, Steps, rows_fault};

use crate::fault::RowsFault;
use crate::opening::all_columns;
use crate::plan::Plan;
use crate::printing::print_rows;
use icb_base::{Failed, ReadAt, Sink};
use icb_container::Container;
use icb_reader::RecordsFault;
use icb_rows::Projection;
use icb_types::TableSchema;
use std::alloc::Global;

/// A data file that was opened, and where it stands: before a block, or at the end.
#[derive(Debug, Drop)]
pub struct DataFile {
    container: Container,
    projection: Projection,
}

impl DataFile {
    /// Opens a data file of a table with this schema: it stands before its first block.
    pub fn open<R: ReadAt>(
        alloc: Global,
        reader: &mut R,
        schema: &TableSchema,
    ) -> Result<DataFile, RecordsFault<R::Fault>>
        requires { length schema.now.columns ≤ 1000 }
        ensures opens { ForEachFile (R.content reader.old) (OpensFile result schema.now.columns) }
        ensures plain { IfErr result IsPlain }
        ensures reader { ReadsOnly R.ReadAt (records_fault result) reader.old reader.new }
    {
        let container = Container::open(alloc, reader)?;
        let projection = all_columns(alloc, container.schema(), schema)?;
        Ok(DataFile {
            container,
            projection,
        })
    }

    /// Passes over the blocks in front whose rows are all left out, by their counts: no row of them is
    /// looked at. The plan's text is emptied.
    pub(crate) fn pass_blocks<R: ReadAt>(
        &mut self,
        reader: &mut R,
        plan: &mut Plan,
    ) -> Result<(), RecordsFault<R::Fault>>
        requires { asks_none plan.old.most ≡ false }
        ensures leaves_out { ForEachFile (R.content reader.old)
            (LeavesOut result self.old self.new (emptied plan.old) plan.new) }
        ensures only { OnlySkips (emptied plan.old) plan.new }
        ensures plain { IfErr result IsPlain }
        ensures reader { ReadsOnly R.ReadAt (records_fault result) reader.old reader.new }
    {
        plan.text.truncate(0);
        if plan.range.is_some() {
            return Ok(());
        }
        while plan.skip > 0 {
            if !self.pass_over(reader, plan)? {
                return Ok(());
            }
        }
        Ok(())
    }

    /// Passes over the next block, where it has rows and all of them are left out, and says whether it
    /// did.
    fn pass_over<R: ReadAt>(
        &mut self,
        reader: &mut R,
        plan: &mut Plan,
    ) -> Result<bool, RecordsFault<R::Fault>>
        requires asked { asks_none plan.old.most ≡ false }
        requires all { plan.old.range ≡ None }
        ensures leaves_out { ForEachFile (R.content reader.old)
            (LeavesOut result self.old self.new plan.old plan.new) }
        ensures only { OnlySkips plan.old plan.new }
        ensures fewer { IfOk result (λ over. over ≡ true → plan.new.skip < plan.old.skip) }
        ensures plain { IfErr result IsPlain }
        ensures reader { ReadsOnly R.ReadAt (records_fault result) reader.old reader.new }
    {
        let Some(count) = self.container.next_count(reader)? else {
            return Ok(false);
        };
        if count == 0 || count > plan.skip {
            return Ok(false);
        }
        self.container.skip_block(reader)?;
        plan.skip -= count;
        Ok(true)
    }

    /// Passes the rows of the next block, as far as further ones are asked for, writes the text of those
    /// that are chosen, and says whether there was a block. What was chosen before a refusal is written
    /// before the refusal is answered.
    pub fn step<R: ReadAt, O: Sink>(
        &mut self,
        alloc: Global,
        reader: &mut R,
        plan: &mut Plan,
        sink: &mut O,
    ) -> Result<bool, RowsFault<R::Fault>>
    where
        R::Fault: Drop,
        requires { asks_none plan.old.most ≡ false }
        ensures steps { ForEachFile (R.content reader.old)
            (Steps result self.old self.new plan.old plan.new) }
        ensures writes { WritesText O.Sink plan.new.text (result ≡ Err RowsFault.Sink)
            sink.old sink.new }
        ensures ahead { IfOk result (λ more. more ≡ true
            → IsAhead self.old self.new (R.size reader.old)) }
        ensures words { KeepsWords plan.old plan.new }
        ensures plain { IfErr result IsPlainRows }
        ensures reader { ReadsOnly R.ReadAt (rows_fault result) reader.old reader.new }
    {
        let printed = self.print_block(alloc, reader, plan);
        if write_text(plan.text.as_slice(), sink).is_err() {
            return Err(RowsFault::Sink);
        }
        match printed {
            Ok(more) => Ok(more),
            Err(fault) => Err(RowsFault::File(fault)),
        }
    }

    /// Passes the rows of the next block, as far as further ones are asked for, and says whether there
    /// was one. The plan's text has then the lines of those that are chosen.
    fn print_block<R: ReadAt>(
        &mut self,
        alloc: Global,
        reader: &mut R,
        plan: &mut Plan,
    ) -> Result<bool, RecordsFault<R::Fault>>
        requires { asks_none plan.old.most ≡ false }
        ensures prints { ForEachFile (R.content reader.old)
            (PrintsBlock result self.old self.new plan.old plan.new) }
        ensures ahead { IfOk result (λ more. more ≡ true
            → IsAhead self.old self.new (R.size reader.old)) }
        ensures quiet { IfSome (records_fault result) (λ _. plan.new.text ≡ []) }
        ensures words { KeepsWords plan.old plan.new }
        ensures plain { IfErr result IsPlain }
        ensures reader { ReadsOnly R.ReadAt (records_fault result) reader.old reader.new }
    {
        plan.text.truncate(0);
        let Some(block) = self.container.next_block(alloc, reader)? else {
            return Ok(false);
        };
        print_rows(alloc, &self.projection, &block, plan)?;
        Ok(true)
    }
}

/// Writes a text, which may be empty.
fn write_text<O: Sink>(text: &[u8], sink: &mut O) -> Result<(), Failed>
    ensures writes { WritesText O.Sink text.now (IsErr result) sink.old sink.new }
    ensures empty { text.now ≡ [] → IfErr result (λ _. ⊥) }
{
    if text.is_empty() {
        return Ok(());
    }
    sink.write(text)
}
