//! A data file from its first block to the last one that is needed.
ghost use Rattle.std.specs.Prelude.{◌≡◌, ◌≤◌, length, Err, IfErr, false};
ghost use Rattle.icb_base.specs.Causes.{Blames};
ghost use Rattle.icb_container.specs.Known.{ForEachFile, ReadsOnly};
ghost use Rattle.icb_datafile.specs.Answers.{IsPlainRows, rows_fault};
ghost use Rattle.icb_datafile.specs.Plans.{KeepsWords, asks_none};
ghost use Rattle.icb_datafile.specs.Whole.{PrintsFile};

use crate::data_file::DataFile;
use crate::fault::RowsFault;
use crate::plan::Plan;
use icb_base::{ReadAt, Sink};
use icb_types::TableSchema;
use std::alloc::Global;

/// Prints the rows of a data file that a plan chooses, and leaves of the plan what it chooses of the
/// rows of the files behind. Where no range is asked, blocks in front whose rows are all left out are passed
/// over by their counts, whatever their rows are. No row is looked at behind the last one that is asked for, and no block is
/// read behind its own. What was chosen before a refusal is written before the refusal is answered.
pub fn print_file<R: ReadAt, O: Sink>(
    alloc: Global,
    reader: &mut R,
    schema: &TableSchema,
    plan: &mut Plan,
    sink: &mut O,
) -> Result<(), RowsFault<R::Fault>>
where
    R::Fault: Drop,
    requires few { length schema.now.columns ≤ 1000 }
    requires asked { asks_none plan.old.most ≡ false }
    ensures prints { ForEachFile (R.content reader.old)
        (PrintsFile O.Sink result schema.now.columns plan.old plan.new sink.old sink.new) }
    ensures words { KeepsWords plan.old plan.new }
    ensures plain { IfErr result IsPlainRows }
    ensures reader { ReadsOnly R.ReadAt (rows_fault result) reader.old reader.new }
    ensures sink { Blames (result ≡ Err RowsFault.Sink) (O.faults sink.old) (O.faults sink.new) }
{
    let mut file = DataFile::open(alloc, reader, schema)?;
    file.pass_blocks(reader, plan)?;
    while !plan.is_done() {
        if !file.step(alloc, reader, plan, sink)? {
            return Ok(());
        }
    }
    Ok(())
}
