//! The rows of a block, passed one by one.
ghost use Rattle.std.specs.Prelude.{◌≡◌, ◌+◌, ◌<◌, ◌^◌, ◌≤◌, IfErr, length};
ghost use Rattle.icb_reader.specs.Answers.{IsOfFile};
ghost use Rattle.icb_datafile.specs.Plans.{KeepsWords};
ghost use Rattle.icb_datafile.specs.Answers.{PrintsRows};

use crate::plan::Plan;
use icb_avro::{AvroFault, Cursor};
use icb_container::{Block, ContainerFault};
use icb_reader::RecordsFault;
use icb_rows::{Projection, RowView};
use std::alloc::Global;

/// Passes the rows of a block, and puts the lines of those that are chosen behind the plan's text. No row
/// is looked at behind the last one that is asked for.
pub(crate) fn print_rows<F>(
    alloc: Global,
    projection: &Projection,
    block: &Block,
    plan: &mut Plan,
) -> Result<(), RecordsFault<F>>
    requires { block.now.place + length block.now.bytes < 2 ^ 64 }
    ensures prints { PrintsRows result projection.now block.now plan.old plan.new }
    ensures words { KeepsWords plan.old plan.new }
    ensures answers { IfErr result IsOfFile }
{
    let mut cursor = Cursor::new(block.bytes.as_slice());
    for passed in 0..block.count {
        if plan.is_done() {
            return Ok(());
        }
        let view = match RowView::take(&mut cursor, projection) {
            Ok(view) => view,
            Err(fault) => return Err(refused(block.place, fault)),
        };
        if plan.pass_row(alloc, projection, &view).is_err() {
            return Err(RecordsFault::NoMemory);
        }
    }
    Ok(())
}

/// The refusal of an item, whose place is told from the first byte of bytes at a place of the file.
fn refused<F>(place: u64, fault: AvroFault) -> RecordsFault<F>
    requires { place + fault.place < 2 ^ 64 }
    ensures { result ≡ RecordsFault.Container (ContainerFault.Avro (record {
      place = place + fault.place;
      cause = fault.cause;
    })) }
{
    RecordsFault::Container(ContainerFault::Avro(AvroFault {
        place: place + fault.place,
        cause: fault.cause,
    }))
}
