//! The refusal of a file of a tree, by that of its stream or of its records.

ghost use Rattle.icb_walk.specs.Causes.{IsOfRecords, IsOfStream};

use crate::fault::TreeFault;
use crate::trouble::{at, of_records, of_stream};
use icb_base::ObjPath;
use icb_reader::RecordsFault;
use icb_stream::StreamFault;
use std::alloc::Global;

/// The refusal of the file at a path whose stream is refused.
pub fn stream_refused(alloc: Global, path: &ObjPath, fault: StreamFault) -> TreeFault
    ensures { IsOfStream path.now fault result }
{
    at(alloc, path, of_stream(fault))
}

/// The refusal of the file at a path whose records are refused.
pub fn records_refused(alloc: Global, path: &ObjPath, fault: RecordsFault<StreamFault>) -> TreeFault
    ensures { IsOfRecords path.now fault result }
{
    at(alloc, path, of_records(fault))
}
