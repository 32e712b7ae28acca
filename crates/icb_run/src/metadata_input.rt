//! Reading the table metadata of a command: that of the table's current version, or what it is handed.
ghost use Rattle.std.specs.Prelude.{◌≡◌, ◌≢◌, Err, IfSome};
ghost use Rattle.icb_base.specs.Causes.{Blames};
ghost use Rattle.icb_run.specs.Current.{status_of_current};
ghost use Rattle.icb_run.specs.Metadata.{FindsMetadata, IsOfMetadata, LeavesMetadata, LeavesTrusted, current_in, handed_in, metadata_told, unread};
ghost use Rattle.icb_tree.specs.Reading.{ReadsOnly};

use crate::input::{ReadFault, read_to_end};
use crate::status::Status;
use icb_base::{Limited, Source, Store};
use icb_meta::{MetaFault, TableMeta};
use icb_tree::{CurrentFault, current};
use std::alloc::Global;

/// The most bytes that metadata may have.
const METADATA_LIMIT: u64 = 67108864;

/// Reads the metadata that is handed in, or else that of the table's current version.
pub(crate) fn read_metadata<S: Store, M: Source>(
    alloc: Global,
    is_handed_in: bool,
    table: &mut S,
    trusted: &mut M,
) -> Result<TableMeta, Status>
    ensures finds { IfSome (metadata_told is_handed_in (S.held table.old) (M.left trusted.old))
        (λ meaning. FindsMetadata meaning result) }
    ensures left { LeavesTrusted is_handed_in (M.left trusted.old) (M.left trusted.new)
        (unread result) }
    ensures table { ReadsOnly S.Store (unread result ≡ Status.StoreFault) table.old table.new }
    ensures trusted { Blames (unread result ≡ Status.InputFault)
        (M.faults trusted.old) (M.faults trusted.new) }
    ensures status { IsOfMetadata (unread result) }
{
    if is_handed_in {
        return read_handed_in(alloc, trusted);
    }
    match current(alloc, table) {
        Ok((_, meta)) => Ok(meta),
        Err(fault) => Err(current_status(fault)),
    }
}

/// Reads the metadata that is handed in, to its end or to one byte past its limit.
fn read_handed_in<M: Source>(alloc: Global, trusted: &mut M) -> Result<TableMeta, Status>
    ensures finds { IfSome (M.left trusted.old) (λ text. FindsMetadata (handed_in text) result) }
    ensures left { LeavesMetadata (M.left trusted.old) (M.left trusted.new) (unread result) }
    ensures trusted { Blames (unread result ≡ Status.InputFault)
        (M.faults trusted.old) (M.faults trusted.new) }
    ensures status { IsOfMetadata (unread result) }
    ensures no_store { unread result ≢ Status.StoreFault }
{
    let text = match read_to_end(alloc, trusted, METADATA_LIMIT as usize) {
        Ok(text) => text,
        Err(ReadFault::Input) => return Err(Status::InputFault),
        Err(ReadFault::Limit) => return Err(Status::Limit {
            what: Limited::Metadata,
            number: METADATA_LIMIT,
        }),
        Err(ReadFault::NoMemory) => return Err(Status::NoMemory),
    };
    match TableMeta::read(alloc, text.as_slice()) {
        Ok(meta) => Ok(meta),
        Err(MetaFault::BadMeta { field }) => Err(Status::BadMeta { field }),
        Err(MetaFault::NoMemory) => Err(Status::NoMemory),
    }
}

/// The status of why there is no current metadata.
pub(crate) fn current_status(fault: CurrentFault) -> Status
    ensures status { result ≡ status_of_current fault }
    ensures no_input { result ≢ Status.InputFault }
    ensures no_random { result ≢ Status.RandomFault }
    ensures of_metadata { IsOfMetadata result }
{
    match fault {
        CurrentFault::NoTable => Status::NoTable,
        CurrentFault::Limit { what, number } => Status::Limit { what, number },
        CurrentFault::BadMeta { field } => Status::BadMeta { field },
        CurrentFault::Store => Status::StoreFault,
        CurrentFault::NoMemory => Status::NoMemory,
    }
}
