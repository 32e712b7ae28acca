//! The status of what a scan answers.
ghost use Rattle.std.specs.Prelude.{◌≡◌, Err};
ghost use Rattle.icb_run.specs.ScanStatus.{header_fault_of, limit_status, status_of_cause, status_of_chain, status_of_scan, status_of_tree};

use crate::status::{HeaderFault, Status};
use icb_base::{Limited, ObjPath};
use icb_chain::ChainFault;
use icb_scan::ScanFault;
use icb_walk::{Cause, TreeFault};

/// The most bytes of a container's header.
const HEADER_LIMIT: u64 = 16777216;

/// The most bytes of a container's block.
const BLOCK_LIMIT: u64 = 134217728;

/// The status of a scan that is refused.
pub(crate) fn scan_status(fault: ScanFault) -> Status
    ensures { result ≡ status_of_scan (Err fault) }
{
    match fault {
        ScanFault::Tree(fault) => tree_status(fault),
        ScanFault::NoColumn { name } => Status::NoColumn { name },
        ScanFault::BadRange { name } => Status::BadRange { name },
        ScanFault::Sink => Status::OutputFault,
        ScanFault::NoMemory => Status::NoMemory,
    }
}

/// The status of why a tree isn't read further.
pub(crate) fn tree_status(fault: TreeFault) -> Status
    ensures { result ≡ status_of_tree fault }
{
    match fault {
        TreeFault::NoSnapshot { id } => Status::NoSnapshot { id },
        TreeFault::PlainList { snapshot } => Status::PlainList { snapshot },
        TreeFault::Chain(fault) => chain_status(fault),
        TreeFault::BadList {
            snapshot,
            file,
            what: _,
        } => Status::BadList { snapshot, file },
        TreeFault::At { path, cause } => cause_status(path, cause),
        TreeFault::Store => Status::StoreFault,
        TreeFault::NoMemory => Status::NoMemory,
    }
}

/// The status of why a key isn't opened.
fn chain_status(fault: ChainFault) -> Status
    ensures { result ≡ status_of_chain fault }
{
    match fault {
        ChainFault::NoKey { id } => Status::NoKey { id },
        ChainFault::KeyRefused { id } => Status::KeyRefused { id },
        ChainFault::NoMemory => Status::NoMemory,
    }
}

/// The status of why a file isn't read further.
fn cause_status(path: ObjPath, cause: Cause) -> Status
    ensures { result ≡ status_of_cause path cause }
{
    match cause {
        Cause::Missing => Status::Missing { path },
        Cause::Short { size } => Status::Short { path, size },
        Cause::Header(fault) => Status::Header {
            path,
            fault: header_fault(fault),
        },
        Cause::Block { number } => Status::Block { path, number },
        Cause::Malformed { place, what: _ } => Status::Malformed { path, place },
        Cause::Codec { name } => Status::Codec { path, name },
        Cause::PlainFile { file } => Status::PlainFile { path, file },
        Cause::Unsupported { file, what: _ } => Status::Unsupported { path, file },
        Cause::Large {
            what,
            place: _,
            size: _,
        } => limit_status(what),
    }
}

/// Why an object doesn't begin as a stream does.
fn header_fault(fault: icb_walk::HeaderFault) -> HeaderFault
    ensures { result ≡ header_fault_of fault }
{
    match fault {
        icb_walk::HeaderFault::Magic { found } => HeaderFault::Magic { found },
        icb_walk::HeaderFault::BlockLength { found } => HeaderFault::BlockLength { found },
        icb_walk::HeaderFault::BadLength { length } => HeaderFault::BadLength { length },
    }
}

/// The limit of an item of a file that goes beyond one: a container's header, or else a block.
fn limit_status(what: Limited) -> Status
    ensures { result ≡ limit_status what }
{
    match what {
        Limited::Header => Status::Limit {
            what,
            number: HEADER_LIMIT,
        },
        _ => Status::Limit {
            what: Limited::Block,
            number: BLOCK_LIMIT,
        },
    }
}
