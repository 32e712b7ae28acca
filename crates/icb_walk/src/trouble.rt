//! Why a file isn't read further, before it is said which file.

ghost use Rattle.std.specs.Prelude.{◌≡◌};
ghost use Rattle.icb_walk.specs.Causes.{IsAt, StandsFor, StandsForContainer, StandsForRecords};

use crate::fault::{Broken, Cause, HeaderFault, TreeFault};
use icb_base::ObjPath;
use icb_container::ContainerFault;
use icb_reader::RecordsFault;
use icb_stream::StreamFault;
use std::alloc::Global;

/// Why a file isn't read further.
#[derive(Debug, Drop)]
pub(crate) enum Trouble {
    /// The file is why.
    Cause(Cause),
    /// A call of the store failed.
    Store,
    /// No memory was left.
    NoMemory,
}

impl From<icb_base::NoMemory> for Trouble {
    ghost use Rattle.std.specs.Prelude.{◌≡◌};
    ghost use Rattle.icb_walk.specs.declared.trouble.Trouble.TheVariants as variant;

    ghost from_gives = { λ _ fault. fault ≡ variant.NoMemory };

    fn from(_: icb_base::NoMemory) -> Self {
        Trouble::NoMemory
    }
}

impl From<icb_schema::NoMemory> for Trouble {
    ghost use Rattle.std.specs.Prelude.{◌≡◌};
    ghost use Rattle.icb_walk.specs.declared.trouble.Trouble.TheVariants as variant;

    ghost from_gives = { λ _ fault. fault ≡ variant.NoMemory };

    fn from(_: icb_schema::NoMemory) -> Self {
        Trouble::NoMemory
    }
}

/// Why a file isn't read further, by the refusal of its stream.
pub(crate) fn of_stream(inner: StreamFault) -> Trouble
    ensures { StandsFor inner result }
{
    match inner {
        StreamFault::Store => Trouble::Store,
        StreamFault::NoMemory => Trouble::NoMemory,
        StreamFault::Missing => Trouble::Cause(Cause::Missing),
        StreamFault::Short { size } => Trouble::Cause(Cause::Short { size }),
        StreamFault::Magic { found } => {
            Trouble::Cause(Cause::Header(HeaderFault::Magic { found }))
        }
        StreamFault::BlockLength { found } => {
            Trouble::Cause(Cause::Header(HeaderFault::BlockLength { found }))
        }
        StreamFault::BadLength { length } => {
            Trouble::Cause(Cause::Header(HeaderFault::BadLength { length }))
        }
        StreamFault::Block { number } => Trouble::Cause(Cause::Block { number }),
    }
}

/// Why a file isn't read further, by the refusal of its records.
pub(crate) fn of_records(inner: RecordsFault<StreamFault>) -> Trouble
    ensures { StandsForRecords inner result }
{
    match inner {
        RecordsFault::Container(inner) => of_container(inner),
        RecordsFault::Field { place, id } => malformed(place, Broken::Field { id }),
        RecordsFault::NoMemory => Trouble::NoMemory,
    }
}

/// Why a file isn't read further, by the refusal of its container.
fn of_container(inner: ContainerFault<StreamFault>) -> Trouble
    ensures { StandsForContainer inner result }
{
    match inner {
        ContainerFault::Reader(inner) => of_stream(inner),
        ContainerFault::NotAvro => malformed(0, Broken::NotAvro),
        ContainerFault::Avro(fault) => malformed(fault.place, Broken::Avro(fault.cause)),
        ContainerFault::Large { what, place, size } => {
            Trouble::Cause(Cause::Large { what, place, size })
        }
        ContainerFault::Codec { name } => Trouble::Cause(Cause::Codec { name }),
        ContainerFault::Schema(_) => malformed(0, Broken::Schema),
        ContainerFault::Sync { block } => malformed(0, Broken::Sync { block }),
        ContainerFault::NoMemory => Trouble::NoMemory,
    }
}

/// Something isn't in its form.
fn malformed(place: u64, what: Broken) -> Trouble
    ensures { result ≡ Trouble.Cause (Cause.Malformed place what) }
{
    Trouble::Cause(Cause::Malformed { place, what })
}

/// The refusal that a file isn't read further.
pub(crate) fn at(alloc: Global, path: &ObjPath, trouble: Trouble) -> TreeFault
    ensures { IsAt path.now trouble result }
{
    let cause = match trouble {
        Trouble::Cause(cause) => cause,
        Trouble::Store => return TreeFault::Store,
        Trouble::NoMemory => return TreeFault::NoMemory,
    };
    match path.copy(alloc) {
        Ok(path) => TreeFault::At { path, cause },
        Err(_) => TreeFault::NoMemory,
    }
}
