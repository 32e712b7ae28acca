//! Why a range, a projection or a data file is refused.
use icb_schema::{NoMemory, Text};
use std::alloc::AllocError;

/// Why a range is refused, in the order in which it is tested.
#[derive(Debug, Drop)]
pub enum RangeFault {
    /// No column has this name.
    NoColumn {
        /// The name.
        name: Text,
    },
    /// An end is null, or no value of the column of this name.
    BadRange {
        /// The name.
        name: Text,
    },
    /// No memory was left.
    NoMemory,
}

impl From<NoMemory> for RangeFault {
    ghost use Rattle.std.specs.Prelude.{◌≡◌};
    ghost use Rattle.icb_rows.specs.declared.fault.RangeFault.TheVariants as variant;

    ghost from_gives = { λ _ e. e ≡ variant.NoMemory };

    fn from(_: NoMemory) -> Self {
        RangeFault::NoMemory
    }
}

/// Why a projection is refused.
#[derive(Clone, Copy, Debug, PartialEq, Eq)]
pub enum ProjectionFault {
    /// A column is required and isn't in the file, or is there with another Avro type than its kind's.
    Field {
        /// The column's id.
        id: i32,
    },
    /// No memory was left.
    NoMemory,
}

impl From<NoMemory> for ProjectionFault {
    ghost use Rattle.std.specs.Prelude.{◌≡◌};
    ghost use Rattle.icb_rows.specs.declared.fault.ProjectionFault.TheVariants as variant;

    ghost from_gives = { λ _ e. e ≡ variant.NoMemory };

    fn from(_: NoMemory) -> Self {
        ProjectionFault::NoMemory
    }
}

impl From<AllocError> for ProjectionFault {
    ghost use Rattle.std.specs.Prelude.{◌≡◌};
    ghost use Rattle.icb_rows.specs.declared.fault.ProjectionFault.TheVariants as variant;

    ghost from_gives = { λ _ e. e ≡ variant.NoMemory };

    fn from(_: AllocError) -> Self {
        ProjectionFault::NoMemory
    }
}

/// Why a data file isn't written.
#[derive(Clone, Copy, Debug, PartialEq, Eq)]
pub enum DataFault {
    /// One of its blocks would be longer than a reader takes it.
    Block,
    /// No memory was left.
    NoMemory,
}

impl From<NoMemory> for DataFault {
    ghost use Rattle.std.specs.Prelude.{◌≡◌};
    ghost use Rattle.icb_rows.specs.declared.fault.DataFault.TheVariants as variant;

    ghost from_gives = { λ _ e. e ≡ variant.NoMemory };

    fn from(_: NoMemory) -> Self {
        DataFault::NoMemory
    }
}
