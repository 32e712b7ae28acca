//! Why schema words or a row line are refused.
use icb_schema::NoMemory;
use std::alloc::{AllocError, AllocFailed};

/// Why schema words are refused.
#[derive(Clone, Copy, Debug, PartialEq, Eq)]
pub enum WordsFault {
    /// The first column that isn't in the form. Positions count from 0.
    BadColumn {
        /// Its position.
        position: u32,
    },
    /// No memory was left.
    NoMemory,
}

/// Why a row line is refused, in the order in which it is tested.
#[derive(Clone, Copy, Debug, PartialEq, Eq)]
pub enum RowFault {
    /// The line is no JSON text that `serde_json` reads.
    NotJson,
    /// It is no array.
    NotArray,
    /// It hasn't one value for each column.
    RowLength {
        /// The number of values, at most 2^32 - 1.
        found: u32,
    },
    /// The first column whose value isn't one of its kind. Columns count from 0.
    BadValue {
        /// Its position, at most 2^32 - 1.
        column: u32,
    },
    /// No memory was left.
    NoMemory,
}

impl From<NoMemory> for WordsFault {
    ghost use Rattle.std.specs.Prelude.{◌≡◌};
    ghost use Rattle.icb_types.specs.declared.fault.WordsFault.TheVariants as variant;

    ghost from_gives = { λ _ e. e ≡ variant.NoMemory };

    fn from(_: NoMemory) -> Self {
        WordsFault::NoMemory
    }
}

impl From<AllocError> for WordsFault {
    ghost use Rattle.std.specs.Prelude.{◌≡◌};
    ghost use Rattle.icb_types.specs.declared.fault.WordsFault.TheVariants as variant;

    ghost from_gives = { λ _ e. e ≡ variant.NoMemory };

    fn from(_: AllocError) -> Self {
        WordsFault::NoMemory
    }
}

impl From<NoMemory> for RowFault {
    ghost use Rattle.std.specs.Prelude.{◌≡◌};
    ghost use Rattle.icb_types.specs.declared.fault.RowFault.TheVariants as variant;

    ghost from_gives = { λ _ e. e ≡ variant.NoMemory };

    fn from(_: NoMemory) -> Self {
        RowFault::NoMemory
    }
}

impl<T: Drop> From<AllocFailed<T>> for RowFault {
    ghost use Rattle.std.specs.Prelude.{◌≡◌};
    ghost use Rattle.icb_types.specs.declared.fault.RowFault.TheVariants as variant;

    ghost from_gives = { λ _ e. e ≡ variant.NoMemory };

    fn from(_: AllocFailed<T>) -> Self {
        RowFault::NoMemory
    }
}
