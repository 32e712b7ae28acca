//! Why a text is no schema.
use crate::lists::NoMemory;
use std::alloc::{AllocError, AllocFailed};

/// Why a text is no schema. Nodes are numbered in document order, the root is node 0.
#[derive(Clone, Copy, Debug, Drop, PartialEq, Eq)]
pub enum SchemaFault {
    /// The text is no JSON text that `serde_json` reads.
    Json,
    /// There are more than 4,096 nodes.
    Nodes,
    /// A node is nested more than 32 deep.
    Depth {
        /// Its number.
        node: u32,
    },
    /// A node is no schema.
    Shape {
        /// Its number.
        node: u32,
    },
    /// A node names a type that encloses it.
    Recursive {
        /// Its number.
        node: u32,
    },
    /// No memory was left.
    NoMemory,
}

impl From<NoMemory> for SchemaFault {
    ghost use Rattle.std.specs.Prelude.{◌≡◌};
    ghost use Rattle.icb_schema.specs.declared.fault.SchemaFault.TheVariants as variant;

    ghost from_gives = { λ _ e. e ≡ variant.NoMemory };

    fn from(_: NoMemory) -> Self {
        SchemaFault::NoMemory
    }
}

impl From<AllocError> for SchemaFault {
    ghost use Rattle.std.specs.Prelude.{◌≡◌};
    ghost use Rattle.icb_schema.specs.declared.fault.SchemaFault.TheVariants as variant;

    ghost from_gives = { λ _ e. e ≡ variant.NoMemory };

    fn from(_: AllocError) -> Self {
        SchemaFault::NoMemory
    }
}

impl<T: Drop> From<AllocFailed<T>> for SchemaFault {
    ghost use Rattle.std.specs.Prelude.{◌≡◌};
    ghost use Rattle.icb_schema.specs.declared.fault.SchemaFault.TheVariants as variant;

    ghost from_gives = { λ _ e. e ≡ variant.NoMemory };

    fn from(_: AllocFailed<T>) -> Self {
        SchemaFault::NoMemory
    }
}
