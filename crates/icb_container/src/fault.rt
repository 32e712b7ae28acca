//! Why a container isn't opened, or its next block isn't read.
use icb_avro::AvroFault;
use icb_base::Limited;
use icb_schema::{NoMemory, SchemaFault, Text};
use std::alloc::{AllocError, AllocFailed};

/// Why a container isn't opened, or its next block isn't read. Places count from the file's first
/// byte.
#[derive(Debug, Drop)]
pub enum ContainerFault<F> {
    /// The reader refused a read.
    Reader(F),
    /// The magic or the schema isn't there.
    NotAvro,
    /// An item is refused.
    Avro(AvroFault),
    /// An item goes beyond a limit.
    Large {
        /// The limit.
        what: Limited,
        /// Where the item begins.
        place: u64,
        /// The size that it says, or the number of its bytes.
        size: u64,
    },
    /// The codec isn't `null`.
    Codec {
        /// The codec.
        name: Text,
    },
    /// The schema is refused, or is no record that takes a byte.
    Schema(SchemaFault),
    /// The marker behind a block isn't the header's.
    Sync {
        /// The block's number, from 0.
        block: u64,
    },
    /// No memory was left.
    NoMemory,
}

impl<F> From<NoMemory> for ContainerFault<F> {
    ghost use Rattle.std.specs.Prelude.{◌≡◌};
    ghost use Rattle.icb_container.specs.declared.fault.ContainerFault.TheVariants as variant;

    ghost from_gives = { λ _ e. e ≡ variant.NoMemory };

    fn from(_: NoMemory) -> Self {
        ContainerFault::NoMemory
    }
}

impl<F> From<AllocError> for ContainerFault<F> {
    ghost use Rattle.std.specs.Prelude.{◌≡◌};
    ghost use Rattle.icb_container.specs.declared.fault.ContainerFault.TheVariants as variant;

    ghost from_gives = { λ _ e. e ≡ variant.NoMemory };

    fn from(_: AllocError) -> Self {
        ContainerFault::NoMemory
    }
}
