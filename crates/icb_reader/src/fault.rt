//! Why the next record isn't read.
use icb_container::ContainerFault;
use icb_schema::NoMemory;

/// Why records aren't opened, or the next one isn't read. Places count from the file's first byte.
#[derive(Debug, Drop)]
pub enum RecordsFault<F> {
    /// The container is refused, or its reader refused a read.
    Container(ContainerFault<F>),
    /// The record has no field of this id in its form.
    Field {
        /// Where the record begins.
        place: u64,
        /// The first such field.
        id: i32,
    },
    /// No memory was left.
    NoMemory,
}

impl<F> From<ContainerFault<F>> for RecordsFault<F> {
    ghost use Rattle.std.specs.Prelude.{◌≡◌};
    ghost use Rattle.icb_reader.specs.Answers.{of_container};

    ghost from_gives = { λ inner fault. fault ≡ of_container inner };

    fn from(inner: ContainerFault<F>) -> Self {
        match inner {
            ContainerFault::NoMemory => RecordsFault::NoMemory,
            other => RecordsFault::Container(other),
        }
    }
}

impl<F> From<NoMemory> for RecordsFault<F> {
    ghost use Rattle.std.specs.Prelude.{◌≡◌};
    ghost use Rattle.icb_reader.specs.declared.fault.RecordsFault.TheVariants as variant;

    ghost from_gives = { λ _ fault. fault ≡ variant.NoMemory };

    fn from(_: NoMemory) -> Self {
        RecordsFault::NoMemory
    }
}
