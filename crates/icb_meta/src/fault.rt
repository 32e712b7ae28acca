//! Why a text is no table metadata.
use icb_base::NoMemory;
use icb_schema::Text;
use std::alloc::{AllocError, AllocFailed};

/// Why a text is no table metadata.
#[derive(Debug, Drop)]
pub enum MetaFault {
    /// A field isn't there in its form.
    BadMeta {
        /// The first such field's name, which is empty where the text is no JSON object or has a number
        /// that isn't a whole one of 64 bits.
        field: Text,
    },
    /// No memory was left.
    NoMemory,
}

/// Why a part of it isn't read.
#[derive(Clone, Copy, Debug)]
pub(crate) enum Refusal {
    /// The field of this name isn't there in its form.
    Field(&'static str),
    /// No memory was left.
    NoMemory,
}

impl From<icb_schema::NoMemory> for Refusal {
    ghost use Rattle.std.specs.Prelude.{◌≡◌};
    ghost use Rattle.icb_meta.specs.declared.fault.Refusal.TheVariants as variant;

    ghost from_gives = { λ _ e. e ≡ variant.NoMemory };

    fn from(_: icb_schema::NoMemory) -> Self {
        Refusal::NoMemory
    }
}

impl From<NoMemory> for Refusal {
    ghost use Rattle.std.specs.Prelude.{◌≡◌};
    ghost use Rattle.icb_meta.specs.declared.fault.Refusal.TheVariants as variant;

    ghost from_gives = { λ _ e. e ≡ variant.NoMemory };

    fn from(_: NoMemory) -> Self {
        Refusal::NoMemory
    }
}

impl From<AllocError> for Refusal {
    ghost use Rattle.std.specs.Prelude.{◌≡◌};
    ghost use Rattle.icb_meta.specs.declared.fault.Refusal.TheVariants as variant;

    ghost from_gives = { λ _ e. e ≡ variant.NoMemory };

    fn from(_: AllocError) -> Self {
        Refusal::NoMemory
    }
}

impl<T: Drop> From<AllocFailed<T>> for Refusal {
    ghost use Rattle.std.specs.Prelude.{◌≡◌};
    ghost use Rattle.icb_meta.specs.declared.fault.Refusal.TheVariants as variant;

    ghost from_gives = { λ _ e. e ≡ variant.NoMemory };

    fn from(_: AllocFailed<T>) -> Self {
        Refusal::NoMemory
    }
}
