//! Why a record isn't in the form that is asked for.
use icb_schema::NoMemory;
use std::alloc::{AllocError, AllocFailed};

/// No field of this id is there in the form that is asked for.
#[derive(Clone, Copy, Debug, PartialEq, Eq)]
pub struct BadField {
    /// The field's id.
    pub id: i32,
}

/// Why what a record has isn't made.
#[derive(Clone, Copy, Debug, PartialEq, Eq)]
pub enum FieldFault {
    /// A field isn't there in the form that is asked for.
    Field(BadField),
    /// No memory was left.
    NoMemory,
}

impl From<BadField> for FieldFault {
    ghost use Rattle.std.specs.Prelude.{◌≡◌};
    ghost use Rattle.icb_fields.specs.declared.fault.FieldFault.TheVariants as variant;

    ghost from_gives = { λ field fault. fault ≡ variant.Field field };

    fn from(field: BadField) -> Self {
        FieldFault::Field(field)
    }
}

impl From<NoMemory> for FieldFault {
    ghost use Rattle.std.specs.Prelude.{◌≡◌};
    ghost use Rattle.icb_fields.specs.declared.fault.FieldFault.TheVariants as variant;

    ghost from_gives = { λ _ fault. fault ≡ variant.NoMemory };

    fn from(_: NoMemory) -> Self {
        FieldFault::NoMemory
    }
}

impl From<AllocError> for FieldFault {
    ghost use Rattle.std.specs.Prelude.{◌≡◌};
    ghost use Rattle.icb_fields.specs.declared.fault.FieldFault.TheVariants as variant;

    ghost from_gives = { λ _ fault. fault ≡ variant.NoMemory };

    fn from(_: AllocError) -> Self {
        FieldFault::NoMemory
    }
}

impl<T: Drop> From<AllocFailed<T>> for FieldFault {
    ghost use Rattle.std.specs.Prelude.{◌≡◌};
    ghost use Rattle.icb_fields.specs.declared.fault.FieldFault.TheVariants as variant;

    ghost from_gives = { λ _ fault. fault ≡ variant.NoMemory };

    fn from(_: AllocFailed<T>) -> Self {
        FieldFault::NoMemory
    }
}
