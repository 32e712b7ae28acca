//! Why bytes are no value.
use icb_schema::NoMemory;
use std::alloc::AllocError;

/// What is wrong with the item that begins at a fault's place.
#[derive(Clone, Copy, Debug, PartialEq, Eq)]
pub enum AvroCause {
    /// The bytes end within it.
    End,
    /// A number takes more than 10 bytes, or doesn't fit 64 bits.
    Long,
    /// A number doesn't fit 32 bits.
    Int,
    /// A truth value is neither 00 nor 01.
    Bool,
    /// An enum or a union has no symbol or branch of this number.
    Index,
    /// A text isn't UTF-8.
    Utf8,
    /// A length or a size is below 0.
    Negative,
    /// A block has more items than bytes are left.
    Count,
    /// The items of a block don't take as many bytes as it says.
    Size,
}

/// The first item that the bytes don't spell.
#[derive(Clone, Copy, Debug, PartialEq, Eq)]
pub struct AvroFault {
    /// Where the item begins, in bytes from the first.
    pub place: u64,
    /// What is wrong with it.
    pub cause: AvroCause,
}

/// A fault whose place is told from the end.
#[derive(Clone, Copy, Debug, PartialEq, Eq)]
pub struct Refusal {
    /// How many bytes are left from the item's first on.
    pub left: usize,
    /// What is wrong with the item.
    pub cause: AvroCause,
}

/// Why a value isn't made, with the place told from the end.
#[derive(Clone, Copy, Debug, PartialEq, Eq)]
pub enum Stop {
    /// An item is refused.
    Refused(Refusal),
    /// No memory was left.
    NoMemory,
}

impl From<Refusal> for Stop {
    ghost use Rattle.std.specs.Prelude.{◌≡◌};
    ghost use Rattle.icb_avro.specs.declared.fault.Stop.TheVariants as variant;

    ghost from_gives = { λ refusal stop. stop ≡ variant.Refused refusal };

    fn from(refusal: Refusal) -> Self {
        Stop::Refused(refusal)
    }
}

impl From<NoMemory> for Stop {
    ghost use Rattle.std.specs.Prelude.{◌≡◌};
    ghost use Rattle.icb_avro.specs.declared.fault.Stop.TheVariants as variant;

    ghost from_gives = { λ _ stop. stop ≡ variant.NoMemory };

    fn from(_: NoMemory) -> Self {
        Stop::NoMemory
    }
}

impl From<AllocError> for Stop {
    ghost use Rattle.std.specs.Prelude.{◌≡◌};
    ghost use Rattle.icb_avro.specs.declared.fault.Stop.TheVariants as variant;

    ghost from_gives = { λ _ stop. stop ≡ variant.NoMemory };

    fn from(_: AllocError) -> Self {
        Stop::NoMemory
    }
}

/// Why a value isn't read.
#[derive(Clone, Copy, Debug, PartialEq, Eq)]
pub enum ValueFault {
    /// The bytes spell no value.
    Avro(AvroFault),
    /// No memory was left.
    NoMemory,
}
