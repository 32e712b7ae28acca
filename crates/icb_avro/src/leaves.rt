//! Values without values inside.
ghost use Rattle.std.specs.Prelude.{◌≡◌};
ghost use Rattle.icb_avro.specs.Answers.{Makes};
ghost use Rattle.icb_avro.specs.Reading.{boolean_at, bytes_at, index_at, int_at, long_at, part_at, read_as, text_at};
ghost use Rattle.icb_avro.specs.declared.value.Value.TheVariants as value;

use crate::fault::{AvroCause, Stop};
use crate::numbers::{index_at, int_at, long_at, refuse};
use crate::parts::{boolean_at, bytes_at, part_at, text_at};
use crate::value::Value;
use icb_schema::{Octets, Text};
use std::alloc::Global;

/// A truth value.
pub(crate) fn boolean(all: &[u8]) -> Result<(Value, &[u8]), Stop>
    ensures { Makes (λ x. (x.0, x.1.now)) result (read_as value.Boolean (boolean_at all.now)) }
{
    let (truth, rest) = boolean_at(all)?;
    Ok((Value::Boolean(truth), rest))
}

/// A number of 32 bits.
pub(crate) fn int(all: &[u8]) -> Result<(Value, &[u8]), Stop>
    ensures { Makes (λ x. (x.0, x.1.now)) result (read_as value.Int (int_at all.now)) }
{
    let (number, rest) = int_at(all)?;
    Ok((Value::Int(number), rest))
}

/// A number of 64 bits.
pub(crate) fn long(all: &[u8]) -> Result<(Value, &[u8]), Stop>
    ensures { Makes (λ x. (x.0, x.1.now)) result (read_as value.Long (long_at all.now)) }
{
    let (number, rest) = long_at(all)?;
    Ok((Value::Long(number), rest))
}

/// The four bytes of a floating point number.
#[tactic(auto, unfolding(crate::specs::Reading::part_at))]
pub(crate) fn float(all: &[u8]) -> Result<(Value, &[u8]), Stop>
    ensures { Makes (λ x. (x.0, x.1.now)) result
        (read_as value.Float (part_at 4 all.now all.now)) }
{
    match all.split_first_chunk::<4>() {
        Some((bytes, rest)) => Ok((Value::Float(*bytes), rest)),
        None => Err(Stop::Refused(refuse(all, AvroCause::End))),
    }
}

/// The eight bytes of a floating point number.
#[tactic(auto, unfolding(crate::specs::Reading::part_at))]
pub(crate) fn double(all: &[u8]) -> Result<(Value, &[u8]), Stop>
    ensures { Makes (λ x. (x.0, x.1.now)) result
        (read_as value.Double (part_at 8 all.now all.now)) }
{
    match all.split_first_chunk::<8>() {
        Some((bytes, rest)) => Ok((Value::Double(*bytes), rest)),
        None => Err(Stop::Refused(refuse(all, AvroCause::End))),
    }
}

/// Bytes of its own.
pub(crate) fn bytes(alloc: Global, all: &[u8]) -> Result<(Value, &[u8]), Stop>
    ensures { Makes (λ x. (x.0, x.1.now)) result (read_as value.Bytes (bytes_at all.now)) }
{
    let (bytes, rest) = bytes_at(all)?;
    Ok((Value::Bytes(Octets::from_slice(alloc, bytes)?), rest))
}

/// A text of its own.
pub(crate) fn text(alloc: Global, all: &[u8]) -> Result<(Value, &[u8]), Stop>
    ensures { Makes (λ x. (x.0, x.1.now)) result (read_as value.Text (text_at all.now)) }
{
    let (text, rest) = text_at(all)?;
    Ok((Value::Text(Text::from_str(alloc, text)?), rest))
}

/// The bytes of a fixed type.
pub(crate) fn fixed(alloc: Global, size: u32, all: &[u8]) -> Result<(Value, &[u8]), Stop>
    ensures { Makes (λ x. (x.0, x.1.now)) result
        (read_as value.Fixed (part_at size all.now all.now)) }
{
    let (bytes, rest) = part_at(u64::from(size), all, all)?;
    Ok((Value::Fixed(Octets::from_slice(alloc, bytes)?), rest))
}

/// The number of a symbol, of so many.
pub(crate) fn symbol(count: usize, all: &[u8]) -> Result<(Value, &[u8]), Stop>
    ensures { Makes (λ x. (x.0, x.1.now)) result (read_as value.Enum (index_at count all.now)) }
{
    let (number, rest) = index_at(count, all)?;
    Ok((Value::Enum(number), rest))
}
