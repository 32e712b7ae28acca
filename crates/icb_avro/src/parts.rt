//! Bytes, texts and truth values from the front of the bytes.
ghost use Rattle.std.specs.Prelude.{◌≡◌};
ghost use Rattle.icb_avro.specs.Answers.{Gives};
ghost use Rattle.icb_avro.specs.Reading.{boolean_at, bytes_at, part_at, text_at};

use crate::fault::{AvroCause, Refusal};
use crate::numbers::{first, long_at, refuse};

/// So many bytes of the item that begins at `all`.
#[tactic(auto, unfolding(crate::specs::Reading::part_at))]
pub(crate) fn part_at<'a>(
    count: u64,
    all: &'a [u8],
    rest: &'a [u8],
) -> Result<(&'a [u8], &'a [u8]), Refusal>
    ensures { Gives (λ x. (x.0.now, x.1.now)) result (part_at count all.now rest.now) }
{
    if count > rest.len() as u64 {
        return Err(refuse(all, AvroCause::End));
    }
    let (part, behind) = rest.split_at(count as usize);
    Ok((part, behind))
}

/// A truth value.
#[tactic(auto, unfolding(crate::specs::Reading::boolean_at))]
pub(crate) fn boolean_at(all: &[u8]) -> Result<(bool, &[u8]), Refusal>
    ensures { Gives (λ x. (x.0, x.1.now)) result (boolean_at all.now) }
{
    match first(all) {
        Some((byte, rest)) => {
            if byte > 1 {
                return Err(refuse(all, AvroCause::Bool));
            }
            Ok((byte == 1, rest))
        }
        None => Err(refuse(all, AvroCause::End)),
    }
}

/// A number, and that many bytes.
#[tactic(auto, unfolding(crate::specs::Reading::bytes_at))]
pub(crate) fn bytes_at(all: &[u8]) -> Result<(&[u8], &[u8]), Refusal>
    ensures { Gives (λ x. (x.0.now, x.1.now)) result (bytes_at all.now) }
{
    let (count, rest) = long_at(all)?;
    if count < 0 {
        return Err(refuse(all, AvroCause::Negative));
    }
    part_at(count as u64, all, rest)
}

/// A number, and that many bytes of UTF-8.
#[tactic(auto, unfolding(crate::specs::Reading::text_at))]
pub(crate) fn text_at(all: &[u8]) -> Result<(&str, &[u8]), Refusal>
    ensures { Gives (λ x. (x.0.now, x.1.now)) result (text_at all.now) }
{
    let (bytes, rest) = bytes_at(all)?;
    match str::from_utf8(bytes) {
        Ok(text) => Ok((text, rest)),
        Err(_) => Err(refuse(all, AvroCause::Utf8)),
    }
}
