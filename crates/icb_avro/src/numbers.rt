//! Whole numbers from the front of the bytes.
ghost use Rattle.std.specs.Prelude.{◌≡◌, ◌^◌, ◌<◌, [], ◌∷◌, length, IfOk, IfSome, MatchOption};
ghost use Rattle.icb_avro.specs.Answers.{Gives, joined};
ghost use Rattle.icb_avro.specs.Reading.{index_at, int_at, long_at, number_at, number_of, unzigzag, varint_at};

use crate::fault::{AvroCause, Refusal};

/// The item that begins here is refused.
pub(crate) fn refuse(all: &[u8], cause: AvroCause) -> Refusal
    ensures { result ≡ record { left = length all.now; cause = cause } }
{
    Refusal {
        left: all.len(),
        cause,
    }
}

/// The first byte and the bytes behind it.
#[inline(always)]
pub(crate) fn first(all: &[u8]) -> Option<(u8, &[u8])>
    ensures parts { MatchOption result (all.now ≡ []) (λ x. all.now ≡ x.0 ∷ x.1.now) }
    ensures byte { IfSome result (λ x. x.0 < 2 ^ 8) }
{
    match all {
        [] => None,
        [byte, rest @ ..] => Some((*byte, rest)),
    }
}

/// A number of 64 bits.
#[tactic(auto, unfolding(crate::specs::Reading::long_at))]
pub(crate) fn long_at(all: &[u8]) -> Result<(i64, &[u8]), Refusal>
    ensures { Gives (λ x. (x.0, x.1.now)) result (long_at all.now) }
{
    let (number, rest) = number_at(all)?;
    Ok((unzigzag(number), rest))
}

/// The number whose zigzag form this is.
fn unzigzag(n: u64) -> i64
    ensures { result ≡ unzigzag n }
{
    let half = (n / 2) as i64;
    if n % 2 == 0 { half } else { !half }
}

/// A number of 32 bits.
#[tactic(auto, unfolding(crate::specs::Reading::int_at))]
pub(crate) fn int_at(all: &[u8]) -> Result<(i32, &[u8]), Refusal>
    ensures { Gives (λ x. (x.0, x.1.now)) result (int_at all.now) }
{
    let (number, rest) = long_at(all)?;
    if number < i32::MIN as i64 || number > i32::MAX as i64 {
        return Err(refuse(all, AvroCause::Int));
    }
    Ok((number as i32, rest))
}

/// The number of a symbol or a branch, of so many.
#[tactic(auto, unfolding(crate::specs::Reading::index_at))]
pub(crate) fn index_at(count: usize, all: &[u8]) -> Result<(u32, &[u8]), Refusal>
    ensures gives { Gives (λ x. (x.0, x.1.now)) result (index_at count all.now) }
    ensures below { IfOk result (λ x. x.0 < count) }
{
    let (number, rest) = int_at(all)?;
    if number < 0 || number as usize >= count {
        return Err(refuse(all, AvroCause::Index));
    }
    Ok((number as u32, rest))
}

/// A number below 2^64. Most numbers take one byte.
fn number_at(all: &[u8]) -> Result<(u64, &[u8]), Refusal>
    ensures { Gives (λ x. (x.0, x.1.now)) result (number_at all.now) }
{
    match first(all) {
        Some((byte, rest)) => {
            if byte < 128 {
                return Ok((u64::from(byte), rest));
            }
            wide_number_at(all)
        }
        None => Err(refuse(all, AvroCause::End)),
    }
}

/// A number below 2^64, of up to 10 bytes.
fn wide_number_at(all: &[u8]) -> Result<(u64, &[u8]), Refusal>
    ensures { Gives (λ x. (x.0, x.1.now)) result (number_at all.now) }
{
    let mut number: u64 = 0;
    let mut power: u64 = 1;
    let mut rest = all;
    for done in 0..9u32 {
        let Some((byte, after)) = first(rest) else {
            return Err(refuse(all, AvroCause::End));
        };
        if byte < 128 {
            return Ok((number + power * u64::from(byte), after));
        }
        number += power * u64::from(byte - 128);
        power *= 128;
        rest = after;
    }
    tenth_byte(all, number, rest)
}

/// The number whose first nine bytes give this one.
fn tenth_byte<'a>(all: &'a [u8], number: u64, rest: &'a [u8]) -> Result<(u64, &'a [u8]), Refusal>
    requires { number < 2 ^ 63 }
    ensures { Gives (λ x. (x.0, x.1.now)) result
        (number_of all.now (joined number (2 ^ 63) (varint_at 1 rest.now))) }
{
    match first(rest) {
        Some((byte, after)) => {
            if byte > 1 {
                return Err(refuse(all, AvroCause::Long));
            }
            Ok((number + (1 << 63) * u64::from(byte), after))
        }
        None => Err(refuse(all, AvroCause::End)),
    }
}
