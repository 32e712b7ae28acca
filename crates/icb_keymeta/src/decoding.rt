//! Reading key metadata.
ghost use Rattle.std.specs.Prelude.{◌≡◌, ◌<◌, ◌^◌, ◌==◌, length, option_map, if◌then◌else◌, ◌≤◌, IfErr, IfOk, IsTrue};
ghost use Rattle.std.specs.Option.{ForSome};
ghost use Rattle.icb_avro.specs.Reading.{bytes_at, index_at, long_at};
ghost use Rattle.icb_base.specs.KeyMetadata.{IsKeyRecord, is_key_length};
ghost use Rattle.icb_keymeta.specs.Calls.{Decodes, Gives, IsForm, IsWithin, record_of};
ghost use Rattle.icb_keymeta.specs.Decoded.{avro, key_at, key_metadata_of, length_at, optional_at, record_at, versioned_at};

use crate::fault::DecodeFault;
use icb_avro::Cursor;
use icb_base::KeyMeta;
use std::alloc::Global;

/// What key metadata says, in slices of its bytes.
#[derive(Clone, Copy, Debug)]
struct Parts<'a> {
    key: &'a [u8],
    prefix: Option<&'a [u8]>,
    length: Option<u64>,
}

/// The key metadata that the bytes are. `BadKeyMeta` comes exactly where they aren't, with the place
/// of the first refused item: 0 for the version or for no bytes, the place of the length number for
/// a wrong key length, that of the number for a length below 0, the end of the record for bytes
/// behind it, and else that of Avro's item. Numbers may be longer than the shortest.
#[tactic(auto, unfolding(crate::specs::Decoded::key_metadata_of))]
pub fn decode(alloc: Global, bytes: &[u8]) -> Result<KeyMeta, DecodeFault>
    ensures { Decodes result (key_metadata_of bytes.now) }
{
    let parts = match versioned_at(bytes) {
        Ok(parts) => parts,
        Err(left) => {
            return Err(DecodeFault::BadKeyMeta {
                place: (bytes.len() - left) as u64,
            });
        }
    };
    match KeyMeta::new(alloc, parts.key, parts.prefix, parts.length) {
        Ok(meta) => Ok(meta),
        Err(_) => Err(DecodeFault::NoMemory),
    }
}

/// The version 1, and a record with nothing behind it.
#[tactic(auto, unfolding(crate::specs::Decoded::versioned_at))]
fn versioned_at(all: &[u8]) -> Result<Parts<'_>, usize>
    ensures gives { Gives record_of result (versioned_at all.now) }
    ensures form { IfOk result IsForm }
    ensures within { IfErr result (λ left. left ≤ length all.now) }
{
    let [1, rest @ ..] = all else {
        return Err(all.len());
    };
    let (parts, behind) = record_at(rest)?;
    if !behind.is_empty() {
        return Err(behind.len());
    }
    Ok(parts)
}

/// The fields, in order.
#[tactic(auto, unfolding(crate::specs::Decoded::record_at))]
fn record_at(all: &[u8]) -> Result<(Parts<'_>, &[u8]), usize>
    ensures gives { Gives (λ x. (record_of x.0, x.1.now)) result (record_at all.now) }
    ensures form { IfOk result (λ x. IsForm x.0) }
    ensures within { IsWithin result all.now }
{
    let (key, rest) = key_at(all)?;
    let (prefix, rest) = prefix_at(rest)?;
    let (length, rest) = length_told_at(rest)?;
    Ok((
        Parts {
            key,
            prefix,
            length,
        },
        rest,
    ))
}

/// A key of 16, 24 or 32 bytes.
#[tactic(auto, unfolding(crate::specs::Decoded::key_at))]
fn key_at(all: &[u8]) -> Result<(&[u8], &[u8]), usize>
    ensures gives { Gives (λ x. (x.0.now, x.1.now)) result (key_at all.now) }
    ensures length { IfOk result (λ x. IsTrue (is_key_length (length x.0.now))) }
    ensures within { IsWithin result all.now }
{
    let (key, rest) = bytes_at(all)?;
    if !matches!(key.len(), 16 | 24 | 32) {
        return Err(all.len());
    }
    Ok((key, rest))
}

/// A prefix, where it is there.
#[tactic(auto, unfolding(crate::specs::Decoded::optional_at))]
fn prefix_at(all: &[u8]) -> Result<(Option<&[u8]>, &[u8]), usize>
    ensures gives { Gives (λ x. (option_map (λ bytes. bytes.now) x.0, x.1.now)) result
        (optional_at (λ rest. avro (bytes_at rest)) all.now) }
    ensures within { IsWithin result all.now }
{
    let (is_there, rest) = branch_at(all)?;
    if !is_there {
        return Ok((None, rest));
    }
    let (prefix, rest) = bytes_at(rest)?;
    Ok((Some(prefix), rest))
}

/// A length that isn't below 0, where it is there.
#[tactic(auto, unfolding(crate::specs::Decoded::optional_at))]
fn length_told_at(all: &[u8]) -> Result<(Option<u64>, &[u8]), usize>
    ensures gives { Gives (λ x. (x.0, x.1.now)) result (optional_at length_at all.now) }
    ensures below { IfOk result (λ x. ForSome x.0 (λ n. n < 2 ^ 63)) }
    ensures within { IsWithin result all.now }
{
    let (is_there, rest) = branch_at(all)?;
    if !is_there {
        return Ok((None, rest));
    }
    let (length, rest) = length_at(rest)?;
    Ok((Some(length), rest))
}

/// A length that isn't below 0.
#[tactic(auto, unfolding(crate::specs::Decoded::length_at))]
fn length_at(all: &[u8]) -> Result<(u64, &[u8]), usize>
    ensures gives { Gives (λ x. (x.0, x.1.now)) result (length_at all.now) }
    ensures below { IfOk result (λ x. x.0 < 2 ^ 63) }
    ensures within { IsWithin result all.now }
{
    let (number, rest) = long_at(all)?;
    if number < 0 {
        return Err(all.len());
    }
    Ok((number as u64, rest))
}

/// Whether a union of null and another type has the other one.
#[tactic(auto, unfolding(icb_avro::specs::Reading::index_at))]
fn branch_at(all: &[u8]) -> Result<(bool, &[u8]), usize>
    ensures gives { Gives (λ x. ((if x.0 then 1 else 0), x.1.now)) result
        (avro (index_at 2 all.now)) }
    ensures within { IsWithin result all.now }
{
    let mut cursor = Cursor::new(all);
    match cursor.int() {
        Ok(0) => Ok((false, &all[cursor.place()..])),
        Ok(1) => Ok((true, &all[cursor.place()..])),
        Ok(_) => Err(all.len()),
        Err(fault) => Err(all.len() - fault.place as usize),
    }
}

/// Avro's bytes.
fn bytes_at(all: &[u8]) -> Result<(&[u8], &[u8]), usize>
    ensures gives { Gives (λ x. (x.0.now, x.1.now)) result (avro (bytes_at all.now)) }
    ensures within { IsWithin result all.now }
{
    let mut cursor = Cursor::new(all);
    match cursor.bytes() {
        Ok(bytes) => Ok((bytes, &all[cursor.place()..])),
        Err(fault) => Err(all.len() - fault.place as usize),
    }
}

/// Avro's number of 64 bits.
fn long_at(all: &[u8]) -> Result<(i64, &[u8]), usize>
    ensures gives { Gives (λ x. (x.0, x.1.now)) result (avro (long_at all.now)) }
    ensures within { IsWithin result all.now }
{
    let mut cursor = Cursor::new(all);
    match cursor.long() {
        Ok(number) => Ok((number, &all[cursor.place()..])),
        Err(fault) => Err(all.len() - fault.place as usize),
    }
}
