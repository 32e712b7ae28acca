//! The header of a file: its items one after another, each judged against the limit before it is read.
ghost use Rattle.std.specs.Prelude.{◌≡◌, ◌≤◌, ◌<◌, ◌+◌, List, ℕ, suc, Option, None, length, drop, IfErr, IfOk, OnOk};
ghost use Rattle.icb_container.specs.Answers.{Gives};
ghost use Rattle.icb_container.specs.Header.{block_at, bytes_at, map_at, marker_at, max_header, number_at, properties_at, text_at};
ghost use Rattle.icb_container.specs.Items.{ReadsItem, in_limit};
ghost use Rattle.icb_container.specs.Kept.{ReadsMap, ReadsMarker, ReadsProperties, sized_block};
ghost use Rattle.icb_container.specs.Known.{ForEachFile, IsNotMemory, ReadsOnly, reader_fault};

use crate::fault::ContainerFault;
use crate::found::{Found, PropertyValue};
use crate::numbers::{long_at, read, refuse};
use crate::pieces::pieces_at;
use icb_avro::AvroCause;
use icb_base::{Limited, ReadAt};
use icb_schema::Octets;
use std::alloc::Global;

/// No item of a header ends behind this place.
const MAX_HEADER: u64 = 1 << 24;

/// The item that begins at a place and ends at `stop` is within the limit.
fn check_limit<F>(at: u64, stop: u64, size: u64) -> Result<(), ContainerFault<F>>
    ensures gives { (file : List ℕ) → at ≤ length file
        → Gives (λ done. done) result (in_limit (length file) (drop at file) stop size) }
    ensures limit { OnOk result (stop ≤ max_header) }
    ensures answers { reader_fault result ≡ None }
    ensures memory { IfErr result IsNotMemory }
{
    if stop > MAX_HEADER {
        return Err(ContainerFault::Large {
            what: Limited::Header,
            place: at,
            size,
        });
    }
    Ok(())
}

/// A number, whose size is that of its bytes.
fn number_at<R: ReadAt>(reader: &mut R, at: u64) -> Result<(i64, u64), ContainerFault<R::Fault>>
    requires { at ≤ R.size reader.old }
    ensures reads { ForEachFile (R.content reader.old) (λ known file. ReadsItem (λ n. n) result at
        (number_at (length file) (drop at file)) known file) }
    ensures within { IfOk result (λ x. (at < x.1) × (x.1 ≤ R.size reader.old)) }
    ensures limit { IfOk result (λ x. x.1 ≤ max_header) }
    ensures reader { ReadsOnly R.ReadAt (reader_fault result) reader.old reader.new }
    ensures memory { IfErr result IsNotMemory }
{
    let (number, place) = long_at(reader, at)?;
    check_limit(at, place, place - at)?;
    Ok((number, place))
}

/// A number, and that many bytes.
fn bytes_at<R: ReadAt>(
    alloc: Global,
    reader: &mut R,
    at: u64,
) -> Result<(Octets, u64), ContainerFault<R::Fault>>
    requires { at ≤ R.size reader.old }
    ensures reads { ForEachFile (R.content reader.old) (λ known file. ReadsItem (λ b. b) result at
        (bytes_at (length file) (drop at file)) known file) }
    ensures within { IfOk result (λ x. (at < x.1) × (x.1 ≤ R.size reader.old)) }
    ensures reader { ReadsOnly R.ReadAt (reader_fault result) reader.old reader.new }
{
    let (number, place) = number_at(reader, at)?;
    if number < 0 {
        return Err(refuse(at, AvroCause::Negative));
    }
    let size = number as u64;
    check_limit(at, place + size, size)?;
    if reader.length() - place < size {
        return Err(refuse(at, AvroCause::End));
    }
    let bytes = pieces_at(alloc, reader, place, size)?;
    Ok((bytes, place + size))
}

/// A number, and that many bytes of UTF-8.
fn text_at<R: ReadAt>(
    alloc: Global,
    reader: &mut R,
    at: u64,
) -> Result<(Octets, u64), ContainerFault<R::Fault>>
    requires { at ≤ R.size reader.old }
    ensures reads { ForEachFile (R.content reader.old) (λ known file. ReadsItem (λ b. b) result at
        (text_at (length file) (drop at file)) known file) }
    ensures within { IfOk result (λ x. (at < x.1) × (x.1 ≤ R.size reader.old)) }
    ensures reader { ReadsOnly R.ReadAt (reader_fault result) reader.old reader.new }
{
    let (bytes, place) = bytes_at(alloc, reader, at)?;
    match str::from_utf8(bytes.as_slice()) {
        Ok(_) => Ok((bytes, place)),
        Err(_) => Err(refuse(at, AvroCause::Utf8)),
    }
}

/// A text and bytes.
fn property_at<R: ReadAt>(
    alloc: Global,
    reader: &mut R,
    at: u64,
    found: &mut Found,
) -> Result<u64, ContainerFault<R::Fault>>
    requires { at ≤ R.size reader.old }
    ensures reads { ForEachFile (R.content reader.old) (λ known file. ReadsProperties result
        found.old found.new at (properties_at (length file) 1 (drop at file)) known file) }
    ensures within { IfOk result (λ place. (at < place) × (place ≤ R.size reader.old)) }
    ensures reader { ReadsOnly R.ReadAt (reader_fault result) reader.old reader.new }
{
    let (key, place) = text_at(alloc, reader, at)?;
    let (bytes, behind) = bytes_at(alloc, reader, place)?;
    found.put(key.as_slice(), PropertyValue { bytes, place });
    Ok(behind)
}

/// So many properties.
fn properties_at<R: ReadAt>(
    alloc: Global,
    reader: &mut R,
    at: u64,
    count: u64,
    found: &mut Found,
) -> Result<u64, ContainerFault<R::Fault>>
    requires { at ≤ R.size reader.old }
    ensures reads { ForEachFile (R.content reader.old) (λ known file. ReadsProperties result
        found.old found.new at (properties_at (length file) count (drop at file)) known file) }
    ensures within { IfOk result (λ place. (at ≤ place) × (place ≤ R.size reader.old)) }
    ensures reader { ReadsOnly R.ReadAt (reader_fault result) reader.old reader.new }
{
    let mut place = at;
    for done in 0..count {
        place = property_at(alloc, reader, place, found)?;
    }
    Ok(place)
}

/// The properties of a block, whose size in bytes is said at a place.
fn sized_at<R: ReadAt>(
    alloc: Global,
    reader: &mut R,
    at: u64,
    count: u64,
    found: &mut Found,
) -> Result<u64, ContainerFault<R::Fault>>
    requires { at ≤ R.size reader.old }
    ensures reads { ForEachFile (R.content reader.old) (λ known file. ReadsProperties result
        found.old found.new at (sized_block (length file) count (drop at file)) known file) }
    ensures within { IfOk result (λ place. (at ≤ place) × (place ≤ R.size reader.old)) }
    ensures reader { ReadsOnly R.ReadAt (reader_fault result) reader.old reader.new }
{
    let (number, place) = number_at(reader, at)?;
    if number < 0 {
        return Err(refuse(at, AvroCause::Negative));
    }
    let behind = properties_at(alloc, reader, place, count, found)?;
    if behind - place != number as u64 {
        return Err(refuse(behind, AvroCause::Size));
    }
    Ok(behind)
}

/// The properties of a block, whose count, which isn't 0, stands at a place, and ends at another one.
fn block_at<R: ReadAt>(
    alloc: Global,
    reader: &mut R,
    at: u64,
    count: (i64, u64),
    found: &mut Found,
) -> Result<u64, ContainerFault<R::Fault>>
    requires behind { at ≤ count.1 }
    requires in_file { count.1 ≤ R.size reader.old }
    ensures reads { ForEachFile (R.content reader.old) (λ known file. ReadsProperties result
        found.old found.new count.1 (block_at (length file) (drop at file)
        (count.0, drop count.1 file)) known file) }
    ensures within { IfOk result (λ place. (count.1 ≤ place) × (place ≤ R.size reader.old)) }
    ensures reader { ReadsOnly R.ReadAt (reader_fault result) reader.old reader.new }
{
    let (number, place) = count;
    let count = number.unsigned_abs();
    if count > reader.length() - place {
        return Err(refuse(at, AvroCause::Count));
    }
    if number < 0 {
        return sized_at(alloc, reader, place, count, found);
    }
    properties_at(alloc, reader, place, count, found)
}

/// The map of properties.
pub(crate) fn map_at<R: ReadAt>(
    alloc: Global,
    reader: &mut R,
    at: u64,
) -> Result<(Found, u64), ContainerFault<R::Fault>>
    requires { at ≤ R.size reader.old }
    ensures reads { ForEachFile (R.content reader.old) (λ known file. ReadsMap result at
        (map_at (length file) (suc (length file)) (drop at file)) known file) }
    ensures within { IfOk result (λ x. (at ≤ x.1) × (x.1 ≤ R.size reader.old)) }
    ensures limit { IfOk result (λ x. x.1 ≤ max_header) }
    ensures reader { ReadsOnly R.ReadAt (reader_fault result) reader.old reader.new }
{
    let mut found = Found::new();
    let mut place = at;
    loop {
        let count = number_at(reader, place)?;
        if count.0 == 0 {
            return Ok((found, count.1));
        }
        place = block_at(alloc, reader, place, count, &mut found)?;
    }
}

/// 16 bytes.
pub(crate) fn marker_at<R: ReadAt>(
    reader: &mut R,
    at: u64,
) -> Result<[u8; 16], ContainerFault<R::Fault>>
    requires within { at ≤ R.size reader.old }
    requires limit { at ≤ max_header }
    ensures reads { ForEachFile (R.content reader.old) (λ known file. ReadsMarker result at
        (marker_at (length file) (drop at file)) known file) }
    ensures within { OnOk result (at + 16 ≤ R.size reader.old) }
    ensures reader { ReadsOnly R.ReadAt (reader_fault result) reader.old reader.new }
    ensures memory { IfErr result IsNotMemory }
{
    check_limit(at, at + 16, 16)?;
    if reader.length() - at < 16 {
        return Err(refuse(at, AvroCause::End));
    }
    let mut marker = [0; 16];
    read(reader, at, &mut marker)?;
    Ok(marker)
}
