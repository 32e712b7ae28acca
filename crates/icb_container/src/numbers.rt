//! Numbers at a place of a file, read in pieces that are no longer than a number.
ghost use Rattle.std.specs.Prelude.{◌≡◌, ◌≤◌, ◌<◌, ◌+◌, ◌^◌, List, ℕ, Option, None, length, drop, IfErr, IfOk, OnOk};
ghost use Rattle.icb_base.specs.Contents.{HasPart};
ghost use Rattle.icb_avro.specs.Reading.{long_at};
ghost use Rattle.icb_container.specs.Wrong.{in_file};
ghost use Rattle.icb_container.specs.Blocks.{head_at, head_from, natural_at};
ghost use Rattle.icb_container.specs.Answers.{Gives};
ghost use Rattle.icb_container.specs.Known.{ForEachFile, IsNotMemory, ReadsOnly, reader_fault};
ghost use Rattle.icb_container.specs.Items.{SaysNothing, IsWithin, ReadsHead, ReadsItem, head_of};

use crate::fault::ContainerFault;
use icb_avro::{AvroCause, AvroFault, Cursor};
use icb_base::{Limited, ReadAt};
use icb_schema::Octets;
use std::alloc::Global;

/// No number has more bytes.
const LONGEST: usize = 10;

/// No block has more bytes of records.
const MAX_BLOCK: u64 = 1 << 27;

/// What stands in front of a block's records.
#[derive(Clone, Copy, Debug)]
pub(crate) struct BlockHead {
    /// How many records there are.
    pub(crate) count: u64,
    /// How many bytes they have.
    pub(crate) size: u64,
    /// Where the first record begins.
    pub(crate) place: u64,
}

/// Fills `out` with the bytes from a place on.
pub(crate) fn read<R: ReadAt>(
    reader: &mut R,
    at: u64,
    out: &mut [u8],
) -> Result<(), ContainerFault<R::Fault>>
    requires { at + length out.old ≤ R.size reader.old }
    ensures bytes { OnOk result ((known : List (Option ℕ)) → R.content reader.old known
        → HasPart known at out.new) }
    ensures refused { IfErr result SaysNothing }
    ensures reader { ReadsOnly R.ReadAt (reader_fault result) reader.old reader.new }
    ensures memory { IfErr result IsNotMemory }
{
    match reader.read_at(at, out) {
        Ok(()) => Ok(()),
        Err(fault) => Err(ContainerFault::Reader(fault)),
    }
}

/// The fault of an item that begins at a place.
pub(crate) fn refuse<F>(place: u64, cause: AvroCause) -> ContainerFault<F>
    ensures { result ≡ ContainerFault.Avro (record { place = place; cause = cause }) }
{
    ContainerFault::Avro(AvroFault { place, cause })
}

/// The number at a place, and the place behind it.
pub(crate) fn long_at<R: ReadAt>(
    reader: &mut R,
    at: u64,
) -> Result<(i64, u64), ContainerFault<R::Fault>>
    requires { at ≤ R.size reader.old }
    ensures reads { ForEachFile (R.content reader.old) (λ known file. ReadsItem (λ n. n) result at
        (in_file (length file) (long_at (drop at file))) known file) }
    ensures within { IfOk result (λ x. (at < x.1) × (x.1 ≤ R.size reader.old)) }
    ensures reader { ReadsOnly R.ReadAt (reader_fault result) reader.old reader.new }
    ensures memory { IfErr result IsNotMemory }
{
    let mut buffer = [0; LONGEST];
    let count = (reader.length() - at).min(LONGEST as u64) as usize;
    let piece = &mut buffer[..count];
    read(reader, at, piece)?;
    let mut cursor = Cursor::new(piece);
    match cursor.long() {
        Ok(number) => Ok((number, at + cursor.place() as u64)),
        Err(fault) => Err(refuse(at, fault.cause)),
    }
}

/// The number at a place, which isn't below 0, and the place behind it.
pub(crate) fn natural_at<R: ReadAt>(
    reader: &mut R,
    at: u64,
) -> Result<(u64, u64), ContainerFault<R::Fault>>
    requires { at ≤ R.size reader.old }
    ensures reads { ForEachFile (R.content reader.old) (λ known file. ReadsItem (λ n. n) result at
        (natural_at (length file) (drop at file)) known file) }
    ensures within { IfOk result (λ x. (at ≤ x.1) × (x.1 ≤ R.size reader.old)) }
    ensures reader { ReadsOnly R.ReadAt (reader_fault result) reader.old reader.new }
    ensures memory { IfErr result IsNotMemory }
{
    let (number, place) = long_at(reader, at)?;
    if number < 0 {
        return Err(refuse(at, AvroCause::Negative));
    }
    Ok((number as u64, place))
}

/// What stands in front of the records of the block at a place.
pub(crate) fn head_at<R: ReadAt>(
    reader: &mut R,
    at: u64,
) -> Result<BlockHead, ContainerFault<R::Fault>>
    requires { at ≤ R.size reader.old }
    ensures reads { ForEachFile (R.content reader.old) (λ known file. ReadsHead result at
        (head_at (length file) (drop at file)) known file) }
    ensures within { IfOk result (IsWithin (R.size reader.old) at) }
    ensures reader { ReadsOnly R.ReadAt (reader_fault result) reader.old reader.new }
    ensures memory { IfErr result IsNotMemory }
{
    let count = natural_at(reader, at)?;
    let size = natural_at(reader, count.1)?;
    judge(reader.length(), at, count, size)
}

/// Judges a count at a place and the size behind it, each with the place behind it, in a file of so
/// many bytes.
fn judge<F>(
    bytes: u64,
    at: u64,
    count: (u64, u64),
    size: (u64, u64),
) -> Result<BlockHead, ContainerFault<F>>
    requires first { at ≤ count.1 }
    requires second { count.1 ≤ size.1 }
    requires third { size.1 ≤ bytes }
    ensures gives { (file : List ℕ) → length file ≡ bytes → Gives (head_of file) result (head_from
        (length file) (drop at file) (drop count.1 file) count.0 (size.0, drop size.1 file)) }
    ensures within { IfOk result (IsWithin bytes at) }
    ensures place { IfOk result (λ h. h.place ≡ size.1) }
    ensures answers { reader_fault result ≡ None }
    ensures memory { IfErr result IsNotMemory }
{
    let place = size.1;
    let (count, behind) = count;
    let size = size.0;
    if size > MAX_BLOCK {
        return Err(ContainerFault::Large {
            what: Limited::Block,
            place: behind,
            size,
        });
    }
    if size < count {
        return Err(refuse(at, AvroCause::Count));
    }
    if bytes - place < size + 16 {
        return Err(refuse(behind, AvroCause::End));
    }
    Ok(BlockHead { count, size, place })
}

/// So many bytes from a place on.
pub(crate) fn part_at<R: ReadAt>(
    alloc: Global,
    reader: &mut R,
    at: u64,
    size: u64,
) -> Result<Octets, ContainerFault<R::Fault>>
    requires { at + size ≤ R.size reader.old }
    ensures size { IfOk result (λ part. length part ≡ size) }
    ensures bytes { IfOk result (λ part. (known : List (Option ℕ)) → R.content reader.old known
        → HasPart known at part) }
    ensures refused { IfErr result SaysNothing }
    ensures reader { ReadsOnly R.ReadAt (reader_fault result) reader.old reader.new }
{
    let mut bytes = vec![in alloc; 0; size as usize]?;
    read(reader, at, bytes.as_mut_slice())?;
    Ok(Octets::from_vec(bytes))
}
