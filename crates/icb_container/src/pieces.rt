//! Parts of a header, which are read in short pieces.
ghost use Rattle.std.specs.Prelude.{◌≡◌, ◌≤◌, ◌<◌, ◌+◌, ◌^◌, ◌++◌, List, ℕ, Option, length, IfErr, IfOk, OnOk};
ghost use Rattle.icb_base.specs.Contents.{HasPart};
ghost use Rattle.icb_container.specs.Items.{SaysNothing};
ghost use Rattle.icb_container.specs.Known.{ReadsOnly, reader_fault};

use crate::fault::ContainerFault;
use crate::numbers::read;
use icb_base::ReadAt;
use icb_schema::Octets;
use std::alloc::Global;

/// No piece is longer.
const PIECE: usize = 64;

/// So many bytes from a place on. Memory is taken as they come.
pub(crate) fn pieces_at<R: ReadAt>(
    alloc: Global,
    reader: &mut R,
    at: u64,
    size: u64,
) -> Result<Octets, ContainerFault<R::Fault>>
    requires in_file { at + size ≤ R.size reader.old }
    requires fits { at + size < 2 ^ 64 }
    ensures size { IfOk result (λ part. length part ≡ size) }
    ensures bytes { IfOk result (λ part. (known : List (Option ℕ)) → R.content reader.old known
        → HasPart known at part) }
    ensures refused { IfErr result SaysNothing }
    ensures reader { ReadsOnly R.ReadAt (reader_fault result) reader.old reader.new }
{
    let mut bytes = Octets::new(alloc);
    let mut left = size;
    while left > 0 {
        let count = left.min(PIECE as u64);
        append(reader, at + (size - left), count as usize, &mut bytes)?;
        left -= count;
    }
    Ok(bytes)
}

/// Puts a piece from a place on behind other bytes.
fn append<R: ReadAt>(
    reader: &mut R,
    at: u64,
    count: usize,
    bytes: &mut Octets,
) -> Result<(), ContainerFault<R::Fault>>
    requires short { count ≤ 64 }
    requires in_file { at + count ≤ R.size reader.old }
    ensures bytes { OnOk result ((part : List ℕ) × (length part ≡ count)
        × (bytes.new ≡ bytes.old ++ part)
        × ((known : List (Option ℕ)) → R.content reader.old known → HasPart known at part)) }
    ensures refused { IfErr result SaysNothing }
    ensures reader { ReadsOnly R.ReadAt (reader_fault result) reader.old reader.new }
{
    let mut buffer = [0; PIECE];
    let piece = &mut buffer[..count];
    read(reader, at, piece)?;
    bytes.extend_from_slice(piece)?;
    Ok(())
}
