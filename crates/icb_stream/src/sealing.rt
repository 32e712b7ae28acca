//! Writing the stream of a plaintext, block by block.

ghost use Rattle.std.specs.Prelude.{◌≡◌, ◌+◌, ◌-◌, ◌*◌, ◌^◌, ◌<◌, ◌≤◌, ◌++◌, length, min, take, slice_range, IfOk, Some};
ghost use Rattle.icb_stream.specs.Sealing.{IsSealable, IsSealedUpTo, IsStreamOf, header, sealed_blocks, sealed_count, stream_bytes, stream_length};

use crate::cut::{HEADER_LENGTH, OVERHEAD};
use crate::opening::MAGIC;
use icb_base::{Bytes, KeyMeta, NoMemory};
use icb_seal::{FileKey, Sealer};
use std::alloc::Global;

/// The bytes of the magic and the block length.
const HEADER: usize = HEADER_LENGTH as usize;

/// The bytes of a nonce and a tag.
const NONCE_AND_TAG: usize = OVERHEAD as usize;

/// How many blocks a plaintext of so many bytes has: one where it is empty.
fn sealed_count(plain: u64, block: u32) -> u32
    requires some { 1 ≤ block }
    requires fits { plain ≤ block * 2 ^ 31 }
    ensures { result ≡ sealed_count plain block }
{
    plain.div_ceil(block as u64).max(1) as u32
}

/// How many bytes the stream of so many bytes of plaintext has, in blocks of `block` bytes of
/// plaintext.
pub fn stream_length(plain: u64, block: u32) -> u64
    requires some { 1 ≤ block }
    requires most { block ≤ 2 ^ 24 }
    requires fits { plain ≤ block * 2 ^ 31 }
    ensures { result ≡ stream_length plain block }
{
    HEADER_LENGTH + plain + OVERHEAD * sealed_count(plain, block) as u64
}

/// The stream of a plaintext in blocks of `block` bytes, and its key metadata. The key is spent,
/// also where no memory is left.
pub fn seal_stream(
    alloc: Global,
    key: FileKey,
    prefix: &[u8],
    block: u32,
    plain: &[u8],
) -> Result<(Bytes, KeyMeta), NoMemory>
    requires some { 1 ≤ block }
    requires most { block ≤ 2 ^ 24 }
    requires fits { length plain.now ≤ block * 2 ^ 31 }
    ensures bytes { IfOk result (λ sealed.
        stream_bytes key.key prefix.now key.seed block plain.now ≡ Some sealed.0) }
    ensures meta { IfOk result (λ sealed. sealed.1 ≡ record {
      key = key.key;
      prefix = Some prefix.now;
      length_told = Some (length sealed.0);
    }) }
    ensures stream { IfOk result (λ sealed. IsStreamOf sealed.1 plain.now block sealed.0) }
{
    let mut sealer = match key.into_sealer(alloc, prefix) {
        Ok(sealer) => sealer,
        Err((key, NoMemory)) => {
            key.abandon();
            return Err(NoMemory);
        }
    };
    let length = stream_length(plain.len() as u64, block);
    let Ok(mut bytes) = vec![in alloc; 0; length as usize] else {
        sealer.abandon();
        return Err(NoMemory);
    };
    write_stream(&mut sealer, block, plain, bytes.as_mut_slice());
    let meta = sealer.finish(length);
    Ok((Bytes::from_vec(bytes), meta))
}

/// Writes the header, and then all blocks.
fn write_stream(sealer: &mut Sealer, block: u32, plain: &[u8], bytes: &mut [u8])
    requires sizes { IsSealable (length plain.now) block }
    requires seed { length sealer.old.seed ≡ 8 }
    requires first { sealer.old.next ≡ 0 }
    requires room { length bytes.old ≡ stream_length (length plain.now) block }
    ensures bytes { stream_bytes sealer.old.key sealer.old.prefix sealer.old.seed block plain.now
        ≡ Some bytes.new }
    ensures same_file { sealer.new
        ≡ record sealer.old { next = sealed_count (length plain.now) block } }
{
    write_header(block, &mut bytes[..HEADER]);
    seal_blocks(sealer, block, plain, &mut bytes[HEADER..]);
}

/// Writes the magic and the block length.
fn write_header(block: u32, out: &mut [u8])
    requires { length out.old ≡ 8 }
    ensures { out.new ≡ header block }
{
    out[..4].copy_from_slice(&MAGIC);
    out[4..].copy_from_slice(&block.to_le_bytes());
}

/// Writes all blocks, one after another.
fn seal_blocks(sealer: &mut Sealer, block: u32, plain: &[u8], out: &mut [u8])
    requires sizes { IsSealable (length plain.now) block }
    requires seed { length sealer.old.seed ≡ 8 }
    requires first { sealer.old.next ≡ 0 }
    requires room { length out.old
        ≡ length plain.now + 28 * sealed_count (length plain.now) block }
    ensures blocks { sealed_blocks sealer.old.key sealer.old.prefix sealer.old.seed block plain.now
        (sealed_count (length plain.now) block) ≡ Some out.new }
    ensures same_file { sealer.new
        ≡ record sealer.old { next = sealed_count (length plain.now) block } }
{
    let count = sealed_count(plain.len() as u64, block);
    'pieces: for _ in 0..count {
        seal_piece(sealer, block, plain, out);
    }
}

/// Writes the block that comes next into its place.
fn seal_piece(sealer: &mut Sealer, block: u32, plain: &[u8], out: &mut [u8])
    requires sizes { IsSealable (length plain.now) block }
    requires seed { length sealer.old.seed ≡ 8 }
    requires next { sealer.old.next < sealed_count (length plain.now) block }
    requires room { length out.old
        ≡ length plain.now + 28 * sealed_count (length plain.now) block }
    requires before { IsSealedUpTo sealer.old block plain.now out.old }
    ensures up_to_next { IsSealedUpTo sealer.new block plain.now out.new }
    ensures rises { sealer.new ≡ record sealer.old { next = sealer.old.next + 1 } }
{
    let number = sealer.next() as usize;
    let from = number * block as usize;
    let to = plain.len().min(from + block as usize);
    let start = from + NONCE_AND_TAG * number;
    let end = to + NONCE_AND_TAG * (number + 1);
    sealer.seal_block(&plain[from..to], &mut out[start..end]);
}
