//! A file's stream, sealed under a key of its own.
ghost use Rattle.std.specs.Prelude.{◌≡◌, ◌≤◌, ◌*◌, ◌^◌, Err, IfOk, Some, false, length, nat_le, true};
ghost use Rattle.icb_append.specs.Sealed.{Seals};
ghost use Rattle.icb_base.specs.Paths.{is_object_path};
ghost use Rattle.icb_stream.specs.Sealing.{IsStreamOf, stream_bytes};

use crate::fault::SealFault;
use icb_base::{Bytes, KeyMeta, ObjPath};
use icb_seal::FileKey;
use icb_stream::seal_stream;
use std::alloc::Global;

/// The most blocks of a stream.
const MOST_BLOCKS: u64 = 1 << 31;

/// The most bytes of a header.
pub(crate) const MOST_HEADER: usize = 1 << 24;

/// The most bytes of a manifest or a list: as many as one of its records may have.
const MOST_SHORT: usize = (1 << 27) - 65535;

/// The object of a file, and its key metadata.
#[derive(Drop)]
pub struct SealedData {
    /// The bytes that are put.
    pub object: Bytes,
    /// The key, the path and the length of the object.
    pub meta: KeyMeta,
}

/// The stream of a file, sealed under the key with its path in each block's additional data. It is refused
/// as `Limit` exactly where it would have too many blocks. The key is spent.
pub(crate) fn seal(
    alloc: Global,
    key: FileKey,
    path: &ObjPath,
    block: u32,
    plain: &[u8],
) -> Result<SealedData, SealFault>
    requires some { 1 ≤ block }
    requires most { block ≤ 2 ^ 24 }
    ensures bytes { IfOk result (λ sealed.
        stream_bytes key.key path.now key.seed block plain.now ≡ Some sealed.object) }
    ensures own { IfOk result (λ sealed. sealed.meta ≡ record {
      key = key.key;
      prefix = Some path.now;
      length_told = Some (length sealed.object);
    }) }
    ensures stream { IfOk result (λ sealed. IsStreamOf sealed.meta plain.now block sealed.object) }
    ensures is_path { IfOk result (λ _. is_object_path path.now ≡ true) }
    ensures passed { IfOk result (λ _. nat_le (length plain.now) (block * 2 ^ 31) ≡ true) }
    ensures refused { result ≡ Err SealFault.Limit
        → nat_le (length plain.now) (block * 2 ^ 31) ≡ false }
{
    if plain.len() as u64 > block as u64 * MOST_BLOCKS {
        key.abandon();
        return Err(SealFault::Limit);
    }
    match seal_stream(alloc, key, path.as_str().as_bytes(), block, plain) {
        Ok((object, meta)) => Ok(SealedData { object, meta }),
        Err(_) => Err(SealFault::NoMemory),
    }
}

/// The stream of a manifest or a list, sealed under the key with its path in each block's additional data. It
/// is refused as `Limit` exactly where it or its header is too long. The key is spent.
pub(crate) fn seal_short(
    alloc: Global,
    key: FileKey,
    path: &ObjPath,
    block: u32,
    header: &[u8],
    plain: &[u8],
) -> Result<SealedData, SealFault>
    requires some { 1 ≤ block }
    requires most { block ≤ 2 ^ 24 }
    ensures { Seals block path.now header.now plain.now key result }
{
    if header.len() > MOST_HEADER || plain.len() > MOST_SHORT {
        key.abandon();
        return Err(SealFault::Limit);
    }
    seal(alloc, key, path, block, plain)
}
