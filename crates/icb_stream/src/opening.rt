//! Reading an object of a store: its size, its bytes from a place on, and the header of a stream.

ghost use Rattle.std.specs.Prelude.{◌≡◌, ◌≤◌, ◌<◌, ◌+◌, Ok, Err, length, take, IfOk, IfErr, IfSome, IsSomeAnd, MatchResult, bytes_eq, ◌≢◌};
ghost use Rattle.icb_base.specs.Calls.{ReadsPath};
ghost use Rattle.icb_base.specs.Objects.{object_at};
ghost use Rattle.icb_stream.specs.Opening.{block_length_in, header_of, magic};
ghost use Rattle.icb_stream.specs.Progress.{FillsFrom};
ghost use Rattle.icb_stream.specs.Reading.{IsHeaderRefusal, IsReadFault, IsUnfetched};

use crate::cut::{Cut, is_block_length};
use crate::fault::StreamFault;
use icb_base::{Failed, ObjPath, Store};

/// The first four bytes of a stream.
pub(crate) const MAGIC: [u8; 4] = [0x41, 0x47, 0x53, 0x31];

/// Refuses an object that isn't held or has fewer bytes than the recorded length.
pub(crate) fn check_size<S: Store>(
    store: &mut S,
    path: &ObjPath,
    recorded: u64,
) -> Result<(), StreamFault>
    ensures size { IfSome (S.held store.old) (λ files. MatchResult result
        (λ _. IsSomeAnd (object_at files path.now) (λ bytes. recorded ≤ length bytes))
        (IsUnfetched (object_at files path.now) recorded)) }
    ensures reads { ReadsPath S.Store path.now 1 0 (result ≡ Err StreamFault.Store)
        store.old store.new }
{
    match store.size(path) {
        Err(Failed) => Err(StreamFault::Store),
        Ok(None) => Err(StreamFault::Missing),
        Ok(Some(size)) if size < recorded => Err(StreamFault::Short { size }),
        Ok(Some(_)) => Ok(()),
    }
}

/// Fills `out` with the bytes of an object from the place `at` on.
pub(crate) fn fill_from<S: Store>(
    store: &mut S,
    path: &ObjPath,
    at: u64,
    out: &mut [u8],
) -> Result<(), StreamFault>
    ensures filled { IfSome (S.held store.old) (λ files. IfSome (object_at files path.now)
        (λ object. at + length out.old ≤ length object → FillsFrom object at out.new result)) }
    ensures fault { IfErr result IsReadFault }
    ensures reads { ReadsPath S.Store path.now 1 (length out.old) (result ≡ Err StreamFault.Store)
        store.old store.new }
{
    match store.read_at(path, at, out) {
        Err(Failed) => Err(StreamFault::Store),
        Ok(None) => Err(StreamFault::Missing),
        Ok(Some(count)) if count < out.len() => Err(StreamFault::Short {
            size: at.saturating_add(count as u64),
        }),
        Ok(Some(_)) => Ok(()),
    }
}

/// The cut that the header of an object says, which is to be read up to the recorded length.
pub(crate) fn read_cut<S: Store>(
    store: &mut S,
    path: &ObjPath,
    recorded: u64,
) -> Result<Cut, StreamFault>
    requires { 36 ≤ recorded }
    ensures header { IfSome (S.held store.old) (λ files. IfSome (object_at files path.now)
        (λ object. recorded ≤ length object → MatchResult result
        (λ cut. header_of object recorded ≡ Ok cut.block_length)
        (IsHeaderRefusal object recorded))) }
    ensures recorded { IfOk result (λ cut. cut.recorded ≡ recorded) }
    ensures reads { ReadsPath S.Store path.now 1 8 (result ≡ Err StreamFault.Store)
        store.old store.new }
{
    let mut header = [0; 8];
    fill_from(store, path, 0, &mut header)?;
    cut_of(&header, recorded)
}

/// The cut that this header says of a file of the recorded length.
#[tactic(auto, unfolding(crate::specs::Opening::header_of))]
fn cut_of(header: &[u8], recorded: u64) -> Result<Cut, StreamFault>
    requires room { 8 ≤ length header.now }
    requires long { 36 ≤ recorded }
    ensures header { MatchResult result
        (λ cut. (header_of header.now recorded ≡ Ok cut.block_length) × (cut.recorded ≡ recorded))
        (λ fault. header_of header.now recorded ≡ Err fault) }
    ensures store_never { result ≢ Err StreamFault.Store }
{
    if !has_magic(header) {
        let found = first_bytes(header);
        return Err(StreamFault::Magic { found });
    }
    let found = block_length_in(header);
    if !is_block_length(found) {
        return Err(StreamFault::BlockLength { found });
    }
    match Cut::new(found, recorded) {
        Some(cut) => Ok(cut),
        None => Err(StreamFault::BadLength { length: recorded }),
    }
}

/// The first four bytes of a file.
fn first_bytes(bytes: &[u8]) -> [u8; 4]
    requires { 4 ≤ length bytes.now }
    ensures { result ≡ take 4 bytes.now }
{
    let mut found = [0; 4];
    found.copy_from_slice(&bytes[..4]);
    found
}

/// Whether a file begins as a stream does.
fn has_magic(bytes: &[u8]) -> bool
    requires { 4 ≤ length bytes.now }
    ensures { result ≡ bytes_eq (take 4 bytes.now) magic }
{
    &bytes[..4] == MAGIC.as_slice()
}

/// The block length that a file's header says.
#[tactic(auto, unfolding(crate::specs::Opening::block_length_in))]
fn block_length_in(bytes: &[u8]) -> u32
    requires { 8 ≤ length bytes.now }
    ensures { result ≡ block_length_in bytes.now }
{
    let mut found = [0; 4];
    found.copy_from_slice(&bytes[4..8]);
    u32::from_le_bytes(found)
}
