//! A stream over an object of a store.

ghost use Rattle.std.specs.Prelude.{◌≡◌, ◌≤◌, ◌<◌, ◌+◌, ◌-◌, ◌*◌, ◌^◌, ℕ, length, Err, None, IfErr, IfOk, IfSome, Some, drop, slice_range, take};
ghost use Rattle.icb_base.specs.Calls.{ReadsPath};
ghost use Rattle.icb_base.specs.Objects.{object_at, part_of};
ghost use Rattle.icb_seal.specs.Block.{opened_block};
ghost use Rattle.icb_stream.specs.Asking.{asked_bytes, asked_calls, held_after, number_held, opening_bytes};
ghost use Rattle.icb_stream.specs.Belongs.{BelongsTo};
ghost use Rattle.icb_stream.specs.Cut.{block_count, block_size, block_start, part_size};
ghost use Rattle.icb_stream.specs.Layout.{blocks, plain_length};
ghost use Rattle.icb_stream.specs.Opening.{layout_of};
ghost use Rattle.icb_stream.specs.Progress.{Loads, OpensTo, ReadsPart, with_block, with_part};
ghost use Rattle.icb_stream.specs.Reading.{AfterRead, IsReadFault, IsZeroOrKnown, Opens, ReadsSlice};

use crate::cut::Cut;
use crate::fault::StreamFault;
use crate::opening::{check_size, fill_from, read_cut};
use icb_base::{KeyMeta, ObjPath, Store};
use icb_seal::Opener;
use std::alloc::Global;
use std::marker::Model;

/// The bytes of a nonce.
const NONCE: usize = 12;

/// The bytes of a tag.
const TAG: usize = 16;

/// A stream over an object of a store, of which block 0 opened. It holds one block, which takes no
/// call of the store to be read again.
#[derive(Drop)]
pub struct Stream {
    path: ObjPath,
    opener: Opener,
    cut: Cut,
    /// Room for the largest cipher block.
    room: Vec<u8>,
    /// The number of the block that lies in the room, opened.
    held: Option<u32>,
}

impl Model for Stream {
    ghost use Rattle.std.specs.Prelude.{◌≡◌, ◌+◌, ◌-◌, ◌<◌, min, length, take, drop, option_map, IfSome};
    ghost use Rattle.icb_stream.specs.Belongs.{StreamValue};
    ghost use Rattle.icb_stream.specs.Cut.{block_count, part_size};

    ghost Value = { StreamValue };

    ghost view = { λ s. record {
      path = s.path;
      layout = record {
        key = s.opener.key;
        prefix = s.opener.prefix;
        recorded = s.cut.recorded;
        block_length = s.cut.block_length;
      };
      block = option_map (λ i. record {
        number = i;
        part = take (part_size s.cut.block_length s.cut.recorded i) (drop 12 s.room.items);
      }) s.held;
    } };

    ghost invariant = { λ s.
        (length s.room.items ≡ min (s.cut.block_length + 28) (s.cut.recorded - 8))
        × IfSome s.held (λ i. i < block_count s.cut.block_length s.cut.recorded) };
}

impl Stream {
    /// Opens the stream at a path, of which the first `length` bytes are read. It asks the store
    /// for the object's size, for the header, and for block 0, which it then holds.
    pub fn open<S: Store>(
        alloc: Global,
        store: &mut S,
        path: &ObjPath,
        meta: &KeyMeta,
        length: u64,
    ) -> Result<Stream, StreamFault>
        ensures opens { IfSome (S.held store.old) (λ files.
            Opens files path.now meta.now length result) }
        ensures too_short { length < 36
            → (result ≡ Err (StreamFault.BadLength length)) × (store.new ≡ store.old) }
        ensures layout { IfOk result (λ stream. (stream.path ≡ path.now)
            × (stream.layout ≡ layout_of meta.now length stream.layout.block_length)) }
        ensures holds { IfOk result (λ stream. number_held stream.block ≡ Some 0) }
        ensures reads { ReadsPath S.Store path.now 3
            (opening_bytes (S.held store.old) path.now length)
            (result ≡ Err StreamFault.Store) store.old store.new }
    {
        if length < 36 {
            return Err(StreamFault::BadLength { length });
        }
        check_size(store, path, length)?;
        let cut = read_cut(store, path, length)?;
        let mut stream = Stream::unread(alloc, path, meta, cut)?;
        stream.load(store, 0)?;
        Ok(stream)
    }

    /// A stream of this cut that holds no block yet.
    fn unread(
        alloc: Global,
        path: &ObjPath,
        meta: &KeyMeta,
        cut: Cut,
    ) -> Result<Stream, StreamFault>
        ensures stream { IfOk result (λ stream. stream ≡ record {
          path = path.now;
          layout = layout_of meta.now cut.recorded cut.block_length;
          block = None;
        }) }
        ensures fault { IfErr result (λ fault. fault ≡ StreamFault.NoMemory) }
    {
        let Ok(path) = path.copy(alloc) else {
            return Err(StreamFault::NoMemory);
        };
        let Ok(opener) = Opener::new(alloc, meta) else {
            return Err(StreamFault::NoMemory);
        };
        let Ok(room) = vec![in alloc; 0; cut.largest() as usize] else {
            return Err(StreamFault::NoMemory);
        };
        Ok(Stream {
            path,
            opener,
            cut,
            room,
            held: None,
        })
    }

    /// How many bytes of plaintext the stream has.
    pub fn plain_length(&self) -> u64
        ensures { result ≡ plain_length self.now.layout }
    {
        self.cut.plain_length()
    }

    /// How many bytes of plaintext each block but the last has, 1 to 16,777,216.
    pub fn block_length(&self) -> u32
        ensures block_length { result ≡ self.now.layout.block_length }
        ensures some { 1 ≤ result }
        ensures most { result ≤ 2 ^ 24 }
    {
        self.cut.block_length
    }

    /// Fills `out` with the plaintext from the place `at` on. It asks the store once for each block
    /// that the range touches, but not for the block that it holds, and takes no memory. After
    /// `Block` the places before that block have their bytes, and after any refusal it holds no
    /// block.
    pub fn read_at<S: Store>(
        &mut self,
        store: &mut S,
        at: u64,
        out: &mut [u8],
    ) -> Result<(), StreamFault>
        requires { at + length out.old ≤ plain_length self.old.layout }
        ensures slice { IfSome (S.held store.old) (λ files. (belongs : BelongsTo self.old files)
            → ReadsSlice belongs.object self.old.layout at out.new result) }
        ensures only_known { IfSome (S.held store.old) (λ files.
            (belongs : BelongsTo self.old files)
            → IsZeroOrKnown belongs.object self.old.layout at out.new) }
        ensures belongs { IfSome (S.held store.old) (λ files.
            BelongsTo self.old files → BelongsTo self.new files) }
        ensures after { AfterRead self.old self.new
            (held_after self.old at (length out.old)) result }
        ensures reads { ReadsPath S.Store self.old.path (asked_calls self.old at (length out.old))
            (asked_bytes self.old at (length out.old)) (result ≡ Err StreamFault.Store)
            store.old store.new }
    {
        out.fill(0);
        if out.is_empty() {
            return Ok(());
        }
        let first = self.cut.block_of_place(at);
        let end = self.cut.touched_end(at + out.len() as u64);
        // The held block is copied before another one takes its room.
        let held = self.held;
        self.copy_block(at, out);
        for number in first..end {
            if held == Some(number) {
                continue;
            }
            self.read_block(store, number, at, out)?;
        }
        Ok(())
    }

    /// Reads a block and copies those of its bytes that lie in the range of `out` into their
    /// places.
    fn read_block<S: Store>(
        &mut self,
        store: &mut S,
        number: u32,
        at: u64,
        out: &mut [u8],
    ) -> Result<(), StreamFault>
        requires { number < blocks self.old.layout }
        ensures part { IfSome (S.held store.old) (λ files. IfSome (object_at files self.old.path)
            (λ object. self.old.layout.recorded ≤ length object
            → ReadsPart object self.old.layout number at out.old out.new result)) }
        ensures loads { IfSome (S.held store.old) (λ files. IfSome (object_at files self.old.path)
            (λ object. self.old.layout.recorded ≤ length object
            → Loads object self.old.layout number self.new.block result)) }
        ensures after { AfterRead self.old self.new (Some number) result }
        ensures reads { ReadsPath S.Store self.old.path 1
            (block_size self.old.layout.block_length self.old.layout.recorded number)
            (result ≡ Err StreamFault.Store) store.old store.new }
    {
        self.load(store, number)?;
        self.copy_block(at, out);
        Ok(())
    }

    /// Reads a block from the store into the room and opens it there.
    fn load<S: Store>(&mut self, store: &mut S, number: u32) -> Result<(), StreamFault>
        requires { number < blocks self.old.layout }
        ensures loads { IfSome (S.held store.old) (λ files. IfSome (object_at files self.old.path)
            (λ object. self.old.layout.recorded ≤ length object
            → Loads object self.old.layout number self.new.block result)) }
        ensures after { AfterRead self.old self.new (Some number) result }
        ensures reads { ReadsPath S.Store self.old.path 1
            (block_size self.old.layout.block_length self.old.layout.recorded number)
            (result ≡ Err StreamFault.Store) store.old store.new }
    {
        self.held = None;
        let room = self.room.as_mut_slice();
        open_in(&mut self.opener, store, &self.path, &self.cut, number, room)?;
        self.held = Some(number);
        Ok(())
    }

    /// Copies those bytes of the held block, if any, that lie in the range of `out` into their
    /// places.
    fn copy_block(&self, at: u64, out: &mut [u8])
        ensures { out.new ≡ with_block self.now.block self.now.layout.block_length at out.old }
    {
        let Some(number) = self.held else {
            return;
        };
        let end = self.cut.size(number) as usize - TAG;
        let first = number as u64 * self.cut.block_length as u64;
        copy_part(&self.room[NONCE..end], first, at, out);
    }
}

/// Reads a cipher block into the front of this room and opens it there; its plaintext then begins
/// behind the nonce.
fn open_in<S: Store>(
    opener: &mut Opener,
    store: &mut S,
    path: &ObjPath,
    cut: &Cut,
    number: u32,
    room: &mut [u8],
) -> Result<(), StreamFault>
    requires number { number < block_count cut.now.block_length cut.now.recorded }
    requires room { block_size cut.now.block_length cut.now.recorded number ≤ length room.old }
    ensures opens { IfSome (S.held store.old) (λ files. IfSome (object_at files path.now)
        (λ object. cut.now.recorded ≤ length object → OpensTo
        (opened_block opener.old.key opener.old.prefix number
        (part_of (block_start cut.now.block_length number)
        (block_size cut.now.block_length cut.now.recorded number) object)) number
        (take (part_size cut.now.block_length cut.now.recorded number) (drop 12 room.new))
        result)) }
    ensures fault { IfErr result IsReadFault }
    ensures same { opener.new ≡ opener.old }
    ensures reads { ReadsPath S.Store path.now 1
        (block_size cut.now.block_length cut.now.recorded number)
        (result ≡ Err StreamFault.Store) store.old store.new }
{
    let start = cut.start(number);
    let size = cut.size(number) as usize;
    open_at(opener, store, path, number, start, &mut room[..size])
}

/// Reads the cipher block that begins at this place of an object, and opens it in place.
fn open_at<S: Store>(
    opener: &mut Opener,
    store: &mut S,
    path: &ObjPath,
    number: u32,
    start: u64,
    block: &mut [u8],
) -> Result<(), StreamFault>
    requires nonce_and_tag { 28 ≤ length block.old }
    requires small { length block.old ≤ 16777244 }
    ensures opens { IfSome (S.held store.old) (λ files. IfSome (object_at files path.now)
        (λ object. start + length block.old ≤ length object → OpensTo
        (opened_block opener.old.key opener.old.prefix number
        (part_of start (length block.old) object))
        number (slice_range block.new 12 (length block.old - 16)) result)) }
    ensures fault { IfErr result IsReadFault }
    ensures same { opener.new ≡ opener.old }
    ensures reads { ReadsPath S.Store path.now 1 (length block.old)
        (result ≡ Err StreamFault.Store) store.old store.new }
{
    fill_from(store, path, start, block)?;
    if opener.open_block(number, block).is_err() {
        return Err(StreamFault::Block { number });
    }
    Ok(())
}

/// Copies those bytes of a part that lie in the range of `out`, which begins at the place `at`,
/// into their places; the part's first byte has the place `first`.
fn copy_part(plain: &[u8], first: u64, at: u64, out: &mut [u8])
    ensures { out.new ≡ with_part plain.now first at out.old }
{
    let skipped = at.saturating_sub(first).min(plain.len() as u64) as usize;
    let done = first.saturating_sub(at).min(out.len() as u64) as usize;
    let count = (plain.len() - skipped).min(out.len() - done);
    out[done..done + count].copy_from_slice(&plain[skipped..skipped + count]);
}
