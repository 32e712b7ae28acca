//! The command `cat-file`: the plaintext of one encrypted file, piece by piece.
ghost use Rattle.std.specs.Prelude.{◌≡◌, ◌≢◌, ◌↔◌, ◌≤◌, ◌<◌, ◌+◌, ◌-◌, take, IfSome, IsErr, length};
ghost use Rattle.icb_base.specs.Calls.{WritesText};
ghost use Rattle.icb_base.specs.Causes.{Blames};
ghost use Rattle.icb_stream.specs.Belongs.{BelongsTo};
ghost use Rattle.icb_stream.specs.Content.{front_at};
ghost use Rattle.icb_stream.specs.Layout.{plain_length};
ghost use Rattle.icb_run.specs.Answers.{Gives};
ghost use Rattle.icb_run.specs.CatFile.{IsCatFile, cat_file_answer, front_answer, held_object, slice_length, slice_start, status_of_fault};
ghost use Rattle.icb_run.specs.Copying.{EndsCopy, OnlyReads, WritesBefore, status_of_copy};
ghost use Rattle.icb_run.specs.Outside.{Does};
ghost use Rattle.icb_run.specs.Sources.{AreUnread};

use crate::outside::Parts;
use crate::status::{HeaderFault, Status};
use icb_base::{Draws, Failed, ObjPath, Sink, Source, Store};
use icb_stream::{Stream, StreamFault};
use icb_words::CatFile;
use std::alloc::Global;

/// Why a plaintext isn't written to its end.
#[derive(Clone, Copy, Debug, PartialEq, Eq)]
enum CopyFault {
    /// The stream isn't opened or read.
    Stream(StreamFault),
    /// A write of the output failed.
    Output,
    /// No memory was left.
    NoMemory,
}

/// Writes the opened parts of the slice in order, up to the first block that doesn't open.
pub fn cat_file<S: Store, G: Store, I: Source, K: Source, M: Source, D: Draws, O: Sink>(
    alloc: Global,
    words: CatFile,
    outside: &mut Parts<'_, '_, '_, '_, '_, '_, '_, S, G, I, K, M, D, O>,
) -> Status
    ensures { Does S.Store G.Store I.Source K.Source M.Source D.Draws O.Sink
        (IsCatFile words) AreUnread outside.old outside.new result }
{
    write_slice(alloc, words, outside.table, outside.out)
}

/// Writes the opened parts of the slice, and gives the status.
fn write_slice<S: Store, O: Sink>(
    alloc: Global,
    words: CatFile,
    table: &mut S,
    out: &mut O,
) -> Status
    ensures gives { IfSome (S.held table.old) (λ files. Gives (cat_file_answer files words)
        (O.written out.old) (O.written out.new) result) }
    ensures reads { OnlyReads S.Store (result ≡ Status.StoreFault) table.old table.new }
    ensures writes { Blames (result ≡ Status.OutputFault) (O.faults out.old) (O.faults out.new) }
    ensures no_input { result ≢ Status.InputFault }
    ensures no_random { result ≢ Status.RandomFault }
{
    match copy_plaintext(alloc, &words, table, out) {
        Ok(()) => Status::Ok,
        Err(CopyFault::Stream(fault)) => {
            let CatFile { path, .. } = words;
            stream_status(path, fault)
        }
        Err(CopyFault::Output) => Status::OutputFault,
        Err(CopyFault::NoMemory) => Status::NoMemory,
    }
}

/// The status of a stream's fault.
fn stream_status(path: ObjPath, fault: StreamFault) -> Status
    ensures status { result ≡ status_of_fault path fault }
    ensures store { (result ≡ Status.StoreFault) ↔ (fault ≡ StreamFault.Store) }
    ensures no_output { result ≢ Status.OutputFault }
    ensures no_input { result ≢ Status.InputFault }
    ensures no_random { result ≢ Status.RandomFault }
{
    match fault {
        StreamFault::BadLength { length } => Status::Header {
            path,
            fault: HeaderFault::BadLength { length },
        },
        StreamFault::Store => Status::StoreFault,
        StreamFault::Missing => Status::Missing { path },
        StreamFault::Short { size } => Status::Short { path, size },
        StreamFault::Magic { found } => Status::Header {
            path,
            fault: HeaderFault::Magic { found },
        },
        StreamFault::BlockLength { found } => Status::Header {
            path,
            fault: HeaderFault::BlockLength { found },
        },
        StreamFault::NoMemory => Status::NoMemory,
        StreamFault::Block { number } => Status::Block { path, number },
    }
}

/// Opens the file, and writes the opened parts of its slice.
fn copy_plaintext<S: Store, O: Sink>(
    alloc: Global,
    words: &CatFile,
    table: &mut S,
    out: &mut O,
) -> Result<(), CopyFault>
    ensures gives { IfSome (S.held table.old) (λ files. Gives (cat_file_answer files words.now)
        (O.written out.old) (O.written out.new) (status_of_copy words.now.path result)) }
    ensures reads { OnlyReads S.Store (result ≡ Err (CopyFault.Stream StreamFault.Store))
        table.old table.new }
    ensures writes { Blames (result ≡ Err CopyFault.Output)
        (O.faults out.old) (O.faults out.new) }
{
    let mut stream = match Stream::open(alloc, table, &words.path, &words.meta, words.file_length) {
        Ok(stream) => stream,
        Err(fault) => return Err(CopyFault::Stream(fault)),
    };
    let (start, end) = slice_of(words, stream.plain_length());
    let room = (end - start).min(u64::from(stream.block_length()));
    let Ok(mut buffer) = vec![in alloc; 0; room as usize] else {
        return Err(CopyFault::NoMemory);
    };
    copy_pieces(&mut stream, table, start, end, buffer.as_mut_slice(), out)
}

/// Where the slice begins and where it ends in a plaintext of this length.
fn slice_of(words: &CatFile, plain_length: u64) -> (u64, u64)
    ensures begins { result.0 ≡ slice_start words.now plain_length }
    ensures counts { result.1 - result.0 ≡ slice_length words.now plain_length }
    ensures ordered { result.0 ≤ result.1 }
    ensures inside { result.1 ≤ plain_length }
{
    let start = words.skip.min(plain_length);
    let count = words.take.unwrap_or(plain_length).min(plain_length - start);
    (start, start + count)
}

/// Writes the plaintext from `start` to `end` piece by piece. Each piece ends at the end of a block if
/// it can, so that no block is opened twice.
fn copy_pieces<S: Store, O: Sink>(
    stream: &mut Stream,
    table: &mut S,
    start: u64,
    end: u64,
    buffer: &mut [u8],
    out: &mut O,
) -> Result<(), CopyFault>
    requires range { (start ≤ end) × (end ≤ plain_length stream.old.layout) }
    requires room { start < end → 1 ≤ length buffer.old }
    ensures gives { IfSome (S.held table.old) (λ files. BelongsTo stream.old files
        → Gives (front_answer stream.old.path
        (front_at (held_object files stream.old.path) stream.old.layout start (end - start)))
        (O.written out.old) (O.written out.new) (status_of_copy stream.old.path result)) }
    ensures reads { OnlyReads S.Store (result ≡ Err (CopyFault.Stream StreamFault.Store))
        table.old table.new }
    ensures writes { Blames (result ≡ Err CopyFault.Output)
        (O.faults out.old) (O.faults out.new) }
{
    let block_length = u64::from(stream.block_length());
    let mut at = start;
    while at < end {
        let to_block_end = block_length - at % block_length;
        let piece = buffer.len().min(to_block_end.min(end - at) as usize);
        copy_piece(stream, table, at, &mut buffer[..piece], out)?;
        at += piece as u64;
    }
    Ok(())
}

/// Reads one piece of the plaintext and writes what was opened of it.
fn copy_piece<S: Store, O: Sink>(
    stream: &mut Stream,
    table: &mut S,
    at: u64,
    piece: &mut [u8],
    out: &mut O,
) -> Result<(), CopyFault>
    requires { at + length piece.old ≤ plain_length stream.old.layout }
    ensures gives { IfSome (S.held table.old) (λ files. BelongsTo stream.old files
        → Gives (front_answer stream.old.path
        (front_at (held_object files stream.old.path) stream.old.layout at (length piece.old)))
        (O.written out.old) (O.written out.new) (status_of_copy stream.old.path result)) }
    ensures belongs { IfSome (S.held table.old) (λ files.
        BelongsTo stream.old files → BelongsTo stream.new files) }
    ensures same_layout { stream.new.layout ≡ stream.old.layout }
    ensures same_path { stream.new.path ≡ stream.old.path }
    ensures reads { OnlyReads S.Store (result ≡ Err (CopyFault.Stream StreamFault.Store))
        table.old table.new }
    ensures writes { Blames (result ≡ Err CopyFault.Output)
        (O.faults out.old) (O.faults out.new) }
{
    if let Err(fault) = stream.read_at(table, at, piece) {
        return Err(end_copy(fault, stream.block_length(), at, piece, out));
    }
    match write_piece(piece, out) {
        Ok(()) => Ok(()),
        Err(Failed) => Err(CopyFault::Output),
    }
}

/// Ends copying at a fault of the stream, after the bytes before a block that is refused are written.
fn end_copy<O: Sink>(
    fault: StreamFault,
    block_length: u32,
    at: u64,
    piece: &[u8],
    out: &mut O,
) -> CopyFault
    ensures ends { EndsCopy fault block_length at piece.now
        (O.written out.old) (O.written out.new) result }
    ensures writes { Blames (result ≡ CopyFault.Output) (O.faults out.old) (O.faults out.new) }
{
    match fault {
        StreamFault::Block { number } => {
            let start = u64::from(number) * u64::from(block_length);
            write_before(number, start.saturating_sub(at), piece, out)
        }
        _ => CopyFault::Stream(fault),
    }
}

/// Writes the first bytes of a piece, those before the block with this number, which is refused.
fn write_before<O: Sink>(number: u32, opened: u64, piece: &[u8], out: &mut O) -> CopyFault
    ensures written { WritesBefore number (take opened piece.now)
        (O.written out.old) (O.written out.new) result }
    ensures writes { Blames (result ≡ CopyFault.Output) (O.faults out.old) (O.faults out.new) }
{
    let opened = opened.min(piece.len() as u64) as usize;
    match write_piece(&piece[..opened], out) {
        Ok(()) => CopyFault::Stream(StreamFault::Block { number }),
        Err(Failed) => CopyFault::Output,
    }
}

/// Writes a piece, if it has a byte: an output that takes nothing isn't asked.
fn write_piece<O: Sink>(piece: &[u8], out: &mut O) -> Result<(), Failed>
    ensures { WritesText O.Sink piece.now (IsErr result) out.old out.new }
{
    if piece.is_empty() {
        return Ok(());
    }
    out.write(piece)
}
