//! The command `seal-file`: the input is sealed under a key that is drawn, put into the table, and its
//! key metadata printed.
ghost use Rattle.std.specs.Prelude.{◌≡◌, ◌≤◌, ◌^◌, ◌++◌, length, string_bytes, IfOk};
ghost use Rattle.icb_seal.specs.Keys.{key_bytes};
ghost use Rattle.icb_run.specs.Outside.{Does};
ghost use Rattle.icb_run.specs.SealFile.{IsSealFile, IsSealed, meta_line, sealed_meta};
ghost use Rattle.icb_run.specs.Sources.{InputIsRead};

use crate::input::{INPUT_LIMIT, read_status, read_to_end};
use crate::metadata_line::metadata_line;
use crate::outside::Parts;
use crate::putting::put;
use crate::status::Status;
use icb_base::{Bytes, Draws, NoMemory, Sink, Source, Store};
use icb_seal::FileKey;
use icb_stream::seal_stream;
use icb_words::SealFile;
use std::alloc::Global;

/// A file that is sealed, and the line of its key metadata.
#[derive(Drop)]
struct Sealed {
    object: Bytes,
    line: String,
}

/// Reads the input to its end, draws a key, seals the input under it, puts the file, and prints its key
/// metadata. All memory is taken before the put, so that what can still fail is the output alone.
pub fn seal_file<S: Store, G: Store, I: Source, K: Source, M: Source, D: Draws, O: Sink>(
    alloc: Global,
    words: SealFile,
    outside: &mut Parts<'_, '_, '_, '_, '_, '_, '_, S, G, I, K, M, D, O>,
) -> Status
    requires some { 1 ≤ words.block }
    requires most { words.block ≤ 2 ^ 24 }
    ensures { Does S.Store G.Store I.Source K.Source M.Source D.Draws O.Sink
        (IsSealFile words) InputIsRead outside.old outside.new result }
{
    let text = match read_to_end(alloc, outside.input, INPUT_LIMIT as usize) {
        Ok(text) => text,
        Err(fault) => return read_status(fault),
    };
    let Ok(key) = FileKey::draw(outside.draws, words.key_size) else {
        return Status::RandomFault;
    };
    match seal(alloc, key, &words, text.as_slice()) {
        Ok(sealed) => put(
            sealed.object.as_slice(),
            sealed.line.as_str(),
            words.path,
            outside.table,
            outside.out,
        ),
        Err(NoMemory) => Status::NoMemory,
    }
}

/// Seals a text under the key and the prefix of the file's path. The key is spent.
fn seal(alloc: Global, key: FileKey, words: &SealFile, text: &[u8]) -> Result<Sealed, NoMemory>
    requires some { 1 ≤ words.now.block }
    requires most { words.now.block ≤ 2 ^ 24 }
    requires fits { length text.now ≤ 2 ^ 26 }
    requires key_length { length key.key ≡ key_bytes words.now.key_size }
    requires seed_length { length key.seed ≡ 8 }
    ensures sealed { IfOk result (λ sealed.
        IsSealed words.now (key.key ++ key.seed) text.now sealed.object) }
    ensures line { IfOk result (λ sealed. string_bytes sealed.line
        ≡ meta_line (sealed_meta words.now (key.key ++ key.seed) sealed.object)) }
{
    let prefix = words.path.as_str().as_bytes();
    let (object, meta) = seal_stream(alloc, key, prefix, words.block, text)?;
    let line = metadata_line(alloc, &meta)?;
    Ok(Sealed { object, line })
}
