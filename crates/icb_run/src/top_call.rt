//! The top call: words in, a command's work on the outside, its status, and the line on `err`.
ghost use Rattle.std.specs.Prelude.{◌≡◌, ◌<◌, ◌^◌, map, string_bytes, IfOk, OnErr};
ghost use Rattle.icb_run.specs.Commands.{Meets};
ghost use Rattle.icb_run.specs.Lines.{TellsNothing, WritesLine, TellsStatus};
ghost use Rattle.icb_run.specs.Outside.{Does, FaultsEnd, outside_of};
ghost use Rattle.icb_run.specs.Sources.{SourcesAreRead};
ghost use Rattle.icb_words.specs.Words.{command_of};

use crate::append::append_table;
use crate::cat_file::cat_file;
use crate::create::create_table;
use crate::listing::{Listing, list};
use crate::outside::Parts;
use crate::rotate::rotate_table;
use crate::scan::scan_table;
use crate::seal_file::seal_file;
use crate::status::Status;
use crate::texts::{HELP, VERSION, write_text};
use icb_base::{Draws, NoMemory, Sink, Source, Store};
use icb_words::{Command, WordFault, read_words};
use std::alloc::Global;

/// Runs the command that the words are.
///
/// A command reads and writes the table; `genuine` is the store that an audit compares with, `input`
/// what a command takes in, `keys` the keyring, `trusted` table metadata from elsewhere, `draws` random
/// bytes, and `now_ms` the time in milliseconds since 1970. A status other than Ok writes its line to
/// `err`, whose faults change nothing.
pub fn run<S: Store, G: Store, I: Source, K: Source, M: Source, D: Draws, O: Sink, E: Sink>(
    alloc: Global,
    words: &[String],
    table: &mut S,
    genuine: &mut G,
    input: &mut I,
    keys: &mut K,
    trusted: &mut M,
    draws: &mut D,
    now_ms: u64,
    out: &mut O,
    err: &mut E,
) -> Status
    requires { now_ms < 2 ^ 63 }
    // What the words mean was done.
    ensures meets { Meets (command_of (map string_bytes words.now))
        (outside_of S.Store G.Store I.Source K.Source M.Source D.Draws O.Sink table.old genuine.old
        input.old keys.old trusted.old draws.old now_ms out.old)
        (outside_of S.Store G.Store I.Source K.Source M.Source D.Draws O.Sink table.new genuine.new
        input.new keys.new trusted.new draws.new now_ms out.new) result }

    // A fault of the outside ended the command, and none is said that wasn't there.
    ensures ends { FaultsEnd
        (outside_of S.Store G.Store I.Source K.Source M.Source D.Draws O.Sink table.old genuine.old
        input.old keys.old trusted.old draws.old now_ms out.old)
        (outside_of S.Store G.Store I.Source K.Source M.Source D.Draws O.Sink table.new genuine.new
        input.new keys.new trusted.new draws.new now_ms out.new) result }

    // `err` gets nothing of Ok, else the line.
    ensures line { WritesLine result (E.written err.old) (E.written err.new)
        (E.faults err.old) (E.faults err.new) }

    // The sources that the command reads were read, and no others.
    ensures read { SourcesAreRead (command_of (map string_bytes words.now))
        (outside_of S.Store G.Store I.Source K.Source M.Source D.Draws O.Sink table.old genuine.old
        input.old keys.old trusted.old draws.old now_ms out.old)
        (outside_of S.Store G.Store I.Source K.Source M.Source D.Draws O.Sink table.new genuine.new
        input.new keys.new trusted.new draws.new now_ms out.new) result }
{
    let mut outside = Parts {
        table,
        genuine,
        input,
        keys,
        trusted,
        draws,
        now_ms,
        out,
    };
    let status = answer(alloc, words, &mut outside);
    // Where there is no memory for the line, the number alone tells the status.
    let _ = tell(alloc, &status, err);
    status
}

/// Does a command's work. It is not given `err`, so that no fault of it can change the status.
fn answer<S: Store, G: Store, I: Source, K: Source, M: Source, D: Draws, O: Sink>(
    alloc: Global,
    words: &[String],
    outside: &mut Parts<'_, '_, '_, '_, '_, '_, '_, S, G, I, K, M, D, O>,
) -> Status
    requires { outside.old.now_ms < 2 ^ 63 }
    ensures { Does S.Store G.Store I.Source K.Source M.Source D.Draws O.Sink
        (Meets (command_of (map string_bytes words.now)))
        (SourcesAreRead (command_of (map string_bytes words.now)))
        outside.old outside.new result }
{
    match read_words(alloc, words) {
        Ok(Command::Help) => write_text(HELP, outside),
        Ok(Command::Version) => write_text(VERSION, outside),
        Ok(Command::CatFile(words)) => cat_file(alloc, words, outside),
        Ok(Command::SealFile(words)) => seal_file(alloc, words, outside),
        Ok(Command::Create(words)) => create_table(alloc, words, outside),
        Ok(Command::Append) => append_table(alloc, outside),
        Ok(Command::Scan(words)) => scan_table(alloc, words, outside),
        Ok(Command::Rotate(words)) => rotate_table(alloc, words, outside),
        Ok(Command::Snapshots) => list(alloc, Listing::Snapshots, outside),
        Ok(Command::Keys) => list(alloc, Listing::Keys, outside),
        Err(WordFault::NoPlace { word }) => Status::Usage { word },
        Err(WordFault::NoMemory) => Status::NoMemory,
    }
}

/// Writes a status's line, if it isn't Ok. Where memory is refused nothing is written.
fn tell<E: Sink>(alloc: Global, status: &Status, err: &mut E) -> Result<(), NoMemory>
    ensures told { IfOk result (λ _. TellsStatus status.now (E.written err.old) (E.written err.new)
        (E.faults err.old) (E.faults err.new)) }
    ensures missing { OnErr result (TellsNothing (E.written err.old) (E.written err.new)
        (E.faults err.old) (E.faults err.new)) }
{
    if let Status::Ok = status {
        return Ok(());
    }
    let line = status.line(alloc)?;
    // A fault of the error stream changes nothing.
    let _ = err.write(line.as_str().as_bytes());
    Ok(())
}
