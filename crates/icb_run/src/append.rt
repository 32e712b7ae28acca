//! The command `append`: the rows of the input's lines are added to the table.
ghost use Rattle.std.specs.Prelude.{◌≡◌, ◌≢◌, ◌<◌, ◌^◌, ◌++◌, codes, IsErr};
ghost use Rattle.std.specs.Fmt.{signed_decimal};
ghost use Rattle.icb_base.specs.Calls.{WritesText};
ghost use Rattle.icb_base.specs.Causes.{Blames};
ghost use Rattle.icb_run.specs.Answers.{TellsLine};
ghost use Rattle.icb_run.specs.Append.{AppendsTable, IsAppend, committed_line, snapshot_words, told};
ghost use Rattle.icb_run.specs.Outside.{Does};
ghost use Rattle.icb_run.specs.Sources.{AppendIsRead};

use crate::input::{INPUT_LIMIT, read_status, read_to_end};
use crate::job_status::job_status;
use crate::keyring_input::{keys_status, read_keyring};
use crate::outside::Parts;
use crate::printing::{print_text, print_version};
use crate::status::Status;
use icb_append::{Committed, append};
use icb_base::{Bytes, Draws, Failed, Sink, Source, Store};
use icb_chain::Keyring;
use itoa::Buffer;
use std::alloc::Global;

/// Reads the keyring and then the input, has the rows of its lines appended, and prints what was committed.
/// No memory is taken behind the commit.
pub fn append_table<S: Store, G: Store, I: Source, K: Source, M: Source, D: Draws, O: Sink>(
    alloc: Global,
    outside: &mut Parts<'_, '_, '_, '_, '_, '_, '_, S, G, I, K, M, D, O>,
) -> Status
    requires time { outside.old.now_ms < 2 ^ 63 }
    ensures { Does S.Store G.Store I.Source K.Source M.Source D.Draws O.Sink
        IsAppend AppendIsRead outside.old outside.new result }
{
    let ring = match read_keyring(alloc, outside.keys) {
        Ok(ring) => ring,
        Err(fault) => return keys_status(fault),
    };
    match read_to_end(alloc, outside.input, INPUT_LIMIT as usize) {
        Ok(lines) => append_and_tell(
            alloc,
            lines,
            outside.table,
            &ring,
            outside.draws,
            outside.now_ms,
            outside.out,
        ),
        Err(fault) => read_status(fault),
    }
}

/// Has the rows of lines appended, and prints what was committed.
fn append_and_tell<S: Store, D: Draws, O: Sink>(
    alloc: Global,
    lines: Bytes,
    table: &mut S,
    ring: &Keyring,
    draws: &mut D,
    now_ms: u64,
    out: &mut O,
) -> Status
    requires { now_ms < 2 ^ 63 }
    ensures appends { AppendsTable ring.now lines now_ms
        (told S.Store D.Draws O.Sink table.old draws.old out.old)
        (told S.Store D.Draws O.Sink table.new draws.new out.new) result }
    ensures table { Blames (result ≡ Status.StoreFault) (S.faults table.old) (S.faults table.new) }
    ensures draws { Blames (result ≡ Status.RandomFault)
        (D.faults draws.old) (D.faults draws.new) }
    ensures out { Blames (result ≡ Status.OutputFault) (O.faults out.old) (O.faults out.new) }
    ensures no_input { result ≢ Status.InputFault }
{
    match append(alloc, lines, table, ring, draws, now_ms) {
        Ok(committed) => tell_committed(committed, out),
        Err(fault) => job_status(fault),
    }
}

/// Prints the line of what was committed.
fn tell_committed<O: Sink>(committed: Committed, out: &mut O) -> Status
    ensures tells { TellsLine (committed_line committed) (O.written out.old) (O.written out.new)
        result }
    ensures out { Blames (result ≡ Status.OutputFault) (O.faults out.old) (O.faults out.new) }
{
    match print_committed(committed, out) {
        Ok(()) => Status::Ok,
        Err(Failed) => Status::OutputFault,
    }
}

/// Writes the line of what was committed. It takes no memory.
fn print_committed<O: Sink>(committed: Committed, out: &mut O) -> Result<(), Failed>
    ensures { WritesText O.Sink (committed_line committed) (IsErr result) out.old out.new }
{
    print_snapshot(committed.snapshot, out)?;
    print_version(committed.version, out)
}

/// Writes the words of a snapshot's id.
fn print_snapshot<O: Sink>(id: i64, out: &mut O) -> Result<(), Failed>
    ensures { WritesText O.Sink (snapshot_words id) (IsErr result) out.old out.new }
{
    print_text("snapshot ", out)?;
    print_id(id, out)
}

/// Writes an id in decimal digits, and a blank.
fn print_id<O: Sink>(id: i64, out: &mut O) -> Result<(), Failed>
    ensures { WritesText O.Sink (signed_decimal id ++ codes " ") (IsErr result) out.old out.new }
{
    let mut digits = Buffer::new();
    print_text(digits.format(id), out)?;
    print_text(" ", out)
}
