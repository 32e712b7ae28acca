//! The command `rotate`: the table's keys are sealed again by the master that the words name.
ghost use Rattle.std.specs.Prelude.{◌≡◌, ◌≢◌, ◌<◌, ◌^◌};
ghost use Rattle.icb_base.specs.Causes.{Blames};
ghost use Rattle.icb_run.specs.Answers.{TellsLine, version_line};
ghost use Rattle.icb_run.specs.Outside.{Does};
ghost use Rattle.icb_run.specs.Rotate.{IsRotate, RotatesTable, told};
ghost use Rattle.icb_run.specs.Sources.{KeysAreRead};

use crate::job_status::job_status;
use crate::keyring_input::{keys_status, read_keyring};
use crate::outside::Parts;
use crate::printing::print_version;
use crate::status::Status;
use icb_base::{Draws, Failed, Sink, Source, Store};
use icb_chain::Keyring;
use icb_rotate::rotate;
use icb_schema::Text;
use icb_words::Rotate;
use std::alloc::Global;

/// Reads the keyring, has the table's keys sealed again by the master, and prints the version that was put.
/// No memory is taken behind the put.
pub fn rotate_table<S: Store, G: Store, I: Source, K: Source, M: Source, D: Draws, O: Sink>(
    alloc: Global,
    words: Rotate,
    outside: &mut Parts<'_, '_, '_, '_, '_, '_, '_, S, G, I, K, M, D, O>,
) -> Status
    requires time { outside.old.now_ms < 2 ^ 63 }
    ensures { Does S.Store G.Store I.Source K.Source M.Source D.Draws O.Sink
        (IsRotate words) KeysAreRead outside.old outside.new result }
{
    let ring = match read_keyring(alloc, outside.keys) {
        Ok(ring) => ring,
        Err(fault) => return keys_status(fault),
    };
    rotate_and_tell(
        alloc,
        outside.table,
        &ring,
        words.master,
        outside.draws,
        outside.now_ms,
        outside.out,
    )
}

/// Has the keys sealed again, and prints the version that was put.
fn rotate_and_tell<S: Store, D: Draws, O: Sink>(
    alloc: Global,
    table: &mut S,
    ring: &Keyring,
    id: Text,
    draws: &mut D,
    now_ms: u64,
    out: &mut O,
) -> Status
    requires { now_ms < 2 ^ 63 }
    ensures rotates { RotatesTable id ring.now now_ms
        (told S.Store D.Draws O.Sink table.old draws.old out.old)
        (told S.Store D.Draws O.Sink table.new draws.new out.new) result }
    ensures table { Blames (result ≡ Status.StoreFault) (S.faults table.old) (S.faults table.new) }
    ensures draws { Blames (result ≡ Status.RandomFault)
        (D.faults draws.old) (D.faults draws.new) }
    ensures out { Blames (result ≡ Status.OutputFault) (O.faults out.old) (O.faults out.new) }
    ensures no_input { result ≢ Status.InputFault }
{
    match rotate(alloc, table, ring, id, draws, now_ms) {
        Ok(version) => tell_version(version, out),
        Err(fault) => job_status(fault),
    }
}

/// Prints the line of a version that was put.
fn tell_version<O: Sink>(version: u64, out: &mut O) -> Status
    ensures tells { TellsLine (version_line version) (O.written out.old) (O.written out.new)
        result }
    ensures out { Blames (result ≡ Status.OutputFault) (O.faults out.old) (O.faults out.new) }
{
    match print_version(version, out) {
        Ok(()) => Status::Ok,
        Err(Failed) => Status::OutputFault,
    }
}
