//! Putting an object into the table, and printing a line behind it.
ghost use Rattle.std.specs.Prelude.{◌≡◌, IfSome};
ghost use Rattle.icb_base.specs.Causes.{Blames};
ghost use Rattle.icb_run.specs.Answers.{Prints};
ghost use Rattle.icb_run.specs.SealFile.{IsPut, LeavesTable, put_answer};

use crate::status::Status;
use icb_base::{Failed, ObjPath, Put, Sink, Store};

/// Puts an object at a path, and prints a line. `NameTaken` where the path is held.
pub fn put<S: Store, O: Sink>(
    object: &[u8],
    line: &str,
    path: ObjPath,
    table: &mut S,
    out: &mut O,
) -> Status
    ensures puts { IfSome (S.held table.old) (λ files.
        LeavesTable files path object.now (S.held table.new) result) }
    ensures prints { IfSome (S.held table.old) (λ files. Prints (put_answer files path line.now)
        (O.written out.old) (O.written out.new) result) }
    ensures table { Blames (result ≡ Status.StoreFault) (S.faults table.old) (S.faults table.new) }
    ensures out { Blames (result ≡ Status.OutputFault) (O.faults out.old) (O.faults out.new) }
    ensures late { IsPut result }
{
    match table.put_new(&path, object) {
        Ok(Put::Done) => match out.write(line.as_bytes()) {
            Ok(()) => Status::Ok,
            Err(Failed) => Status::OutputFault,
        },
        Ok(Put::Taken) => Status::NameTaken { path },
        Err(Failed) => Status::StoreFault,
    }
}
