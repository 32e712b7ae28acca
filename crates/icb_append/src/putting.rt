//! The put of a file's object.
ghost use Rattle.std.specs.Prelude.{◌≡◌, Err, IsOk};
ghost use Rattle.icb_base.specs.Calls.{PutsPath};
ghost use Rattle.icb_append.specs.Puts.{AnswersPut};

use icb_base::{Failed, ObjPath, Put, Store};
use icb_turns::JobFault;

/// Puts an object where none is held. `NameTaken` exactly where one is, `Store` where the store failed: the
/// object may then be put.
pub(crate) fn put_file<S: Store>(
    store: &mut S,
    path: ObjPath,
    object: &[u8],
) -> Result<(), JobFault>
    ensures puts { PutsPath S.Store path object.now (IsOk result)
        (result ≡ Err (JobFault.NameTaken path)) (result ≡ Err JobFault.Store) store.old store.new }
    ensures answers { AnswersPut path result }
{
    match store.put_new(&path, object) {
        Ok(Put::Done) => Ok(()),
        Ok(Put::Taken) => Err(JobFault::NameTaken { path }),
        Err(Failed) => Err(JobFault::Store),
    }
}
