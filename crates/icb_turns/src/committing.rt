//! The put of a version, and what a job does where another one was put first.
ghost use Rattle.std.specs.Prelude.{◌≡◌, Err, Ok, length};
ghost use Rattle.icb_base.specs.Calls.{PutsPath};
ghost use Rattle.icb_tree.specs.Versions.{version_path};
ghost use Rattle.icb_turns.specs.Committing.{AnswersPut, AnswersTaken};

use crate::fault::JobFault;
use crate::versions::Versions;
use icb_base::{Failed, Limited, Put, Store};
use icb_tree::version_path;
use std::alloc::Global;

/// The most bytes that metadata may have.
const MOST_BYTES: u64 = 67108864;

/// Puts the text of a version where that isn't held. `Limit` comes exactly where the text is too long,
/// and then none is put.
pub fn put_version<S: Store>(
    alloc: Global,
    store: &mut S,
    version: u64,
    text: &[u8],
) -> Result<Put, JobFault>
    ensures answer { AnswersPut (length text.now) result }
    ensures puts { PutsPath S.Store (version_path version) text.now (result ≡ Ok Put.Done)
        (result ≡ Ok Put.Taken) (result ≡ Err JobFault.Store) store.old store.new }
{
    if text.len() as u64 > MOST_BYTES {
        return Err(JobFault::Limit {
            what: Limited::Metadata,
            number: MOST_BYTES,
        });
    }
    let Ok(path) = version_path(alloc, version) else {
        return Err(JobFault::NoMemory);
    };
    match store.put_new(&path, text) {
        Ok(put) => Ok(put),
        Err(Failed) => Err(JobFault::Store),
    }
}

/// What a job does that found a version taken, where these are all that it found so, in two lists: it goes
/// on, or answers `Contended` with one of them, exactly where they are more than its retries.
pub fn after_taken(taken: &Versions, given: Versions, retries: u64) -> Result<(), JobFault>
    requires { given ≡ taken.now }
    ensures { AnswersTaken taken.now retries result }
{
    if taken.as_slice().len() as u64 > retries {
        return Err(JobFault::Contended { versions: given });
    }
    Ok(())
}
