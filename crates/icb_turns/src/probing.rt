//! The search for the current version, one version a turn.
ghost use Rattle.std.specs.Prelude.{◌≡◌, ◌≢◌, Err, IfSome};
ghost use Rattle.icb_base.specs.Calls.{ReadsPath};
ghost use Rattle.icb_tree.specs.Versions.{version_path};
ghost use Rattle.icb_turns.specs.Answers.{AnswersRead};
ghost use Rattle.icb_turns.specs.Probing.{MayFind, behind_free, behind_held, probe_of};

use crate::fault::JobFault;
use icb_base::{Failed, Limited, Store};
use icb_tree::version_path;
use std::alloc::Global;

/// The most versions that a table may have.
const MOST_VERSIONS: u64 = 1000000;

/// What a probe of a version finds.
#[derive(Clone, Copy, Debug, PartialEq, Eq)]
pub enum Probed {
    /// It is held, and this one is to be looked for next.
    Next(u64),
    /// It isn't held, so that this one is current.
    Found(u64),
}

/// Asks the store for the size of a version, all before which are held. `NoTable` exactly where it is
/// version 1 and isn't held; `Limit` exactly where it is version 1,000,001 and is.
pub fn probe<S: Store>(alloc: Global, store: &mut S, version: u64) -> Result<Probed, JobFault>
    ensures probe { IfSome (S.held store.old) (λ files.
        AnswersRead (probe_of files version) result) }
    ensures may { MayFind version result }
    ensures reads { ReadsPath S.Store (version_path version) 1 0 (result ≡ Err JobFault.Store)
        store.old store.new }
{
    let Ok(path) = version_path(alloc, version) else {
        return Err(JobFault::NoMemory);
    };
    match store.size(&path) {
        Ok(Some(_)) => behind_held(version),
        Ok(None) => behind_free(version),
        Err(Failed) => Err(JobFault::Store),
    }
}

/// What a probe finds where the version is held.
fn behind_held(version: u64) -> Result<Probed, JobFault>
    ensures found { result ≡ behind_held version }
    ensures may { MayFind version result }
    ensures other { result ≢ Err JobFault.Store }
{
    if version > MOST_VERSIONS {
        return Err(JobFault::Limit {
            what: Limited::Versions,
            number: MOST_VERSIONS,
        });
    }
    Ok(Probed::Next(version + 1))
}

/// What a probe finds where the version isn't held.
fn behind_free(version: u64) -> Result<Probed, JobFault>
    ensures found { result ≡ behind_free version }
    ensures may { MayFind version result }
    ensures other { result ≢ Err JobFault.Store }
{
    if version <= 1 {
        return Err(JobFault::NoTable);
    }
    Ok(Probed::Found(version - 1))
}
