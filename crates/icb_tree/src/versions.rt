//! The versions of a table, by their paths.
ghost use Rattle.std.specs.Prelude.{◌≡◌, ◌≤◌, Some, Err, IfErr, IfOk, IfSome};
ghost use Rattle.icb_tree.specs.Reading.{Answers, IsStopped, ReadsOnly};
ghost use Rattle.icb_tree.specs.Versions.{holds_version, last_of, last_version, version_path};

use crate::fault::CurrentFault;
use icb_base::{Failed, Limited, NoMemory, ObjPath, Store};
use std::alloc::Global;

/// The most versions that a table may have.
const MOST_VERSIONS: u64 = 1000000;

/// The path of a version's metadata.
pub fn version_path(alloc: Global, version: u64) -> Result<ObjPath, NoMemory>
    ensures { IfOk result (λ path. path ≡ version_path version) }
{
    let text = format!(in alloc; "metadata/v{version}.metadata.json")?;
    match ObjPath::read(alloc, text.as_str().as_bytes()) {
        Ok(path) => Ok(path),
        Err(_) => Err(NoMemory),
    }
}

/// The current version: the one before the first that isn't held.
pub(crate) fn last_version<S: Store>(alloc: Global, store: &mut S) -> Result<u64, CurrentFault>
    ensures last { IfSome (S.held store.old) (λ files.
        Answers (λ n. n) (last_version files) result) }
    ensures reads { ReadsOnly S.Store (result ≡ Err CurrentFault.Store) store.old store.new }
{
    for version in 1..1000002 {
        match holds_version(alloc, store, version) {
            Ok(true) => {}
            Ok(false) => return version_before(version),
            Err(fault) => return Err(fault),
        }
    }
    Err(CurrentFault::Limit {
        what: Limited::Versions,
        number: MOST_VERSIONS,
    })
}

/// The version before the first that isn't held.
fn version_before(free: u64) -> Result<u64, CurrentFault>
    requires { 1 ≤ free }
    ensures { result ≡ last_of (Some free) }
{
    if free == 1 {
        return Err(CurrentFault::NoTable);
    }
    Ok(free - 1)
}

/// Whether a version is held.
fn holds_version<S: Store>(alloc: Global, store: &mut S, version: u64) -> Result<bool, CurrentFault>
    ensures held { IfSome (S.held store.old) (λ files.
        IfOk result (λ held. held ≡ holds_version files version)) }
    ensures fault { IfErr result IsStopped }
    ensures reads { ReadsOnly S.Store (result ≡ Err CurrentFault.Store) store.old store.new }
{
    let Ok(path) = version_path(alloc, version) else {
        return Err(CurrentFault::NoMemory);
    };
    match store.size(&path) {
        Ok(size) => Ok(size.is_some()),
        Err(Failed) => Err(CurrentFault::Store),
    }
}
