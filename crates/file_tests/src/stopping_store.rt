//! A store that stops over the store in memory: what was said of it comes back to the store below.
ghost use Rattle.std.specs.Prelude.{◌≡◌, Ok, IsErr};
ghost use Rattle.icb_base.specs.MemoryStore.{files_of};
ghost use Rattle.icb_base.specs.Calls.{ReadsPath};

use crate::callers::{LoadFault, load, puts, removes, sizes};
use crate::helpers::path;
use icb_base::{Failed, FuseStore, MemStore, ObjPath, Put, Store};

/// Loads an object from a store that stops after so many calls. The store holds what it held.
fn load_stopped(
    store: &mut MemStore,
    path: &ObjPath,
    out: &mut [u8],
    calls: u64,
) -> Result<(), LoadFault>
    ensures { files_of store.new ≡ files_of store.old }
{
    load(&mut FuseStore::new(store, calls), path, out)
}

#[test]
fn an_object_is_loaded_in_two_calls_or_not(rt: HostRuntime) {
    let mut store = MemStore::new(rt.alloc(), Vec::new(rt.alloc()));
    let a = path(&rt, "a");
    assert!(rt; store.put_new(&a, b"hello") == Ok(Put::Done));
    for (calls, loaded) in [(0u64, false), (1, false), (2, true), (3, true)] {
        let mut out = [0u8; 5];
        let fault = load_stopped(&mut store, &a, &mut out, calls).err();
        assert!(rt; fault.is_none() == loaded && (out == *b"hello") == loaded);
        assert!(rt; loaded || fault == Some(LoadFault::Store));
    }
    assert!(rt; store.calls() == 6);
}

#[test]
fn every_call_is_refused_in_the_end(rt: HostRuntime) {
    let mut store = MemStore::new(rt.alloc(), Vec::new(rt.alloc()));
    let (a, b) = (path(&rt, "a"), path(&rt, "b"));
    let mut stops = FuseStore::new(&mut store, 3);
    assert!(rt; puts(&mut stops, &a, b"x") == Ok(Put::Done));
    assert!(rt; puts(&mut stops, &b, b"y") == Ok(Put::Done));
    assert!(rt; removes(&mut stops, &a) == Ok(true));
    assert!(rt; puts(&mut stops, &a, b"x") == Err(Failed));
    assert!(rt; removes(&mut stops, &b) == Err(Failed));
    assert!(rt; sizes(&mut stops, &b) == Err(Failed));
    assert!(rt; store.get(&a).is_none() && store.get(&b).is_some());
    assert!(rt; store.calls() == 3);
}
