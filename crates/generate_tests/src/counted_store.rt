//! A store that counts, over the store in memory and over one that stops.

use icb_base::{Failed, FuseStore, MemStore, ObjPath, Put, Store};
use icb_generate::CountedStore;
use std::process::Abort;

/// A path.
fn path(rt: &(impl Abort + AllocGlobal), text: &str) -> ObjPath {
    ObjPath::read(rt.alloc(), text.as_bytes())
        .ok()
        .expect(rt, "a path")
}

#[test]
fn objects_are_counted_where_they_were_put(rt: HostRuntime) {
    let mut store = MemStore::new(rt.alloc(), Vec::new(rt.alloc()));
    let (a, b) = (path(&rt, "a"), path(&rt, "b"));
    let mut counted = CountedStore::new(&mut store);
    assert!(rt; counted.puts() == 0);
    assert!(rt; counted.put_new(&a, b"first") == Ok(Put::Done));
    assert!(rt; counted.put_new(&a, b"other") == Ok(Put::Taken));
    assert!(rt; counted.size(&a) == Ok(Some(5)) && counted.size(&b) == Ok(None));
    assert!(rt; counted.puts() == 1);
    assert!(rt; counted.put_new(&b, b"") == Ok(Put::Done));
    let mut out = [0u8; 2];
    assert!(rt; counted.read_at(&a, 3, &mut out) == Ok(Some(2)) && out == *b"st");
    assert!(rt; counted.puts() == 2);
}

#[test]
fn a_failed_put_is_not_counted(rt: HostRuntime) {
    let mut store = MemStore::new(rt.alloc(), Vec::new(rt.alloc()));
    let (a, b) = (path(&rt, "a"), path(&rt, "b"));
    let mut stops = FuseStore::new(&mut store, 1);
    let mut counted = CountedStore::new(&mut stops);
    assert!(rt; counted.put_new(&a, b"x") == Ok(Put::Done));
    assert!(rt; counted.put_new(&b, b"y") == Err(Failed));
    assert!(rt; counted.size(&a) == Err(Failed));
    assert!(rt; counted.puts() == 1);
}
