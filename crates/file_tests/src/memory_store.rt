//! The store in memory: what is put, replaced and taken away, what is counted, and which calls fail.

use crate::callers::{LoadFault, load, puts, reads, removes, sizes};
use crate::helpers::{bytes, path};
use icb_base::{Failed, MemStore, Put};

#[test]
fn a_store_in_memory_holds_what_was_put(rt: HostRuntime) {
    let mut store = MemStore::new(rt.alloc(), Vec::new(rt.alloc()));
    let (a, b) = (path(&rt, "a"), path(&rt, "b"));
    let mut out = [0u8; 4];
    assert!(rt; sizes(&mut store, &a) == Ok(None));
    assert!(rt; puts(&mut store, &a, b"hello") == Ok(Put::Done));
    assert!(rt; puts(&mut store, &a, b"other") == Ok(Put::Taken));
    assert!(rt; sizes(&mut store, &a) == Ok(Some(5)));
    assert!(rt; reads(&mut store, &a, 2, &mut out) == Ok(Some(3)) && out == *b"llo\0");
    assert!(rt; reads(&mut store, &a, 9, &mut out) == Ok(Some(0)));
    assert!(rt; reads(&mut store, &b, 0, &mut out) == Ok(None) && out == *b"llo\0");
    assert!(rt; store.asked_of(&a) == 4 && store.moved_of(&a) == 9);
    assert!(rt; store.asked_of(&b) == 0 && store.moved_of(&b) == 0);
    assert!(rt; store.calls() == 7 && store.objects() == 1);
}

#[test]
fn an_object_is_replaced_and_taken_away(rt: HostRuntime) {
    let mut store = MemStore::new(rt.alloc(), Vec::new(rt.alloc()));
    let (a, b) = (path(&rt, "a"), path(&rt, "b"));
    assert!(rt; puts(&mut store, &a, b"old") == Ok(Put::Done));
    assert!(rt; sizes(&mut store, &a) == Ok(Some(3)));
    assert!(rt; store.set(path(&rt, "a"), bytes(&rt, b"newer")).is_ok());
    assert!(rt; store.set(path(&rt, "b"), bytes(&rt, b"more")).is_ok());
    let newer: &[u8] = b"newer";
    assert!(rt; store.get(&a).is_some_and(|held| held == newer));
    assert!(rt; store.asked_of(&a) == 0 && store.objects() == 2);
    store.clear(&a);
    assert!(rt; store.get(&a).is_none() && store.get(&b).is_some());
    assert!(rt; store.calls() == 2 && store.objects() == 1);
}

#[test]
fn a_planned_call_fails(rt: HostRuntime) {
    let plan = vec![in rt.alloc(); (0u64, false), (1, true), (3, false)].expect(&rt, "a plan");
    let mut store = MemStore::new(rt.alloc(), plan);
    let a = path(&rt, "a");
    assert!(rt; puts(&mut store, &a, b"x") == Err(Failed) && store.get(&a).is_none());
    assert!(rt; puts(&mut store, &a, b"x") == Err(Failed) && store.get(&a).is_some());
    assert!(rt; sizes(&mut store, &a) == Ok(Some(1)));
    let mut out = [0u8; 1];
    assert!(rt; reads(&mut store, &a, 0, &mut out) == Err(Failed));
    assert!(rt; reads(&mut store, &a, 0, &mut out) == Ok(Some(1)));
}

#[test]
fn an_object_is_loaded_by_two_calls(rt: HostRuntime) {
    let plan = vec![in rt.alloc(); (3u64, false), (6, false)].expect(&rt, "a plan");
    let mut store = MemStore::new(rt.alloc(), plan);
    let a = path(&rt, "a");
    let mut out = [0u8; 5];
    assert!(rt; puts(&mut store, &a, b"hello") == Ok(Put::Done));
    assert!(rt; load(&mut store, &a, &mut out) == Ok(()) && out == *b"hello");
    assert!(rt; load(&mut store, &a, &mut out) == Err(LoadFault::Store));
    assert!(rt; load(&mut store, &a, &mut out[..4]) == Err(LoadFault::NotThere));
    assert!(rt; load(&mut store, &a, &mut out) == Err(LoadFault::Store));
    assert!(rt; store.calls() == 7);
}

#[test]
fn objects_are_removed_by_plan(rt: HostRuntime) {
    let plan = vec![in rt.alloc(); (4u64, false), (5, true)].expect(&rt, "a plan");
    let mut store = MemStore::new(rt.alloc(), plan);
    let (a, b) = (path(&rt, "a"), path(&rt, "b"));
    assert!(rt; puts(&mut store, &a, b"x") == Ok(Put::Done));
    assert!(rt; puts(&mut store, &b, b"y") == Ok(Put::Done));
    assert!(rt; removes(&mut store, &a) == Ok(true) && store.get(&a).is_none());
    assert!(rt; removes(&mut store, &a) == Ok(false) && store.objects() == 1);
    assert!(rt; removes(&mut store, &b) == Err(Failed) && store.get(&b).is_some());
    assert!(rt; removes(&mut store, &b) == Err(Failed) && store.get(&b).is_none());
    assert!(rt; removes(&mut store, &b) == Ok(false) && store.objects() == 0);
    assert!(rt; puts(&mut store, &a, b"z") == Ok(Put::Done) && store.asked_of(&a) == 0);
    assert!(rt; store.calls() == 8);
}
