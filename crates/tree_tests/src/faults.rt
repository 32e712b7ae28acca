//! What a walk gives where a call of its store fails, and where another object is put behind a refusal.

use crate::made::{put_object, store};
use crate::trees::{answer, check_told, part, told, walk};
use icb_base::MemStore;
use icb_walk::Walk;
use std::process::Abort;

/// Two manifests.
const TREE: &str = "list=L:m1.m2 1=M:a 2=M:b.c";

/// What a walk over them gives.
const GIVEN: &str = "data/a:100:0, data/b:200:1, data/c:300:1, end";

/// The objects at first, and what a walk gives; an object that is put then, and what it gives from there on. A
/// file that was given isn't given twice.
const MENDED: &str = "1=M:a;Missing meta/list;list=L:m1;data/a:100:0, end
list=L:m1:cut=1700 1=M:a.b;Short meta/list 1700;list=L:m1;data/a:100:0, data/b:200:0, end
list=L:m1.m2 1=M:a;data/a:100:0, Missing meta/2;2=M:b.c;data/b:200:1, data/c:300:1, end
list=L:m1.m2 1=M:a 2=M:b:flip=0;data/a:100:0, Magic meta/2 64 71 83 49;2=M:b;data/b:200:1, end
list=L:m1.m2 1=M:a 2=M:b:flip=9;data/a:100:0, Block meta/2 0;2=M:b;data/b:200:1, end
list=L:m1 1=M:a/b:flip=1803;data/a:100:0, Block meta/1 6;1=M:a/b;data/b:200:0, end
list=L:m1/m2:flip=1803 1=M:a 2=M:b;data/a:100:0, Block meta/list 6;list=L:m1/m2;data/b:200:1, end";

/// What a walk gives until it ends, with a call more where one of the store failed; and how many failed.
fn told_through(
    rt: &(impl Abort + AllocGlobal),
    walk: &mut Walk,
    store: &mut MemStore,
) -> (String, u64) {
    let mut told = String::new(rt.alloc());
    let mut failed = 0u64;
    for _ in 0..10 {
        let (more, words) = answer(rt, walk, store);
        if words.as_str() == "Store" {
            failed = failed.saturating_add(1);
        } else {
            told.push_str(words.as_str()).expect(rt, "room");
            if !more {
                return (told, failed);
            }
            told.push_str(", ").expect(rt, "room");
        }
    }
    panic!(rt; "no end: {told}")
}

/// What a walk gives where the call of this number fails; and how many failed.
fn given_where(rt: &(impl Abort + AllocGlobal), call: u64) -> (String, u64) {
    let mut plan = Vec::new(rt.alloc());
    plan.push((call, false)).expect(rt, "room");
    let mut store = store(rt, TREE, plan);
    let mut walk = walk(rt, 1).expect(rt, "a walk");
    told_through(rt, &mut walk, &mut store)
}

/// How many calls a walk makes where none fails.
fn calls(rt: &(impl Abort + AllocGlobal)) -> u64 {
    let mut store = store(rt, TREE, Vec::new(rt.alloc()));
    let mut walk = walk(rt, 1).expect(rt, "a walk");
    let given = told(rt, &mut walk, &mut store);
    assert!(rt; given.as_str() == GIVEN);
    store.calls()
}

#[test]
fn a_walk_goes_on_behind_a_failed_call(rt: HostRuntime) {
    let calls = calls(&rt);
    assert!(rt; calls == 27);
    for call in 0..calls {
        let (given, failed) = given_where(&rt, call);
        assert!(rt; given.as_str() == GIVEN, "{call}: {given}");
        assert!(rt; failed == 1, "{call}: {failed}");
    }
}

/// Walks over the tree of a line of `MENDED`.
fn mend(rt: &(impl Abort + AllocGlobal), line: &str) {
    let mut store = store(rt, part(rt, line, 0), Vec::new(rt.alloc()));
    let mut walk = walk(rt, 1).expect(rt, "a walk");
    check_told(rt, &mut walk, &mut store, part(rt, line, 1));
    put_object(rt, part(rt, line, 2), &mut store);
    check_told(rt, &mut walk, &mut store, part(rt, line, 3));
}

#[test]
fn a_walk_goes_on_where_an_object_is_mended(rt: HostRuntime) {
    for line in MENDED.lines() {
        mend(&rt, line);
    }
}
