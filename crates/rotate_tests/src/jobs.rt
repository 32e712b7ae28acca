//! Rotations of the tables of `versions.rt`, from their first step to their last: what is put equals Python's,
//! byte by byte.

use crate::outside::{NEVER, RING, answer, draws, empty, hold, holds, ring, version};
use crate::versions::{FIRST, SECOND, THIRD};
use crate::words::{refusal_in_words, text};
use icb_base::{ByteDraws, MemStore};
use icb_chain::Chain;
use icb_meta::TableMeta;
use icb_rotate::rotate;
use icb_turns::JobFault;
use std::process::Abort;

/// The text of the only version, the new master, and the refusal. In `FIRST` the master `m1` seals the first key.
const REFUSED: &str = "first;m1;SameKey m1
first;key-1;KeyName key-1
first;l2;KeyName l2
first;m9;NoKey m9
other;m2;KeyRefused key-1
none;m2;NoTable
bad;m1;BadMeta format-version";

/// A store that holds the first version.
fn first(rt: &(impl Abort + AllocGlobal), fails: u64, puts: bool) -> MemStore {
    let mut store = empty(rt, fails, puts);
    hold(rt, &mut store, 1, FIRST);
    store
}

/// Rotates to the last master at the time 9.
fn rotate_to_last(rt: &(impl Abort + AllocGlobal), store: &mut MemStore, draws: &mut ByteDraws) {
    let ring = ring(rt, RING);
    let put = rotate(rt.alloc(), store, &ring, text(rt, "m3"), draws, 9);
    assert!(rt; matches!(put, Ok(3)));
}

/// The table rotated to `m2`, and then to `m3`.
fn rotated_twice(rt: &(impl Abort + AllocGlobal)) -> MemStore {
    let mut store = first(rt, NEVER, false);
    let mut draws = draws(rt, 72);
    let put = answer(rt, &mut store, &mut draws, "m2");
    assert!(rt; matches!(put, Ok(2)));
    rotate_to_last(rt, &mut store, &mut draws);
    store
}

#[test]
fn a_chain_of_masters(rt: HostRuntime) {
    let store = rotated_twice(&rt);
    assert!(rt; holds(&rt, &store, 1, FIRST));
    assert!(rt; holds(&rt, &store, 2, SECOND));
    assert!(rt; holds(&rt, &store, 3, THIRD));
    assert!(rt; store.objects() == 3);
}

/// Whether the key of a list opens to this key, under these masters.
fn opens(rt: &(impl Abort + AllocGlobal), masters: &str, list: &str, key: &[u8]) -> bool {
    let meta = TableMeta::read(rt.alloc(), THIRD.as_bytes()).expect(rt, "metadata");
    let mut chain = Chain::new(rt.alloc(), 1).expect(rt, "room");
    let opened = chain.list_key(rt.alloc(), &meta, &ring(rt, masters), &text(rt, list));
    match opened {
        Ok(found) => found.key() == key,
        Err(_) => false,
    }
}

/// The lists' keys are 00 to 0f and 10 to 1f.
#[test]
fn the_last_master_alone_opens_the_lists(rt: HostRuntime) {
    let first = [0, 1, 2, 3, 4, 5, 6, 7, 8, 9, 10, 11, 12, 13, 14, 15];
    let second = [
        16, 17, 18, 19, 20, 21, 22, 23, 24, 25, 26, 27, 28, 29, 30, 31,
    ];
    let masters = RING.lines().last().expect(&rt, "the last master");
    assert!(rt; opens(&rt, masters, "l1", &first));
    assert!(rt; opens(&rt, masters, "l2", &second));
}

#[test]
fn the_masters_before_open_none(rt: HostRuntime) {
    let first = [0, 1, 2, 3, 4, 5, 6, 7, 8, 9, 10, 11, 12, 13, 14, 15];
    let (masters, _last) = RING.rsplit_once('\n').expect(&rt, "the masters before");
    assert!(rt; !opens(&rt, masters, "l1", &first));
    assert!(rt; opens(&rt, RING, "l1", &first));
}

/// A store that holds the text of this name as its only version: `FIRST`, another key sealed in its place, text
/// without a member, or none at all.
fn named(rt: &(impl Abort + AllocGlobal), name: &str) -> MemStore {
    let mut store = empty(rt, NEVER, false);
    match name {
        "first" => hold(rt, &mut store, 1, FIRST),
        "other" => hold(rt, &mut store, 1, other(rt).as_str()),
        "bad" => hold(rt, &mut store, 1, "{}"),
        _ => {}
    }
    store
}

/// `FIRST`, whose first key has another nonce.
fn other(rt: &(impl Abort + AllocGlobal)) -> String {
    let text = FIRST.replace(rt.alloc(), "AQEBAQEBAQEBAQEBSZ", "AQEBAQEBAQEBAQECSZ");
    text.expect(rt, "room")
}

/// The part of a row at a place, from 0.
fn part<'t>(rt: &impl Abort, row: &'t str, place: usize) -> &'t str {
    for (at, part) in row.split(';').enumerate() {
        if at == place {
            return part;
        }
    }
    panic!(rt; "a part is missing: {row}")
}

/// What a rotation is refused with, which puts nothing.
fn refusal(
    rt: &(impl Abort + AllocGlobal),
    store: &mut MemStore,
    draws: &mut ByteDraws,
    master: &str,
) -> JobFault {
    let held = store.objects();
    let answer = answer(rt, store, draws, master);
    assert!(rt; store.objects() == held);
    answer.err().expect(rt, "a refusal")
}

/// A refused rotation draws nothing: the next one has the bytes from 00 on.
#[test]
fn refusals_put_and_draw_nothing(rt: HostRuntime) {
    let mut draws = draws(&rt, 36);
    for row in REFUSED.lines() {
        let mut store = named(&rt, part(&rt, row, 0));
        let fault = refusal(&rt, &mut store, &mut draws, part(&rt, row, 1));
        let found = refusal_in_words(&rt, &fault);
        assert!(rt; found.as_str() == part(&rt, row, 2), "{row}: {found}");
    }
    let mut store = first(&rt, NEVER, false);
    let put = answer(&rt, &mut store, &mut draws, "m2");
    assert!(rt; matches!(put, Ok(2)));
    assert!(rt; holds(&rt, &store, 2, SECOND));
}

#[test]
fn too_few_bytes_are_drawn(rt: HostRuntime) {
    let mut store = first(&rt, NEVER, false);
    let mut draws = draws(&rt, 35);
    let fault = refusal(&rt, &mut store, &mut draws, "m2");
    assert!(rt; matches!(fault, JobFault::Random));
}

/// Whether a rotation ends at a call of the store that fails, which is `Store`.
fn fails(rt: &(impl Abort + AllocGlobal), store: &mut MemStore) -> bool {
    let mut draws = draws(rt, 36);
    match answer(rt, store, &mut draws, "m2") {
        Ok(version) => {
            assert!(rt; version == 2);
            false
        }
        Err(fault) => {
            assert!(rt; matches!(fault, JobFault::Store));
            true
        }
    }
}

/// It makes five calls: two probes, two to read version 1, and the put.
#[test]
fn each_call_fails_in_turn(rt: HostRuntime) {
    for call in 0..6 {
        let mut store = first(&rt, call, false);
        assert!(rt; fails(&rt, &mut store) == (call < 5), "{call}");
        assert!(rt; store.objects() == if call < 5 { 1 } else { 2 }, "{call}");
        assert!(rt; holds(&rt, &store, 1, FIRST), "{call}");
    }
}

/// A put that took place and then failed leaves the version that it put.
#[test]
fn a_put_fails_that_took_place(rt: HostRuntime) {
    let mut store = first(&rt, 4, true);
    assert!(rt; fails(&rt, &mut store));
    assert!(rt; holds(&rt, &store, 2, SECOND));
    let mut draws = draws(&rt, 36);
    let again = refusal(&rt, &mut store, &mut draws, "m2");
    assert!(rt; matches!(again, JobFault::SameKey { .. }));
}
