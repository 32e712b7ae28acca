//! How often a stream asks its store and how many bytes it moves, what it holds, and what it answers where
//! the store fails.

use crate::helpers::{numbers, path};
use crate::streams::{check, file, file_key, meta, store_of};
use icb_base::MemStore;
use icb_seal::KeySize;
use icb_stream::{Stream, StreamFault, seal_stream};
use std::process::Abort;

/// Reads a range of the stream of these bytes and gives the calls and the bytes that it counted.
fn read(
    rt: &(impl Abort + AllocGlobal),
    stream: &mut Stream,
    store: &mut MemStore,
    plain: &[u8],
    at: usize,
    length: usize,
) -> (u64, u64) {
    let path = path(rt, "data/x");
    let asked = store.asked_of(&path);
    let moved = store.moved_of(&path);
    assert!(rt; at < 1000 && length < 1000);
    assert!(rt; at + length <= plain.len() && plain.len() as u64 == stream.plain_length());
    let mut out = vec![in rt.alloc(); 7; length].expect(rt, "room");
    assert!(rt; stream.read_at(store, at as u64, out.as_mut_slice()).is_ok());
    assert!(rt; out.as_slice() == &plain[at..at + length]);
    (
        store.asked_of(&path).saturating_sub(asked),
        store.moved_of(&path).saturating_sub(moved),
    )
}

/// 200 bytes in blocks of 64, a file of 320 bytes: an opening, and reads of ranges of these places and
/// lengths, with the calls and bytes that each counts.
#[test]
fn calls_and_bytes(rt: HostRuntime) {
    let plain = numbers(&rt, 200);
    assert!(rt; plain.len() < 256);
    let key = file_key(&rt, KeySize::Bytes16, 16);
    let sealed = seal_stream(rt.alloc(), key, b"data/x", 64, &plain);
    let (bytes, meta) = sealed.expect(&rt, "room");
    assert!(rt; bytes.as_slice().len() == 320);
    let mut store = store_of(&rt, "data/x", bytes.as_slice(), Vec::new(rt.alloc()));
    let path = path(&rt, "data/x");
    let opened = Stream::open(rt.alloc(), &mut store, &path, &meta, 320);
    let mut stream = opened.expect(&rt, "a stream");
    assert!(rt; store.asked_of(&path) == 3 && store.moved_of(&path) == 100);
    let rows = [(60, 10, 1, 92), (64, 64, 0, 0), (0, 200, 3, 220)];
    for (at, length, asks, moves) in rows {
        let counted = read(&rt, &mut stream, &mut store, &plain, at, length);
        assert!(rt; counted == (asks, moves));
    }
}

/// A range up to the end touches an empty last block; one that ends before the end doesn't.
#[test]
fn empty_last_block(rt: HostRuntime) {
    let mut bytes = file(&rt, 4, &[(0, b"abcd"), (1, b"")]);
    check(&rt, &bytes, 68, Ok(()), b"abcd");
    assert!(rt; bytes.len() == 68);
    bytes[67] ^= 1;
    let answer = Err(StreamFault::Block { number: 1 });
    check(&rt, &bytes, 68, answer, b"abcd");
    let mut store = store_of(&rt, "data/x", &bytes, Vec::new(rt.alloc()));
    let opened = Stream::open(rt.alloc(), &mut store, &path(&rt, "data/x"), &meta(&rt), 68);
    let mut stream = opened.expect(&rt, "a stream");
    assert!(rt; stream.plain_length() == 4);
    assert!(rt; stream.block_length() == 4);
    let mut out = [7; 2];
    assert!(rt; stream.read_at(&mut store, 1, &mut out).is_ok());
    assert!(rt; out == *b"bc");
}

#[test]
fn openings_that_are_refused(rt: HostRuntime) {
    let bytes = file(&rt, 4, &[(0, b"abcd")]);
    for length in [8, 35] {
        let mut store = store_of(&rt, "data/x", &bytes, Vec::new(rt.alloc()));
        let path = path(&rt, "data/x");
        let opened = Stream::open(rt.alloc(), &mut store, &path, &meta(&rt), length);
        assert!(rt; matches!(opened, Err(StreamFault::BadLength { length: n }) if n == length));
        assert!(rt; store.calls() == 0);
    }
    let mut empty = MemStore::new(rt.alloc(), Vec::new(rt.alloc()));
    let opened = Stream::open(rt.alloc(), &mut empty, &path(&rt, "data/x"), &meta(&rt), 40);
    assert!(rt; matches!(opened, Err(StreamFault::Missing)));
    for failing in [0, 1, 2] {
        let plan = vec![in rt.alloc(); (failing, false)].expect(&rt, "a plan");
        let mut store = store_of(&rt, "data/x", &bytes, plan);
        let opened = Stream::open(rt.alloc(), &mut store, &path(&rt, "data/x"), &meta(&rt), 40);
        assert!(rt; matches!(opened, Err(StreamFault::Store)));
        assert!(rt; store.calls() == failing + 1);
    }
}

/// The call for block 1 fails: the bytes before it are there, and a later read asks for block 0 again.
#[test]
fn a_read_that_fails(rt: HostRuntime) {
    let bytes = file(&rt, 4, &[(0, b"abcd"), (1, b"efgh"), (2, b"ij")]);
    let plan = vec![in rt.alloc(); (3, false)].expect(&rt, "a plan");
    let mut store = store_of(&rt, "data/x", &bytes, plan);
    let opened = Stream::open(
        rt.alloc(),
        &mut store,
        &path(&rt, "data/x"),
        &meta(&rt),
        102,
    );
    let mut stream = opened.expect(&rt, "a stream");
    assert!(rt; stream.plain_length() == 10);
    let mut out = [7; 10];
    assert!(rt; stream.read_at(&mut store, 0, &mut out) == Err(StreamFault::Store));
    assert!(rt; out == *b"abcd\0\0\0\0\0\0");
    assert!(rt; store.calls() == 4);
    assert!(rt; stream.read_at(&mut store, 0, &mut out).is_ok());
    assert!(rt; out == *b"abcdefghij");
    assert!(rt; store.calls() == 7);
}
