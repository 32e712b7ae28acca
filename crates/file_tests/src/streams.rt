//! Streams that the tests are made of: sealed here block by block, or whole.

use crate::helpers::{bytes, numbers, path, push};
use icb_base::{ByteDraws, Bytes, KeyMeta, MemStore};
use icb_seal::{AesKey, FileKey, KeySize, wrap_key};
use icb_stream::{Stream, StreamFault};
use std::process::Abort;

/// The numbers from 0 to 15.
pub(crate) const KEY: [u8; 16] = [0, 1, 2, 3, 4, 5, 6, 7, 8, 9, 10, 11, 12, 13, 14, 15];

/// Adds bytes.
pub(crate) fn add(rt: &(impl Abort + AllocGlobal), bytes: &mut Vec<u8>, more: &[u8]) {
    bytes.extend_from_slice(more).expect(rt, "room");
}

/// Adds a cipher block with the nonce of eleven zeros and its number.
pub(crate) fn seal(
    rt: &(impl Abort + AllocGlobal),
    bytes: &mut Vec<u8>,
    prefix: &[u8],
    number: u8,
    part: &[u8],
) {
    let key = AesKey::new(&KEY).expect(rt, "a key");
    let nonce = [0, 0, 0, 0, 0, 0, 0, 0, 0, 0, 0, number];
    let mut aad = prefix.to_vec(rt.alloc()).expect(rt, "a prefix");
    add(rt, &mut aad, &[number, 0, 0, 0]);
    assert!(rt; part.len() < 1000);
    let block = wrap_key(rt.alloc(), &key, &nonce, aad.as_slice(), part).expect(rt, "a block");
    add(rt, bytes, block.as_slice());
}

/// A header and the blocks of these numbers and parts.
pub(crate) fn file(
    rt: &(impl Abort + AllocGlobal),
    block_length: u32,
    parts: &[(u8, &[u8])],
) -> Vec<u8> {
    let mut bytes = b"AGS1".to_vec(rt.alloc()).expect(rt, "a magic");
    add(rt, &mut bytes, &block_length.to_le_bytes());
    for (number, part) in parts {
        seal(rt, &mut bytes, b"", *number, part);
    }
    bytes
}

/// Key metadata with `KEY`, no prefix and no length.
pub(crate) fn meta(rt: &(impl Abort + AllocGlobal)) -> KeyMeta {
    KeyMeta::new(rt.alloc(), &KEY, None, None).expect(rt, "key metadata")
}

/// The key 0, 1, 2 and so on, with the first nonce bytes 0 to 7.
pub(crate) fn file_key(rt: &(impl Abort + AllocGlobal), size: KeySize, count: u8) -> FileKey {
    let mut drawn = numbers(rt, count);
    for number in 0..8u8 {
        push(rt, &mut drawn, number);
    }
    let mut draws = ByteDraws::new(Bytes::from_vec(drawn), Vec::new(rt.alloc()));
    FileKey::draw(&mut draws, size).expect(rt, "a key")
}

/// A store that holds these bytes at a path; the calls of the plan fail.
pub(crate) fn store_of(
    rt: &(impl Abort + AllocGlobal),
    name: &str,
    object: &[u8],
    plan: Vec<(u64, bool)>,
) -> MemStore {
    let mut store = MemStore::new(rt.alloc(), plan);
    store
        .set(path(rt, name), bytes(rt, object))
        .expect(rt, "room");
    store
}

/// Opens the stream and reads it whole into a buffer of sevens: checks the answer, and the buffer, which
/// begins with `front` and has zeros behind it.
pub(crate) fn check(
    rt: &(impl Abort + AllocGlobal),
    object: &[u8],
    length: u64,
    answer: Result<(), StreamFault>,
    front: &[u8],
) {
    let mut store = store_of(rt, "data/x", object, Vec::new(rt.alloc()));
    let opened = Stream::open(
        rt.alloc(),
        &mut store,
        &path(rt, "data/x"),
        &meta(rt),
        length,
    );
    match opened {
        Err(fault) => {
            assert!(rt; Err(fault) == answer);
            assert!(rt; front.is_empty());
        }
        Ok(mut stream) => {
            let mut out = vec![in rt.alloc(); 7; stream.plain_length() as usize].expect(rt, "room");
            assert!(rt; stream.read_at(&mut store, 0, out.as_mut_slice()) == answer);
            assert!(rt; out.len() >= front.len());
            assert!(rt; &out.as_slice()[..front.len()] == front);
            for byte in &out.as_slice()[front.len()..] {
                assert!(rt; *byte == 0);
            }
            // Block 0 opened, so it is read again after a refusal.
            let again = front.len().min(1);
            assert!(rt; again <= out.len());
            assert!(rt; stream.read_at(&mut store, 0, &mut out[..again]).is_ok());
        }
    }
}
