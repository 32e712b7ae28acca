//! What the tests of appends share: a table whose key is sealed by Python's `cryptography`, stores, keyrings,
//! random bytes, and texts.

use icb_append::{Committed, append};
use icb_base::{ByteDraws, Bytes, MemStore, ObjPath};
use icb_chain::Keyring;
use icb_turns::JobFault;
use std::process::Abort;

/// The master.
pub(crate) const RING: &str = "m1=000102030405060708090a0b0c0d0e0f";

/// The number of a call that isn't made.
pub(crate) const NEVER: u64 = u64::MAX;

/// The first version: one column, two rows a data file, and short blocks.
pub(crate) const META: &str =
    r#"{"format-version":3,"table-uuid":"00010203-0405-4607-8809-0a0b0c0d0e0f","location":"file:///table","last-sequence-number":0,"last-updated-ms":4,"last-column-id":1,"schemas":[{"fields":[{"id":1,"name":"n","required":true,"type":"long"}],"schema-id":0}],"current-schema-id":0,"partition-specs":[{"fields":[],"spec-id":0}],"default-spec-id":0,"last-partition-id":999,"sort-orders":[{"fields":[],"order-id":0}],"default-sort-order-id":0,"next-row-id":0,"properties":{"encryption.key-id":"m1","icb.rows-per-file":"2","icb.avro-block":"1","icb.block-length":"64"},"encryption-keys":[{"encrypted-by-id":"m1","encrypted-key-metadata":"AQEBAQEBAQEBAQEBSZfv3fnQXnJ9eFuARh+zXeg9Qmm2IdWmhgDRhiTZIDs=","key-id":"key-1"}]}"#;

/// A text with line feeds in the place of blanks, and one at its end where it isn't empty.
pub(crate) fn lines(rt: &(impl Abort + AllocGlobal), words: &str) -> String {
    let mut text = String::new(rt.alloc());
    for word in words.split(' ') {
        if word != "" {
            text.push_str(word).expect(rt, "room");
            text.push_str("\n").expect(rt, "room");
        }
    }
    text
}

/// The bytes of a text.
pub(crate) fn bytes(rt: &(impl Abort + AllocGlobal), text: &str) -> Bytes {
    Bytes::from_slice(rt.alloc(), text.as_bytes()).expect(rt, "room")
}

/// The path that a text is.
pub(crate) fn path(rt: &(impl Abort + AllocGlobal), text: &str) -> ObjPath {
    ObjPath::read(rt.alloc(), text.as_bytes()).expect(rt, "a path")
}

/// Holds a text at a path.
pub(crate) fn hold(rt: &(impl Abort + AllocGlobal), store: &mut MemStore, at: &str, text: &str) {
    store.set(path(rt, at), bytes(rt, text)).expect(rt, "room");
}

/// A store with a text as the first version, whose call of this number fails, after its put where it is to.
pub(crate) fn table(
    rt: &(impl Abort + AllocGlobal),
    meta: &str,
    fails: u64,
    puts: bool,
) -> MemStore {
    let plan = [(fails, puts)].to_vec(rt.alloc()).expect(rt, "a plan");
    let mut store = MemStore::new(rt.alloc(), plan);
    hold(rt, &mut store, "metadata/v1.metadata.json", meta);
    store
}

/// So many bytes that are drawn, of which no two groups of sixteen are the same.
pub(crate) fn draws(rt: &(impl Abort + AllocGlobal), count: u32) -> ByteDraws {
    let mut drawn = Bytes::new(rt.alloc());
    for at in 0..count {
        let byte = (at % 256 * 7 + at / 256 % 256 * 13 + 3) % 256;
        drawn.push(byte as u8).expect(rt, "room");
    }
    ByteDraws::new(drawn, Vec::new(rt.alloc()))
}

/// A keyring.
pub(crate) fn ring(rt: &(impl Abort + AllocGlobal), lines: &str) -> Keyring {
    Keyring::read(rt.alloc(), lines.as_bytes()).expect(rt, "a keyring")
}

/// What an append of the rows of lines answers at the time 7.
pub(crate) fn answer(
    rt: &(impl Abort + AllocGlobal),
    words: &str,
    store: &mut MemStore,
    draws: &mut ByteDraws,
) -> Result<Committed, JobFault> {
    let text = lines(rt, words);
    let input = bytes(rt, text.as_str());
    append(rt.alloc(), input, store, &ring(rt, RING), draws, 7)
}

/// The part of a row at a place, from 0.
pub(crate) fn part<'t>(rt: &impl Abort, row: &'t str, place: usize) -> &'t str {
    row.split(';').nth(place).expect(rt, "a part")
}

/// The number that a part is.
pub(crate) fn number(rt: &impl Abort, row: &str, place: usize) -> u64 {
    part(rt, row, place)
        .parse::<u64>()
        .ok()
        .expect(rt, "a number")
}
