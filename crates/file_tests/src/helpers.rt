//! Values that the tests are made of.

use icb_base::{Bytes, ObjPath};
use std::process::Abort;

/// The object path of a text.
pub(crate) fn path(rt: &(impl Abort + AllocGlobal), text: &str) -> ObjPath {
    ObjPath::read(rt.alloc(), text.as_bytes()).expect(rt, "a path")
}

/// A list of these bytes.
pub(crate) fn bytes(rt: &(impl Abort + AllocGlobal), text: &[u8]) -> Bytes {
    Bytes::from_slice(rt.alloc(), text).expect(rt, "bytes")
}

/// Adds a byte.
pub(crate) fn push(rt: &impl Abort, bytes: &mut Vec<u8>, byte: u8) {
    bytes.push(byte).expect(rt, "room");
}

/// The numbers from 0 up to this one.
pub(crate) fn numbers(rt: &(impl Abort + AllocGlobal), count: u8) -> Vec<u8> {
    let mut bytes = Vec::new(rt.alloc());
    for number in 0..count {
        push(rt, &mut bytes, number);
    }
    bytes
}
