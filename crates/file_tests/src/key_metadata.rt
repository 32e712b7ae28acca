//! Key metadata, and lists of bytes.

use icb_base::{Bytes, KeyMeta, KeyMetaFault};
use std::process::Abort;

/// The length that is refused, 0 for want of memory, or none where the key is taken with its parts.
fn key_lengths(rt: &(impl Abort + AllocGlobal), key: &[u8]) -> Option<usize> {
    match KeyMeta::new(rt.alloc(), key, Some(b"data/a"), Some(192)) {
        Ok(meta) => {
            assert!(rt; meta.key() == key && meta.prefix().is_some() && meta.length() == Some(192));
            assert!(rt; meta.with_length(7).length() == Some(7));
            None
        }
        Err(KeyMetaFault::KeyLength { found }) => Some(found),
        Err(KeyMetaFault::NoMemory) => Some(0),
    }
}

#[test]
fn a_key_has_16_24_or_32_bytes(rt: HostRuntime) {
    let zeros = [0u8; 33];
    for found in [0usize, 15, 17, 31, 33] {
        assert!(rt; key_lengths(&rt, &zeros[..found]) == Some(found));
    }
    for found in [16usize, 24, 32] {
        assert!(rt; key_lengths(&rt, &zeros[..found]).is_none());
    }
}

#[test]
fn a_list_of_bytes_grows(rt: HostRuntime) {
    let mut list = Bytes::new(rt.alloc());
    assert!(rt; list.push(7).is_ok() && list.push(9).is_ok());
    let copy = list.copy(rt.alloc()).expect(&rt, "a copy");
    let two: &[u8] = &[7, 9];
    assert!(rt; copy.as_slice() == two);
    assert!(rt; Bytes::from_vec(list.into_vec()).as_slice() == two);
}
