//! Which texts are object paths.

use icb_base::{ObjPath, PathFault};
use std::process::Abort;

/// Whether the text is read as a path, which then has this text, and its copy too.
fn is_path(rt: &(impl Abort + AllocGlobal), text: &[u8]) -> bool {
    match ObjPath::read(rt.alloc(), text) {
        Ok(path) => {
            let copy = path.copy(rt.alloc()).expect(rt, "a copy");
            assert!(rt; copy.as_str().as_bytes() == text);
            true
        }
        Err(fault) => !matches!(fault, PathFault::BadPath),
    }
}

#[test]
fn which_texts_are_object_paths(rt: HostRuntime) {
    let long = [b'a'; 1001];
    let good: [&[u8]; 5] = [
        b"data/x",
        b"data/d=2024-01-01/x.avro",
        b"a_b+c%20",
        b"...",
        &long[..1000],
    ];
    for text in good {
        assert!(rt; is_path(&rt, text), "{text:?}");
    }
    let bad: [&[u8]; 9] = [
        b"",
        b"/a",
        b"a/",
        b"a//b",
        b".",
        b"a/../b",
        b"a b",
        b"\xc3\xa9",
        &long,
    ];
    for text in bad {
        assert!(rt; !is_path(&rt, text), "{text:?}");
    }
}
