//! A stream over a store as a reader: what a function says that is generic over readers comes back as
//! facts on the stream and the store.
ghost use Rattle.std.specs.Prelude.{◌≡◌, ◌≤◌, ◌+◌, List, ℕ, Option, length, Err, IfErr, IfSome, OnOk};
ghost use Rattle.icb_base.specs.Causes.{Blames};
ghost use Rattle.icb_base.specs.Contents.{HasPart};
ghost use Rattle.icb_stream.specs.Attached.{IsContent, KeepsBoth};
ghost use Rattle.icb_stream.specs.Layout.{plain_length};

use crate::helpers::path;
use crate::streams::{file, meta, store_of};
use icb_base::{ReadAt, Store};
use icb_stream::{Attached, Stream, StreamFault};

/// Reads two parts, one after the other.
fn reads_twice<R: ReadAt>(
    reader: &mut R,
    at: u64,
    one: &mut [u8],
    two: &mut [u8],
) -> Result<(), R::Fault>
    requires first { at + length one.old ≤ R.size reader.old }
    requires second { length two.old ≤ R.size reader.old }
    ensures parts { OnOk result ((known : List (Option ℕ)) → R.content reader.old known
        → HasPart known at one.new × HasPart known 0 two.new) }
    ensures kept { R.keeps reader.old reader.new }
    ensures calm { OnOk result (R.calm reader.old reader.new) }
    ensures fault { IfErr result (R.blames reader.old reader.new) }
{
    reader.read_at(at, one)?;
    reader.read_at(0, two)
}

/// Reads two parts of a stream over a store.
fn parts_of<S: Store>(
    stream: &mut Stream,
    store: &mut S,
    at: u64,
    one: &mut [u8],
    two: &mut [u8],
) -> Result<(), StreamFault>
    requires first { at + length one.old ≤ plain_length stream.old.layout }
    requires second { length two.old ≤ plain_length stream.old.layout }
    ensures parts { OnOk result ((known : List (Option ℕ))
        → IsContent stream.old (S.held store.old) known
        → HasPart known at one.new × HasPart known 0 two.new) }
    ensures keeps { KeepsBoth S.Store stream.old stream.new store.old store.new }
    ensures count { Blames (result ≡ Err StreamFault.Store) (S.faults store.old)
        (S.faults store.new) }
{
    reads_twice(&mut Attached { stream, store }, at, one, two)
}

#[test]
fn two_parts_of_a_stream(rt: HostRuntime) {
    let mut bytes = file(&rt, 4, &[(0, b"abcd"), (1, b"efgh"), (2, b"ij")]);
    let mut store = store_of(&rt, "data/x", &bytes, Vec::new(rt.alloc()));
    let opened = Stream::open(
        rt.alloc(),
        &mut store,
        &path(&rt, "data/x"),
        &meta(&rt),
        102,
    );
    let mut stream = opened.expect(&rt, "a stream");
    assert!(rt; stream.plain_length() == 10);
    let mut one = [7; 3];
    let mut two = [7; 5];
    assert!(rt; parts_of(&mut stream, &mut store, 7, &mut one, &mut two).is_ok());
    assert!(rt; one == *b"hij" && two == *b"abcde");
    let reader = Attached {
        stream: &mut stream,
        store: &mut store,
    };
    assert!(rt; reader.length() == 10);
    // Block 2 is changed.
    assert!(rt; bytes.len() == 102);
    bytes[101] ^= 1;
    let mut store = store_of(&rt, "data/x", &bytes, Vec::new(rt.alloc()));
    let read = parts_of(&mut stream, &mut store, 6, &mut one, &mut two);
    assert!(rt; read == Err(StreamFault::Block { number: 2 }));
    assert!(rt; parts_of(&mut stream, &mut store, 5, &mut one, &mut two).is_ok());
    assert!(rt; one == *b"fgh" && two == *b"abcde");
}
