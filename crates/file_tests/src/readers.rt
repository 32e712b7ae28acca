//! Readers at a place: over bytes in memory, over a front of a file, and over an object of any store. Each
//! meets the contract of `ReadAt`.
ghost use Rattle.std.specs.Prelude.{◌≡◌, ◌≤◌, ◌<◌, ◌+◌, ◌^◌, length, OnOk};

use crate::callers::{lasts, starts};
use crate::helpers::path;
use icb_base::{Failed, MemStore, ObjPath, Put, ReadAt, SliceReader, Store};

/// The bytes that are asked for aren't all there.
#[derive(Clone, Copy, Debug, PartialEq, Eq)]
struct Gap;

/// A file of which only a front is there.
#[derive(Debug, Drop)]
struct FrontReader<'a> {
    front: &'a [u8],
    missing: u64,
    ghost fits: { length front.now + missing < 2 ^ 64 },
}

impl ReadAt for FrontReader<'_> {
    ghost use Rattle.std.specs.Prelude.{◌≡◌, ◌≤◌, ◌+◌, List, ℕ, length, take, drop, refl};
    ghost use Rattle.std.proofs.Common.{◌∙◌};
    ghost use Rattle.icb_base.specs.Contents.{HasPart};

    type Fault = Gap;

    ghost content = { λ s known. (length known ≡ length s.front.now + s.missing)
        × ((at : ℕ) (part : List ℕ) → at + length part ≤ length s.front.now
        → part ≡ take (length part) (drop at s.front.now) → HasPart known at part) };

    ghost size = { λ s. length s.front.now + s.missing };

    ghost keeps = { λ x y. (y.front.now ≡ x.front.now) × (y.missing ≡ x.missing) };

    ghost calm = { λ x y. Unit {0} };

    ghost blames = { λ x y e. Unit {0} };

    ghost known_size = { λ x known is. is.0 };

    ghost kept_at_rest = { λ x. (refl, refl) };

    ghost kept_twice = { λ x y z first second. (second.0 ∙ first.0, second.1 ∙ first.1) };

    ghost calm_at_rest = { λ x. tt };

    ghost calm_twice = { λ x y z first second. tt };

    ghost blamed_since = { λ x y z e kept calm blamed. tt };

    fn length(&self) -> u64 {
        self.front.len() as u64 + self.missing
    }

    fn read_at(&mut self, at: u64, out: &mut [u8]) -> Result<(), Gap> {
        let at = at as usize;
        if self.front.len() < at + out.len() {
            return Err(Gap);
        }
        out.copy_from_slice(&self.front[at..at + out.len()]);
        Ok(())
    }
}

/// Why an object's bytes aren't read.
#[derive(Clone, Copy, Debug, PartialEq, Eq)]
enum ObjectFault {
    /// No object of this length is held.
    Changed,
    /// The store failed.
    Store,
}

/// The bytes of an object, whose store may fail.
#[derive(Debug, Drop)]
struct ObjectReader<'a, S: Store> {
    store: &'a mut S,
    path: &'a ObjPath,
    size: u64,
}

impl<S: Store> ReadAt for ObjectReader<'_, S> {
    ghost use Rattle.std.specs.Prelude.{◌≡◌, List, ℕ, length, map, Option, Some, refl};
    ghost use Rattle.std.proofs.Common.{◌∙◌, ap};
    ghost use Rattle.std.proofs.lemmas.List.{length-map};
    ghost use Rattle.icb_base.specs.Causes.{Blames};
    ghost use Rattle.icb_base.specs.Objects.{Objects, object_at};
    ghost use Rattle.file_tests.specs.declared.readers.ObjectFault.TheVariants as fault;

    type Fault = ObjectFault;

    ghost content = { λ s known. (files : Objects) × (bytes : List ℕ) × (S.held s.store.now ≡ Some files)
        × (object_at files s.path.now ≡ Some bytes) × (length bytes ≡ s.size) × (known ≡ map Some bytes) };

    ghost size = { λ s. s.size };

    ghost keeps = { λ x y. (y.store.ghost_name ≡ x.store.ghost_name) × (y.path.now ≡ x.path.now)
        × (y.size ≡ x.size) × (S.held y.store.now ≡ S.held x.store.now)
        × S.keeps x.store.now y.store.now };

    ghost calm = { λ x y. S.faults y.store.now ≡ S.faults x.store.now };

    ghost blames = { λ x y e. Blames (e ≡ fault.Store) (S.faults x.store.now) (S.faults y.store.now) };

    ghost known_size = { λ x known is. ap length is.5 ∙ length-map is.1 Some ∙ is.4 };

    ghost kept_at_rest = { λ x. (refl, refl, refl, refl, S.kept_at_rest x.store.now) };

    ghost kept_twice = { λ x y z first second. (
      second.0 ∙ first.0,
      second.1 ∙ first.1,
      second.2 ∙ first.2,
      second.3 ∙ first.3,
      S.kept_twice x.store.now y.store.now z.store.now first.4 second.4,
    ) };

    ghost calm_at_rest = { λ x. refl };

    ghost calm_twice = { λ x y z first second. second ∙ first };

    ghost blamed_since = { λ x y z e kept calm blamed. rw (← calm) blamed };

    fn length(&self) -> u64 {
        self.size
    }

    fn read_at(&mut self, at: u64, out: &mut [u8]) -> Result<(), ObjectFault> {
        match self.store.read_at(self.path, at, out) {
            Ok(Some(count)) if count == out.len() => Ok(()),
            Ok(_) => Err(ObjectFault::Changed),
            Err(Failed) => Err(ObjectFault::Store),
        }
    }
}

/// Reads the first bytes of an object twice, and says of the store what two reads do.
fn start_of<S: Store>(
    store: &mut S,
    path: &ObjPath,
    size: u64,
    out: &mut [u8],
) -> Result<(), ObjectFault>
    requires { length out.old ≤ size }
    ensures same { S.held store.new ≡ S.held store.old }
    ensures kept { S.keeps store.old store.new }
    ensures calm { OnOk result (S.faults store.new ≡ S.faults store.old) }
{
    starts(&mut ObjectReader { store, path, size }, out)
}

#[test]
fn a_reader_of_bytes_in_memory(rt: HostRuntime) {
    let mut reader = SliceReader::new(b"abcd");
    assert!(rt; lasts(&reader) == 4);
    let mut out = [0u8; 2];
    assert!(rt; reader.read_at(1, &mut out).is_ok() && out == *b"bc");
    assert!(rt; starts(&mut reader, &mut out).is_ok() && out == *b"ab");
}

#[test]
fn a_reader_that_knows_a_front_refuses_the_rest(rt: HostRuntime) {
    let mut reader = FrontReader {
        front: b"abc",
        missing: 2,
    };
    let mut out = [0u8; 3];
    assert!(rt; reader.length() == 5);
    assert!(rt; reader.read_at(1, &mut out) == Err(Gap));
    assert!(rt; starts(&mut reader, &mut out) == Ok(()) && out == *b"abc");
}

#[test]
fn a_reader_over_an_object_of_a_store(rt: HostRuntime) {
    let mut store = MemStore::new(rt.alloc(), Vec::new(rt.alloc()));
    let path_a = path(&rt, "a");
    assert!(rt; store.put_new(&path_a, b"abcd") == Ok(Put::Done));
    let mut reader = ObjectReader {
        store: &mut store,
        path: &path_a,
        size: 4,
    };
    let mut out = [0u8; 3];
    assert!(rt; starts(&mut reader, &mut out) == Ok(()) && out == *b"abc");
}

#[test]
fn a_reader_whose_store_fails(rt: HostRuntime) {
    let plan = vec![in rt.alloc(); (2u64, false)].expect(&rt, "a plan");
    let mut store = MemStore::new(rt.alloc(), plan);
    let path_a = path(&rt, "a");
    assert!(rt; store.put_new(&path_a, b"abcd") == Ok(Put::Done));
    let mut out = [0u8; 3];
    assert!(rt; start_of(&mut store, &path_a, 4, &mut out) == Ok(()) && out == *b"abc");
    assert!(rt; start_of(&mut store, &path_a, 4, &mut out) == Err(ObjectFault::Store));
    let path_b = path(&rt, "b");
    assert!(rt; start_of(&mut store, &path_b, 4, &mut out) == Err(ObjectFault::Changed));
}
