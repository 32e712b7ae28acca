//! Input, output, random bytes and a reader in memory, which tell their bytes; for tests and for
//! output that is kept. A call fails where its number, from 0, is in the list `fails`.
ghost use Rattle.std.specs.Prelude.{◌≡◌, ◌≤◌, ◌<◌, ◌/◌, ◌++◌, [], List, ℕ, length, take, drop, min, map, Option, Some, IsErr, OnErr, OnOk, refl};

use crate::byte_list::Bytes;
use crate::reading::ReadAt;
use crate::storage::Failed;
use crate::transfer::{Draws, Sink, Source};
use std::alloc::Global;
use std::convert::Infallible;

/// Which call comes next, which calls are to fail, and how many failed.
#[derive(Debug, Drop)]
struct Calls {
    fails: Vec<u64>,
    next: u64,
    faults: u64,
}

impl Calls {
    ghost use Rattle.std.specs.Prelude.{◌≡◌, ◌≤◌, List};
    ghost use Rattle.icb_base.specs.Causes.{Rose};
    ghost use Rattle.icb_base.specs.Counts.{raised};
    ghost use Rattle.icb_base.specs.MemoryCalls.{fails_next};

    /// No call yet, with this list.
    fn new(fails: Vec<u64>) -> Self
        ensures { result ≡ record { fails = fails; next = 0; faults = 0 } }
    {
        Calls {
            fails,
            next: 0,
            faults: 0,
        }
    }

    /// Counts a call, and says whether it is to fail.
    fn begin(&mut self) -> bool
        ensures listed { result ≡ fails_next self.old }
        ensures counted { self.new ≡ record self.old { next = raised self.old.next 1 } }
    {
        let call = self.next;
        self.next = call.saturating_add(1);
        self.fails.as_slice().contains(&call)
    }

    /// Counts a failure.
    fn fail(&mut self) -> Failed
        ensures counted { self.new ≡ record self.old { faults = raised self.old.faults 1 } }
        ensures later { self.old.faults ≤ self.new.faults }
        ensures rose { Rose self.old.faults self.new.faults }
    {
        self.faults = self.faults.saturating_add(1);
        Failed
    }
}

/// Input in memory. A read gives at most `piece` bytes.
#[derive(Debug, Drop)]
pub struct MemSource {
    bytes: Bytes,
    place: usize,
    piece: usize,
    calls: Calls,
    ghost gives_some: { 1 ≤ piece },
    ghost in_bytes: { place ≤ length bytes },
}

impl MemSource {
    /// Input of these bytes, of which a read gives at most `piece`. It takes no memory.
    pub fn new(bytes: Bytes, piece: usize, fails: Vec<u64>) -> Self
        requires { 1 ≤ piece }
        ensures left { drop result.place result.bytes ≡ bytes }
        ensures piece { result.piece ≡ piece }
        ensures calls { result.calls ≡ record { fails = fails; next = 0; faults = 0 } }
    {
        MemSource {
            bytes,
            place: 0,
            piece,
            calls: Calls::new(fails),
        }
    }
}

impl Source for MemSource {
    ghost use Rattle.std.specs.Prelude.{◌≡◌, ◌≤◌, ◌↔◌, List, ℕ, length, drop, Option, Some, IfOk, IsErr, IsTrue};
    ghost use Rattle.icb_base.specs.Causes.{HasCause};
    ghost use Rattle.icb_base.specs.MemoryCalls.{CountsCall, fails_next};
    ghost use Rattle.icb_base.specs.Transfers.{TakesFront};

    ghost left = { λ s. Some (drop s.place s.bytes) };

    ghost faults = { λ s. s.calls.faults };

    fn read(&mut self, out: &mut [u8]) -> Result<usize, Failed>
        ensures count { IfOk result (λ n. n ≤ length out.new) }
        ensures at_most_a_piece { IfOk result (λ n. n ≤ self.old.piece) }
        ensures taken { TakesFront (drop self.old.place self.old.bytes) out.old out.new
            (Some (drop self.new.place self.new.bytes)) result }
        ensures cause { HasCause self.old.calls.faults self.new.calls.faults result }
        ensures fails_as_listed { IsErr result ↔ IsTrue (fails_next self.old.calls) }
        ensures call { CountsCall self.old.calls self.new.calls
            × (self.new.piece ≡ self.old.piece) }
    {
        if self.calls.begin() {
            return Err(self.calls.fail());
        }
        let rest = &self.bytes.as_slice()[self.place..];
        let count = out.len().min(self.piece).min(rest.len());
        out[..count].copy_from_slice(&rest[..count]);
        self.place += count;
        Ok(count)
    }
}

/// Output in memory. A failing write appends the first half of its piece, rounded down; want of
/// memory fails too.
#[derive(Debug, Drop)]
pub struct MemSink {
    bytes: Vec<u8>,
    calls: Calls,
}

impl MemSink {
    /// Empty output. It takes no memory, and keeps the allocator for when it grows.
    pub fn new(alloc: Global, fails: Vec<u64>) -> Self
        ensures empty { result.bytes.items ≡ [] }
        ensures calls { result.calls ≡ record { fails = fails; next = 0; faults = 0 } }
    {
        MemSink {
            bytes: Vec::new(alloc),
            calls: Calls::new(fails),
        }
    }

    /// All that was written.
    pub fn written(&self) -> &[u8]
        ensures { result.now ≡ self.now.bytes.items }
    {
        self.bytes.as_slice()
    }
}

impl Sink for MemSink {
    ghost use Rattle.std.specs.Prelude.{◌≡◌, ◌/◌, ◌++◌, ◌⊎◌, length, take, List, ℕ, Option, Some, IsErr, IsTrue};
    ghost use Rattle.icb_base.specs.Causes.{HasCause};
    ghost use Rattle.icb_base.specs.MemoryCalls.{CountsCall, fails_next};
    ghost use Rattle.icb_base.specs.Transfers.{Writes};

    ghost written = { λ s. Some s.bytes.items };

    ghost faults = { λ s. s.calls.faults };

    fn write(&mut self, bytes: &[u8]) -> Result<(), Failed>
        ensures appended { Writes self.old.bytes.items bytes.now
            (Some self.new.bytes.items) result }
        ensures cause { HasCause self.old.calls.faults self.new.calls.faults result }
        ensures fails_where_listed { IsTrue (fails_next self.old.calls) → IsErr result }
        ensures half { IsErr result → (self.new.bytes.items
            ≡ self.old.bytes.items ++ take (length bytes.now / 2) bytes.now)
            ⊎ (self.new.bytes.items ≡ self.old.bytes.items) }
        ensures call { CountsCall self.old.calls self.new.calls }
    {
        if self.calls.begin() {
            let _ = self.bytes.extend_from_slice(&bytes[..bytes.len() / 2]);
            return Err(self.calls.fail());
        }
        if self.bytes.extend_from_slice(bytes).is_err() {
            return Err(self.calls.fail());
        }
        Ok(())
    }
}

/// Given bytes in the place of random ones. A call that asks for more than are left fails.
#[derive(Debug, Drop)]
pub struct ByteDraws {
    bytes: Bytes,
    place: usize,
    calls: Calls,
    ghost in_bytes: { place ≤ length bytes },
}

impl ByteDraws {
    /// Gives these bytes in order. It takes no memory.
    pub fn new(bytes: Bytes, fails: Vec<u64>) -> Self
        ensures none_drawn { take result.place result.bytes ≡ [] }
        ensures left { drop result.place result.bytes ≡ bytes }
        ensures calls { result.calls ≡ record { fails = fails; next = 0; faults = 0 } }
    {
        ByteDraws {
            bytes,
            place: 0,
            calls: Calls::new(fails),
        }
    }
}

impl Draws for ByteDraws {
    ghost use Rattle.std.specs.Prelude.{◌≡◌, ◌<◌, ◌-◌, ◌↔◌, ◌⊎◌, List, ℕ, length, take, Option, Some, IsErr, IsTrue};
    ghost use Rattle.icb_base.specs.Causes.{HasCause};
    ghost use Rattle.icb_base.specs.MemoryCalls.{CountsCall, fails_next};
    ghost use Rattle.icb_base.specs.Transfers.{Fills};

    ghost drawn = { λ s. Some (take s.place s.bytes) };

    ghost faults = { λ s. s.calls.faults };

    fn fill(&mut self, out: &mut [u8]) -> Result<(), Failed>
        ensures filled { Fills (take self.old.place self.old.bytes) out.old out.new
            (Some (take self.new.place self.new.bytes)) result }
        ensures cause { HasCause self.old.calls.faults self.new.calls.faults result }
        ensures fails_as_listed { IsErr result ↔ (IsTrue (fails_next self.old.calls)
            ⊎ (length self.old.bytes - self.old.place < length out.old)) }
        ensures call { CountsCall self.old.calls self.new.calls }
    {
        if self.calls.begin() {
            return Err(self.calls.fail());
        }
        let rest = &self.bytes.as_slice()[self.place..];
        if rest.len() < out.len() {
            return Err(self.calls.fail());
        }
        out.copy_from_slice(&rest[..out.len()]);
        self.place += out.len();
        Ok(())
    }
}

/// A reader of bytes in memory, all of which are there. Its fault never comes.
#[derive(Debug, Drop)]
pub struct SliceReader<'a> {
    bytes: &'a [u8],
}

impl<'a> SliceReader<'a> {
    /// A reader of these bytes.
    pub fn new(bytes: &'a [u8]) -> Self
        ensures { result.bytes.now ≡ bytes.now }
    {
        SliceReader { bytes }
    }
}

impl ReadAt for SliceReader<'_> {
    ghost use Rattle.std.specs.Prelude.{◌≡◌, List, ℕ, length, map, Option, Some, refl};
    ghost use Rattle.std.proofs.Common.{◌∙◌, ap, sym};
    ghost use Rattle.std.proofs.lemmas.List.{length-map};

    type Fault = Infallible;

    ghost content = { λ s known. known ≡ map Some s.bytes.now };

    ghost size = { λ s. length s.bytes.now };

    ghost keeps = { λ x y. y.bytes.now ≡ x.bytes.now };

    ghost calm = { λ x y. Unit {0} };

    ghost blames = { λ x y e. ⊥ };

    ghost known_size = { λ x known is. ap length is ∙ length-map x.bytes.now Some };

    ghost kept_at_rest = { λ x. refl };

    ghost kept_twice = { λ x y z first second. second ∙ first };

    ghost calm_at_rest = { λ x. tt };

    ghost calm_twice = { λ x y z first second. tt };

    ghost blamed_since = { λ x y z e kept calm blamed. blamed };

    fn length(&self) -> u64 {
        self.bytes.len() as u64
    }

    fn read_at(&mut self, at: u64, out: &mut [u8]) -> Result<(), Infallible> {
        let at = at as usize;
        out.copy_from_slice(&self.bytes[at..at + out.len()]);
        Ok(())
    }
}
