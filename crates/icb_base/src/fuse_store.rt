//! A store that stops: it passes so many calls on to another one, and then fails every call.
ghost use Rattle.std.specs.Prelude.{◌≡◌, ◌-◌, if◌then◌else◌, nat_lt};
ghost use Rattle.icb_base.specs.Counts.{raised};

use crate::object_path::ObjPath;
use crate::storage::{Failed, Put, Remover, Store};

/// A store over another one, which passes so many calls on to it and then fails every call without
/// passing it on. What it holds and counts is what the other one holds and counts, and its faults are the
/// other one's and the calls that it refused.
#[derive(Debug, Drop)]
pub struct FuseStore<'a, S: Store> {
    inner: &'a mut S,
    left: u64,
    refused: u64,
}

impl<'a, S: Store> FuseStore<'a, S> {
    /// The store that passes this many calls on. It takes no memory.
    pub fn new(inner: &'a mut S, calls: u64) -> Self
        ensures same_store { result.inner.ghost_name ≡ inner.entry.ghost_name }
        ensures inner { result.inner.now ≡ inner.old }
        ensures left { result.left ≡ calls }
        ensures refused { result.refused ≡ 0 }
    {
        FuseStore {
            inner,
            left: calls,
            refused: 0,
        }
    }

    /// Whether the next call is passed on, which is counted, or is refused, which is counted too.
    fn passes(&mut self) -> bool
        ensures passes { result ≡ nat_lt 0 self.old.left }
        ensures left { self.new.left ≡ self.old.left - 1 }
        ensures refused { self.new.refused
            ≡ (if result then self.old.refused else raised self.old.refused 1) }
        ensures same_store { self.new.inner.ghost_name ≡ self.old.inner.ghost_name }
        ensures inner { self.new.inner.now ≡ self.old.inner.now }
    {
        if self.left == 0 {
            self.refused = self.refused.saturating_add(1);
            return false;
        }
        self.left -= 1;
        true
    }
}

impl<S: Store> Store for FuseStore<'_, S> {
    ghost use Rattle.std.specs.Prelude.{◌≡◌, ◌+◌, ◌-◌, ◌^◌, min, refl, IsErr};
    ghost use Rattle.std.proofs.Common.{◌∙◌};
    ghost use Rattle.icb_base.specs.Answers.{AnswersPut, AnswersRead, AnswersSize};
    ghost use Rattle.icb_base.specs.Fuse.{PassesOn, shown_through};

    ghost held = { λ f. S.held f.inner.now };

    ghost asked = { λ f. S.asked f.inner.now };

    ghost moved = { λ f. S.moved f.inner.now };

    ghost faults = { λ f. min (S.faults f.inner.now + f.refused) (2 ^ 64 - 1) };

    ghost keeps = { λ f g. (g.inner.ghost_name ≡ f.inner.ghost_name)
        × S.keeps f.inner.now g.inner.now };

    ghost unasked = { λ f. S.unasked f.inner.now };

    ghost unmoved = { λ f. S.unmoved f.inner.now };

    ghost kept_at_rest = { λ f. (refl, S.kept_at_rest f.inner.now) };

    ghost kept_twice = { λ f g h first second. (
      second.0 ∙ first.0,
      S.kept_twice f.inner.now g.inner.now h.inner.now first.1 second.1,
    ) };

    fn size(&mut self, path: &ObjPath) -> Result<Option<u64>, Failed>
        ensures answers { AnswersSize path.now result
            (shown_through S.Store self.old) (shown_through S.Store self.new) }
        ensures passes { PassesOn S.Store (IsErr result) self.old self.new }
    {
        if !self.passes() {
            return Err(Failed);
        }
        self.inner.size(path)
    }

    fn read_at(&mut self, path: &ObjPath, at: u64, out: &mut [u8]) -> Result<Option<usize>, Failed>
        ensures answers { AnswersRead path.now at out.old out.new result
            (shown_through S.Store self.old) (shown_through S.Store self.new) }
        ensures passes { PassesOn S.Store (IsErr result) self.old self.new }
    {
        if !self.passes() {
            return Err(Failed);
        }
        self.inner.read_at(path, at, out)
    }

    fn put_new(&mut self, path: &ObjPath, bytes: &[u8]) -> Result<Put, Failed>
        ensures answers { AnswersPut path.now bytes.now result
            (shown_through S.Store self.old) (shown_through S.Store self.new) }
        ensures passes { PassesOn S.Store (IsErr result) self.old self.new }
    {
        if !self.passes() {
            return Err(Failed);
        }
        self.inner.put_new(path, bytes)
    }
}

impl<S: Remover> Remover for FuseStore<'_, S> {
    ghost use Rattle.std.specs.Prelude.{IsErr};
    ghost use Rattle.icb_base.specs.Answers.{AnswersRemoval};
    ghost use Rattle.icb_base.specs.Fuse.{PassesOn, shown_through};

    fn remove(&mut self, path: &ObjPath) -> Result<bool, Failed>
        ensures answers { AnswersRemoval path.now result
            (shown_through S.Store self.old) (shown_through S.Store self.new) }
        ensures passes { PassesOn S.Store (IsErr result) self.old self.new }
    {
        if !self.passes() {
            return Err(Failed);
        }
        self.inner.remove(path)
    }
}
