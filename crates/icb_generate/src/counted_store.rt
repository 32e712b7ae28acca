//! A store that counts the objects that are put into another one.
ghost use Rattle.std.specs.Prelude.{◌≡◌, ◌≤◌, ◌+◌, ◌-◌, ◌^◌, min};

use icb_base::{Failed, ObjPath, Put, Store};

/// A store over another one, to which it passes every call on. It counts the objects that it put, and
/// its faults are the calls that failed since it was made.
#[derive(Debug, Drop)]
pub struct CountedStore<'a, S: Store> {
    inner: &'a mut S,
    puts: u64,
    failures: u64,
}

impl<'a, S: Store> CountedStore<'a, S> {
    /// A store that has counted nothing yet. It takes no memory.
    pub fn new(inner: &'a mut S) -> Self
        ensures same_store { result.inner.ghost_name ≡ inner.entry.ghost_name }
        ensures inner { result.inner.now ≡ inner.old }
        ensures puts { result.puts ≡ 0 }
        ensures failures { result.failures ≡ 0 }
    {
        CountedStore {
            inner,
            puts: 0,
            failures: 0,
        }
    }

    /// How many objects were put, up to 2^64 - 1.
    pub fn puts(&self) -> u64
        ensures { result ≡ self.now.puts }
    {
        self.puts
    }

    /// Counts an object.
    fn count(&mut self) -> Put
        ensures done { result ≡ Put.Done }
        ensures fits { self.old.puts ≤ 2 ^ 64 - 1 }
        ensures puts { self.new.puts ≡ min (self.old.puts + 1) (2 ^ 64 - 1) }
        ensures failures { self.new.failures ≡ self.old.failures }
        ensures same_store { self.new.inner.ghost_name ≡ self.old.inner.ghost_name }
        ensures inner { self.new.inner.now ≡ self.old.inner.now }
    {
        self.puts = self.puts.saturating_add(1);
        Put::Done
    }

    /// Counts a call that failed.
    fn fail(&mut self) -> Failed
        ensures fits { self.old.failures ≤ 2 ^ 64 - 1 }
        ensures failures { self.new.failures ≡ min (self.old.failures + 1) (2 ^ 64 - 1) }
        ensures puts { self.new.puts ≡ self.old.puts }
        ensures same_store { self.new.inner.ghost_name ≡ self.old.inner.ghost_name }
        ensures inner { self.new.inner.now ≡ self.old.inner.now }
    {
        self.failures = self.failures.saturating_add(1);
        Failed
    }
}

impl<S: Store> Store for CountedStore<'_, S> {
    ghost use Rattle.std.specs.Prelude.{◌≡◌, refl};
    ghost use Rattle.std.proofs.Common.{◌∙◌};
    ghost use Rattle.icb_generate.specs.Counting.{Counts};
    ghost use Rattle.icb_generate.specs.CountingLaws.{counts_at_rest, counts_twice};

    ghost held = { λ c. S.held c.inner.now };

    ghost asked = { λ c. S.asked c.inner.now };

    ghost moved = { λ c. S.moved c.inner.now };

    ghost faults = { λ c. c.failures };

    ghost keeps = { λ c d. (d.inner.ghost_name ≡ c.inner.ghost_name)
        × S.keeps c.inner.now d.inner.now
        × Counts
        (record { held = S.held c.inner.now; faults = S.faults c.inner.now; puts = c.puts; failures = c.failures })
        (record { held = S.held d.inner.now; faults = S.faults d.inner.now; puts = d.puts; failures = d.failures }) };

    ghost unasked = { λ c. S.unasked c.inner.now };

    ghost unmoved = { λ c. S.unmoved c.inner.now };

    ghost kept_at_rest = { λ c. (
      refl,
      S.kept_at_rest c.inner.now,
      counts_at_rest _,
    ) };

    ghost kept_twice = { λ c d e first second. (
      second.0 ∙ first.0,
      S.kept_twice c.inner.now d.inner.now e.inner.now first.1 second.1,
      counts_twice _ _ _ first.2 second.2,
    ) };

    fn size(&mut self, path: &ObjPath) -> Result<Option<u64>, Failed> {
        match self.inner.size(path) {
            Ok(size) => Ok(size),
            Err(Failed) => Err(self.fail()),
        }
    }

    fn read_at(
        &mut self,
        path: &ObjPath,
        at: u64,
        out: &mut [u8],
    ) -> Result<Option<usize>, Failed> {
        match self.inner.read_at(path, at, out) {
            Ok(count) => Ok(count),
            Err(Failed) => Err(self.fail()),
        }
    }

    fn put_new(&mut self, path: &ObjPath, bytes: &[u8]) -> Result<Put, Failed> {
        match self.inner.put_new(path, bytes) {
            Ok(Put::Done) => Ok(self.count()),
            Ok(Put::Taken) => Ok(Put::Taken),
            Err(Failed) => Err(self.fail()),
        }
    }
}
