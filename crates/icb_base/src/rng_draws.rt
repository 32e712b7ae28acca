//! A generator of `rand_core` as random bytes.
ghost use Rattle.std.specs.Prelude.{◌≡◌};

use crate::storage::Failed;
use crate::transfer::Draws;
use rand_core::Rng;

/// The next bytes of a generator, which never fails. It doesn't tell what it gave, and takes no memory.
#[derive(Drop)]
pub struct RngDraws<R: Rng + Drop> {
    rng: R,
}

impl<R: Rng + Drop> RngDraws<R> {
    /// The bytes that the generator gives from now on.
    pub fn new(rng: R) -> Self
        ensures { result.rng ≡ rng }
    {
        RngDraws { rng }
    }
}

impl<R: Rng + Drop> Draws for RngDraws<R> {
    ghost use Rattle.std.specs.Prelude.{◌≡◌, length, None, IsOk};
    ghost use Rattle.rand_core.specs.Stream.{fill_bytes};

    ghost drawn = { λ _. None };

    ghost faults = { λ _. 0 };

    fn fill(&mut self, out: &mut [u8]) -> Result<(), Failed>
        ensures never_fails { IsOk result }
        ensures next_bytes { (out.new, R.stream self.new.rng)
            ≡ fill_bytes (length out.old) (R.stream self.old.rng) }
    {
        self.rng.fill_bytes(out);
        Ok(())
    }
}
