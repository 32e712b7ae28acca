//! A store of objects that never change: their size, their bytes at a place, and a new one put.
ghost use Rattle.std.specs.Prelude.{◌≡◌, ◌≤◌, List, ℕ, length, Option, IfOk, IfSome, option_map};
ghost use Rattle.icb_base.specs.Causes.{HasCause};
ghost use Rattle.icb_base.specs.Counts.{IsCounted, IsUncounted, Uncounts};
ghost use Rattle.icb_base.specs.Objects.{Objects, object_at, Puts, Reads, Removes};

use crate::object_path::ObjPath;

/// A call of the outside failed. Which count rose tells whose fault it is.
#[derive(Clone, Copy, Debug, PartialEq, Eq)]
pub struct Failed;

/// What `put_new` did.
#[derive(Clone, Copy, Debug, PartialEq, Eq)]
pub enum Put {
    /// The object is held now.
    Done,
    /// An object was held at the path already, and nothing changed.
    Taken,
}

/// Objects by path. An object never changes once it is put.
///
/// A store may tell what it holds; it then also tells how often it was asked for each path, and how
/// many bytes it moved there. What is said of contents and counts of calls holds where it tells.
pub trait Store {
    /// What is held, where the store tells it.
    ghost held: { Self → Option Objects };

    /// How many calls asked for a path since its object was put.
    ghost asked: { Self → List ℕ → ℕ };

    /// How many bytes reads of a path asked for; a put that finds it taken counts one.
    ghost moved: { Self → List ℕ → ℕ };

    /// How often the store failed, up to 2^64 - 1.
    ghost faults: { Self → ℕ };

    /// What every call leaves as it was; a store over another one says that it is the same one.
    ghost keeps: { Self → Self → Type 0 } = { λ _ _. Unit {0} };

    /// The length of an object in bytes, or None where nothing is held at the path.
    fn size(&mut self, path: &ObjPath) -> Result<Option<u64>, Failed>
        ensures size { IfSome (held self.old) (λ files.
            IfOk result (λ size. size ≡ option_map length (object_at files path.now))) }
        ensures same { held self.new ≡ held self.old }
        ensures counted { IfSome (held self.old) (λ files.
            IsCounted files path.now 1 result (asked self.old) (asked self.new)) }
        ensures moved_none { IfSome (held self.old) (λ files.
            IsCounted files path.now 0 result (moved self.old) (moved self.new)) }
        ensures cause { HasCause (faults self.old) (faults self.new) result }
        ensures kept { keeps self.old self.new };

    /// Puts bytes of the object from the place `at` on in front of `out` and says how many: all that
    /// `out` has room for, fewer where the object ends, 0 past its end. None where nothing is held.
    fn read_at(&mut self, path: &ObjPath, at: u64, out: &mut [u8]) -> Result<Option<usize>, Failed>
        ensures count { IfOk result (λ answer. IfSome answer (λ n. n ≤ length out.new)) }
        ensures read { IfSome (held self.old) (λ files.
            IfOk result (Reads (object_at files path.now) at out.old out.new)) }
        ensures same { held self.new ≡ held self.old }
        ensures counted { IfSome (held self.old) (λ files.
            IsCounted files path.now 1 result (asked self.old) (asked self.new)) }
        ensures moved { IfSome (held self.old) (λ files.
            IsCounted files path.now (length out.old) result (moved self.old) (moved self.new)) }
        ensures cause { HasCause (faults self.old) (faults self.new) result }
        ensures kept { keeps self.old self.new };

    /// Puts an object where none is held. A put that fails leaves the old state or the whole object.
    fn put_new(&mut self, path: &ObjPath, bytes: &[u8]) -> Result<Put, Failed>
        ensures puts { IfSome (held self.old) (λ files.
            Puts files path.now bytes.now (held self.new) result) }
        ensures counted { IfSome (held self.old) (λ files.
            IsCounted files path.now 1 result (asked self.old) (asked self.new)) }
        ensures moved_one { IfSome (held self.old) (λ files.
            IsCounted files path.now 1 result (moved self.old) (moved self.new)) }
        ensures cause { HasCause (faults self.old) (faults self.new) result }
        ensures kept { keeps self.old self.new };

    /// Where nothing is held nothing was counted, so a new object starts at 0.
    ghost unasked: { (store : Self) → IfSome (held store) (λ files. IsUncounted files (asked store)) };

    /// The same of the bytes moved.
    ghost unmoved: { (store : Self) → IfSome (held store) (λ files. IsUncounted files (moved store)) };

    /// No call keeps everything.
    ghost kept_at_rest: { (x : Self) → keeps x x };

    /// Two calls in a row keep what each of them keeps.
    ghost kept_twice: { (x y z : Self) → keeps x y → keeps y z → keeps x z };
}

/// A store that can take objects away. What was counted of a removed object goes with it.
pub trait Remover: Store {
    /// Takes the object at a path away, and says whether one was held there. A removal that fails leaves
    /// the old state, or the state without that object.
    fn remove(&mut self, path: &ObjPath) -> Result<bool, Failed>
        ensures removes { IfSome (Self.held self.old) (λ files.
            Removes files path.now (Self.held self.new) result) }
        ensures counted { IfSome (Self.held self.old) (λ files. Uncounts files path.now 1
            (Self.held self.new) (Self.asked self.old) (Self.asked self.new)) }
        ensures moved_none { IfSome (Self.held self.old) (λ files. Uncounts files path.now 0
            (Self.held self.new) (Self.moved self.old) (Self.moved self.new)) }
        ensures cause { HasCause (Self.faults self.old) (Self.faults self.new) result }
        ensures kept { Self.keeps self.old self.new };
}
