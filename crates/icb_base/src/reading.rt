//! A file of a known length that is read at any place, and of which some bytes may not be there.
ghost use Rattle.std.specs.Prelude.{◌≡◌, ◌+◌, ◌≤◌, List, ℕ, length, Option, IfErr, OnOk};
ghost use Rattle.icb_base.specs.Contents.{HasPart};

/// Bytes that are read at a place.
///
/// What is known of them is a predicate, since for a stream over a store a value can't test whether
/// the stream belongs to what the store holds. Each clause on content is for every list of known bytes.
pub trait ReadAt {
    /// Why a read may be refused.
    type Fault;

    /// This may be the content: for each place a byte, or none where it isn't there.
    ghost content: { Self → List (Option ℕ) → Type 0 };

    /// How many bytes there are.
    ghost size: { Self → ℕ };

    /// What a read leaves as it was.
    ghost keeps: { Self → Self → Type 0 };

    /// No call of the outside failed in between.
    ghost calm: { Self → Self → Type 0 };

    /// What a fault says of the reader before and after the read.
    ghost blames: { Self → Self → Self.Fault → Type 0 };

    /// How many bytes there are.
    fn length(&self) -> u64
        ensures { result ≡ size self.now };

    /// Fills `out` with the bytes from the place `at` on, all of which are there, or is refused; what
    /// `out` then has is said by each reader.
    fn read_at(&mut self, at: u64, out: &mut [u8]) -> Result<(), Self::Fault>
        requires { at + length out.old ≤ size self.old }
        ensures bytes { OnOk result ((known : List (Option ℕ)) → content self.old known
            → HasPart known at out.new) }
        ensures same { (known : List (Option ℕ)) → content self.old known → content self.new known }
        ensures same_size { size self.new ≡ size self.old }
        ensures kept { keeps self.old self.new }
        ensures calm { OnOk result (calm self.old self.new) }
        ensures fault { IfErr result (blames self.old self.new) };

    /// A content speaks of as many places as there are bytes.
    ghost known_size: { (x : Self) (known : List (Option ℕ)) → content x known → length known ≡ size x };

    /// No read keeps everything.
    ghost kept_at_rest: { (x : Self) → keeps x x };

    /// Two reads in a row keep what each of them keeps.
    ghost kept_twice: { (x y z : Self) → keeps x y → keeps y z → keeps x z };

    /// Without a read no call failed.
    ghost calm_at_rest: { (x : Self) → calm x x };

    /// Where no call failed in two reads in a row none failed in both.
    ghost calm_twice: { (x y z : Self) → calm x y → calm y z → calm x z };

    /// A fault of a later read says the same of all that came since an earlier moment, where no call
    /// failed between that moment and the read.
    ghost blamed_since: { (x y z : Self) (e : Self.Fault) → keeps x y → calm x y → blames y z e
        → blames x z e };
}
