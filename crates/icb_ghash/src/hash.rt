//! A hash under way (NIST SP 800-38D, 6.4).

ghost use Rattle.std.specs.Prelude.{◌≡◌, ℕ, ◌+◌, ◌-◌, ◌*◌, ◌/◌, ◌%◌, ◌^◌, ◌<◌, ◌≤◌, ◌++◌, List, [], length, drop, replicate};
ghost use Rattle.std.specs.List.{concat};
ghost use Rattle.icb_ghash.specs.Ghash.{block_of, blocks, ghash, padded, sum_of_powers};
ghost use Rattle.icb_ghash.specs.Sums.{IsSumOf};

use crate::key::HashKey;

/// A hash under way: the message that it has taken in is whole blocks.
#[derive(Drop)]
pub struct Ghash<'a> {
    key: &'a HashKey,
    sum: u128,
}

/// The piece, and zeros up to 16 bytes.
fn zero_padded(piece: &[u8]) -> [u8; 16]
    requires { length piece.now ≤ 16 }
    ensures { result ≡ piece.now ++ replicate (16 - length piece.now) 0 }
{
    let mut block = [0; 16];
    block[..piece.len()].copy_from_slice(piece);
    block
}

impl<'a> Ghash<'a> {
    ghost use Rattle.icb_ghash.specs.Hashing.{Holds};

    /// The hash of nothing yet.
    pub fn new(key: &'a HashKey) -> Ghash<'a>
        ensures { Holds key.now result [] }
    {
        Ghash { key, sum: 0 }
    }

    /// Takes in whole blocks.
    fn add_blocks(&mut self, blocks: &[[u8; 16]])
        ensures { (h : ℕ) (message : List ℕ) → Holds h self.old message
            → Holds h self.new (message ++ concat blocks.now) }
    {
        let sum = self.key.sum_after(self.sum, blocks);
        self.sum = sum;
    }

    /// Takes in the bytes, padded with zeros to whole blocks.
    pub fn update(&mut self, bytes: &[u8])
        ensures { (h : ℕ) (message : List ℕ) → Holds h self.old message
            → Holds h self.new (message ++ padded bytes.now) }
    {
        let (whole, rest) = bytes.as_chunks::<16>();
        self.add_blocks(whole);
        if !rest.is_empty() {
            let last = [zero_padded(rest)];
            self.add_blocks(&last);
        }
    }

    /// The hash of what was taken in.
    pub fn finish(self) -> [u8; 16]
        ensures { (h : ℕ) (message : List ℕ) → Holds h self.entry message
            → result ≡ ghash h message }
    {
        self.sum.to_be_bytes()
    }
}
