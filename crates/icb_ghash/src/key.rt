//! A hash key.

ghost use Rattle.std.specs.Prelude.{◌≡◌, ℕ, ◌^◌, ◌<◌, ◌++◌, List, slice_index};
ghost use Rattle.std.specs.Option.{ForSome};
ghost use Rattle.std.specs.List.{concat};
ghost use Rattle.icb_ghash.specs.Ghash.{polynomial, product, times_x, times_x_power};
ghost use Rattle.icb_ghash.specs.Sums.{IsSumOf};
ghost use Rattle.icb_ghash.specs.Tables.{AreMultiples, ArePlaceProducts};

use crate::field::{times_x, times_x4};
use crate::places::{place_products, product_by_places};
use std::marker::Model;

// From this many blocks on, the products by place are worth the time that their table takes.
const MANY: usize = 16;

/// A hash key: the polynomial that each step of the hash multiplies by (NIST SP 800-38D, 6.4).
#[derive(Drop)]
pub struct HashKey {
    // The products of the key with the 16 polynomials of four coefficients. Entry 8 is the key itself.
    multiples: [u128; 16],
    // The products of the key by place, where it was made for many pieces.
    products: Option<[u128; 512]>,
    ghost are_multiples: { AreMultiples multiples (slice_index multiples 8) },
    ghost are_products: { ForSome products (λ entries.
        ArePlaceProducts entries (slice_index multiples 8)) },
    ghost degree: { slice_index multiples 8 < 2 ^ 128 },
}

impl Model for HashKey {
    ghost Value = { ℕ };

    ghost view = { λ key. slice_index key.multiples 8 };
}

/// The 16 multiples of a polynomial.
fn multiples(h: u128) -> [u128; 16]
    ensures multiples { AreMultiples result h }
    ensures itself { slice_index result 8 ≡ h }
{
    let h1 = times_x(h);
    let h2 = times_x(h1);
    let h3 = times_x(h2);
    [
        0,
        h3,
        h2,
        h2 ^ h3,
        h1,
        h1 ^ h3,
        h1 ^ h2,
        h1 ^ h2 ^ h3,
        h,
        h ^ h3,
        h ^ h2,
        h ^ h2 ^ h3,
        h ^ h1,
        h ^ h1 ^ h3,
        h ^ h1 ^ h2,
        h ^ h1 ^ h2 ^ h3,
    ]
}

/// The sum after these blocks too, by the products at each place.
fn sum_by_places(products: &[u128; 512], sum: u128, blocks: &[[u8; 16]]) -> u128
    ensures { (h : ℕ) (message : List ℕ) → h < 2 ^ 128 → ArePlaceProducts products.now h
        → IsSumOf h sum message → IsSumOf h result (message ++ concat blocks.now) }
{
    let mut sum = sum;
    for block in blocks {
        let product = product_by_places(products, sum ^ u128::from_be_bytes(*block));
        sum = product;
    }
    sum
}

impl HashKey {
    /// The hash key that a block spells, high byte first.
    pub fn new(block: [u8; 16]) -> HashKey
        ensures { result ≡ polynomial block }
    {
        let h = u128::from_be_bytes(block);
        let multiples = multiples(h);
        HashKey {
            multiples,
            products: None,
        }
    }

    /// The same key, made for many pieces: its table of 8 KB is kept.
    pub fn for_many(block: [u8; 16]) -> HashKey
        ensures { result ≡ polynomial block }
    {
        let h = u128::from_be_bytes(block);
        let multiples = multiples(h);
        let products = place_products(&multiples);
        HashKey {
            multiples,
            products: Some(products),
        }
    }

    /// The sum after these blocks too.
    pub(crate) fn sum_after(&self, sum: u128, blocks: &[[u8; 16]]) -> u128
        ensures { (message : List ℕ) → IsSumOf self.now sum message
            → IsSumOf self.now result (message ++ concat blocks.now) }
    {
        match &self.products {
            Some(products) => sum_by_places(products, sum, blocks),
            None if blocks.len() < MANY => self.sum_after_few(sum, blocks),
            None => {
                let products = place_products(&self.multiples);
                sum_by_places(&products, sum, blocks)
            }
        }
    }

    /// The sum after these blocks too, four coefficients at a time: for few blocks.
    fn sum_after_few(&self, sum: u128, blocks: &[[u8; 16]]) -> u128
        ensures { (message : List ℕ) → IsSumOf self.now sum message
            → IsSumOf self.now result (message ++ concat blocks.now) }
    {
        let mut sum = sum;
        for block in blocks {
            let product = self.times(sum ^ u128::from_be_bytes(*block));
            sum = product;
        }
        sum
    }

    /// The product of a polynomial and the key, by Horner's rule in x^4: four coefficients at a time, from
    /// the highest powers of x in `a`, which are its lowest bits.
    fn times(&self, a: u128) -> u128
        ensures product { result ≡ product a self.now }
        ensures degree { self.now < 2 ^ 128 }
    {
        let mut sum = 0;
        let mut rest = a;
        for i in 0..32u32 {
            let shifted = times_x4(sum);
            sum = shifted ^ self.multiples[(rest % 16) as usize];
            rest >>= 4;
        }
        sum
    }
}
