//! Products by place: a table of 8 KB for each of the 32 places of four coefficients, with which a product
//! needs no shift of its sum and no remainder.

ghost use Rattle.std.specs.Prelude.{◌≡◌, ℕ, ◌+◌, ◌-◌, ◌*◌, ◌/◌, ◌%◌, ◌^◌, ◌<◌, ◌≤◌, length, slice_index, bit_xor};
ghost use Rattle.icb_ghash.specs.Ghash.{product, times_x_power};
ghost use Rattle.icb_ghash.specs.Tables.{AreMultiples, ArePlaceProducts};

use crate::field::times_x4;

/// Entry j: at the foremost place a multiple, and at any other x^4 times the same entry of the next place.
fn product_at(multiples: &[u128; 16], products: &[u128; 512], j: usize) -> u128
    requires { j < 512 }
    ensures multiple { 496 ≤ j → result ≡ slice_index multiples.now (j - 496) }
    ensures moved { j < 496 → result ≡ times_x_power 4 (slice_index products.now (j + 16)) }
{
    if j < 496 {
        times_x4(products[j + 16])
    } else {
        multiples[j - 496]
    }
}

/// The products by place of the polynomial with these multiples, from the last one on.
pub(crate) fn place_products(multiples: &[u128; 16]) -> [u128; 512]
    ensures { (h : ℕ) → h < 2 ^ 128 → AreMultiples multiples.now h → ArePlaceProducts result h }
{
    let mut products = [0; 512];
    for i in 0..512usize {
        let product = product_at(multiples, &products, 511 - i);
        products[511 - i] = product;
    }
    products
}

/// The product, as the sum of the products at the places, from the last one on.
pub(crate) fn product_by_places(products: &[u128; 512], a: u128) -> u128
    ensures { (h : ℕ) → h < 2 ^ 128 → ArePlaceProducts products.now h → result ≡ product a h }
{
    let mut sum = 0;
    let mut rest = a;
    for p in 0..32usize {
        sum ^= products[16 * p + (rest % 16) as usize];
        rest >>= 4;
    }
    sum
}
