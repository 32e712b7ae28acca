//! From blocks to planes and back: at each of the 16 places of a byte, eight vectors are eight rows of eight
//! bits, which become columns.

ghost use Rattle.std.specs.Prelude.{◌≡◌, ℕ, ◌+◌, ◌-◌, ◌/◌, ◌%◌, ◌<◌, ◌==◌, [], if◌then◌else◌};
ghost use Rattle.std.specs.List.{slice_index_or};
ghost use Rattle.icb_aes.specs.Planes.{IsRow};

use crate::planes::Planes;
use std::simd::u8x16;

/// Two rows of which each second bit changes places with the one before it in the other row.
#[inline(always)]
fn swapped_1(x: u8x16, y: u8x16) -> [u8x16; 2]
    ensures first { (p : ℕ) (f g : ℕ → ℕ) → p < 16 → IsRow x p f → IsRow y p g
        → IsRow (slice_index_or result 0 []) p (λ i. if i % 2 == 1 then g (i - 1) else f i) }
    ensures second { (p : ℕ) (f g : ℕ → ℕ) → p < 16 → IsRow x p f → IsRow y p g
        → IsRow (slice_index_or result 1 []) p (λ i. if i % 2 == 1 then g i else f (i + 1)) }
{
    let moved = ((x >> u8x16::splat(1)) ^ y) & u8x16::splat(0x55);
    [x ^ (moved << u8x16::splat(1)), y ^ moved]
}

/// Two rows of which each second pair of bits changes places with the one before it in the other row.
#[inline(always)]
fn swapped_2(x: u8x16, y: u8x16) -> [u8x16; 2]
    ensures first { (p : ℕ) (f g : ℕ → ℕ) → p < 16 → IsRow x p f → IsRow y p g
        → IsRow (slice_index_or result 0 []) p (λ i. if i / 2 % 2 == 1 then g (i - 2) else f i) }
    ensures second { (p : ℕ) (f g : ℕ → ℕ) → p < 16 → IsRow x p f → IsRow y p g
        → IsRow (slice_index_or result 1 []) p (λ i. if i / 2 % 2 == 1 then g i else f (i + 2)) }
{
    let moved = ((x >> u8x16::splat(2)) ^ y) & u8x16::splat(0x33);
    [x ^ (moved << u8x16::splat(2)), y ^ moved]
}

/// Two rows of which the second four bits of one change places with the first four of the other.
#[inline(always)]
fn swapped_4(x: u8x16, y: u8x16) -> [u8x16; 2]
    ensures first { (p : ℕ) (f g : ℕ → ℕ) → p < 16 → IsRow x p f → IsRow y p g
        → IsRow (slice_index_or result 0 []) p (λ i. if i / 4 == 1 then g (i - 4) else f i) }
    ensures second { (p : ℕ) (f g : ℕ → ℕ) → p < 16 → IsRow x p f → IsRow y p g
        → IsRow (slice_index_or result 1 []) p (λ i. if i / 4 == 1 then g i else f (i + 4)) }
{
    let moved = ((x >> u8x16::splat(4)) ^ y) & u8x16::splat(0x0f);
    [x ^ (moved << u8x16::splat(4)), y ^ moved]
}

/// Bit i of row j becomes bit j of row i, at each place.
pub(crate) fn transposed(x: Planes) -> Planes
    ensures { (p : ℕ) (f : ℕ → ℕ → ℕ) → p < 16
        → ((j : ℕ) → j < 8 → IsRow (slice_index_or x j []) p (f j))
        → (i : ℕ) → i < 8 → IsRow (slice_index_or result i []) p (λ j. f j i) }
{
    let [a0, a1] = swapped_1(x[0], x[1]);
    let [a2, a3] = swapped_1(x[2], x[3]);
    let [a4, a5] = swapped_1(x[4], x[5]);
    let [a6, a7] = swapped_1(x[6], x[7]);
    let [b0, b2] = swapped_2(a0, a2);
    let [b1, b3] = swapped_2(a1, a3);
    let [b4, b6] = swapped_2(a4, a6);
    let [b5, b7] = swapped_2(a5, a7);
    let [c0, c4] = swapped_4(b0, b4);
    let [c1, c5] = swapped_4(b1, b5);
    let [c2, c6] = swapped_4(b2, b6);
    let [c3, c7] = swapped_4(b3, b7);
    [c0, c1, c2, c3, c4, c5, c6, c7]
}
