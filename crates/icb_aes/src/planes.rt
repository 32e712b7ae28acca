//! Rounds on eight blocks at once, held bit by bit (FIPS 197, 5.1). No table is read.

ghost use Rattle.std.specs.Prelude.{◌≡◌, ℕ, ◌<◌, bit_xor, slice_index};
ghost use Rattle.icb_aes.specs.Field.{product};
ghost use Rattle.icb_aes.specs.Fips197.{State, last_round, round};
ghost use Rattle.icb_aes.specs.Planes.{Holds, byte_of};

use crate::circuit::sub_bytes;
use std::simd::u8x16;

/// Eight planes of 16 bytes: bit `b` of byte `p` of plane `j` is bit `j` of byte `p` of block `b`.
pub(crate) type Planes = [u8x16; 8];

// Where each byte comes from as row r turns left by r places (5.1.2).
const SHIFTED: [usize; 16] = [0, 5, 10, 15, 4, 9, 14, 3, 8, 13, 2, 7, 12, 1, 6, 11];

// The byte of the next row in the same column, and that of the second next one.
const NEXT_ROW: [usize; 16] = [1, 2, 3, 0, 5, 6, 7, 4, 9, 10, 11, 8, 13, 14, 15, 12];

const SECOND_ROW: [usize; 16] = [2, 3, 0, 1, 6, 7, 4, 5, 10, 11, 8, 9, 14, 15, 12, 13];

/// The sum of eight blocks and eight others.
#[inline(always)]
pub(crate) fn sum(x: Planes, y: Planes) -> Planes
    ensures { (f g : ℕ → ℕ → ℕ) → Holds x f → Holds y g
        → Holds result (λ b p. bit_xor (f b p) (g b p)) }
{
    [
        x[0] ^ y[0],
        x[1] ^ y[1],
        x[2] ^ y[2],
        x[3] ^ y[3],
        x[4] ^ y[4],
        x[5] ^ y[5],
        x[6] ^ y[6],
        x[7] ^ y[7],
    ]
}

/// Each byte times x: a shift, and x^4 + x^3 + x + 1 in the place of x^8.
#[inline(always)]
fn doubled(x: Planes) -> Planes
    ensures { (f : ℕ → ℕ → ℕ) → Holds x f → Holds result (λ b p. product 2 (f b p)) }
{
    [
        x[7],
        x[0] ^ x[7],
        x[1],
        x[2] ^ x[7],
        x[3] ^ x[7],
        x[4],
        x[5],
        x[6],
    ]
}

/// ShiftRows.
#[inline(always)]
fn shifted(x: Planes) -> Planes
    ensures { (f : ℕ → ℕ → ℕ) → Holds x f
        → Holds result (λ b p. f b (slice_index SHIFTED p)) }
{
    [
        x[0].swizzle(SHIFTED),
        x[1].swizzle(SHIFTED),
        x[2].swizzle(SHIFTED),
        x[3].swizzle(SHIFTED),
        x[4].swizzle(SHIFTED),
        x[5].swizzle(SHIFTED),
        x[6].swizzle(SHIFTED),
        x[7].swizzle(SHIFTED),
    ]
}

/// Each byte's neighbour in the next row.
#[inline(always)]
fn next_row(x: Planes) -> Planes
    ensures { (f : ℕ → ℕ → ℕ) → Holds x f
        → Holds result (λ b p. f b (slice_index NEXT_ROW p)) }
{
    [
        x[0].swizzle(NEXT_ROW),
        x[1].swizzle(NEXT_ROW),
        x[2].swizzle(NEXT_ROW),
        x[3].swizzle(NEXT_ROW),
        x[4].swizzle(NEXT_ROW),
        x[5].swizzle(NEXT_ROW),
        x[6].swizzle(NEXT_ROW),
        x[7].swizzle(NEXT_ROW),
    ]
}

/// Each byte's neighbour in the second next row.
#[inline(always)]
fn second_row(x: Planes) -> Planes
    ensures { (f : ℕ → ℕ → ℕ) → Holds x f
        → Holds result (λ b p. f b (slice_index SECOND_ROW p)) }
{
    [
        x[0].swizzle(SECOND_ROW),
        x[1].swizzle(SECOND_ROW),
        x[2].swizzle(SECOND_ROW),
        x[3].swizzle(SECOND_ROW),
        x[4].swizzle(SECOND_ROW),
        x[5].swizzle(SECOND_ROW),
        x[6].swizzle(SECOND_ROW),
        x[7].swizzle(SECOND_ROW),
    ]
}

/// A round but the last. The column's product is 2 (a + b) + b + (c + d), where b, c and d are the bytes
/// of the rows behind that of a.
#[inline(always)]
pub(crate) fn round(x: Planes, key: Planes) -> Planes
    ensures { (s : ℕ → State) (k : State) → Holds x (λ b. byte_of (s b))
        → Holds key (λ _. byte_of k) → Holds result (λ b. byte_of (round (s b) k)) }
{
    let a = shifted(sub_bytes(x));
    let b = next_row(a);
    let both = sum(a, b);
    sum(sum(sum(doubled(both), b), second_row(both)), key)
}

/// The last round, which has no product of columns.
#[inline(always)]
pub(crate) fn last_round(x: Planes, key: Planes) -> Planes
    ensures { (s : ℕ → State) (k : State) → Holds x (λ b. byte_of (s b))
        → Holds key (λ _. byte_of k) → Holds result (λ b. byte_of (last_round (s b) k)) }
{
    sum(shifted(sub_bytes(x)), key)
}
