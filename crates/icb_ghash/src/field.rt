//! The field's polynomials as numbers of 128 bits (NIST SP 800-38D, 6.3).

ghost use Rattle.std.specs.Prelude.{◌≡◌, ◌*◌, ◌/◌, ◌%◌, ◌^◌, ◌<◌, ◌==◌, if◌then◌else◌, bit_xor};
ghost use Rattle.icb_ghash.specs.Ghash.{times_x, times_x_power};

// x^7 + x^2 + x + 1, which is x^128 in the field.
const REDUCTION: u128 = 0xe1 << 120;

// Entry n is x^4 times the polynomial n, whose four coefficients are the last ones.
static REMAINDERS: [u128; 16] = [
    0x0000 << 112,
    0x1c20 << 112,
    0x3840 << 112,
    0x2460 << 112,
    0x7080 << 112,
    0x6ca0 << 112,
    0x48c0 << 112,
    0x54e0 << 112,
    0xe100 << 112,
    0xfd20 << 112,
    0xd940 << 112,
    0xc560 << 112,
    0x9180 << 112,
    0x8da0 << 112,
    0xa9c0 << 112,
    0xb5e0 << 112,
];

/// x times v. The coefficients' order makes this a shift to the right.
#[tactic(auto, unfolding(crate::specs::Ghash::times_x))]
pub(crate) fn times_x(v: u128) -> u128
    ensures { result ≡ times_x v }
{
    if v % 2 == 1 {
        (v >> 1) ^ REDUCTION
    } else {
        v >> 1
    }
}

/// x^4 times v: a shift by four places, and the remainder of the four coefficients that it takes away.
pub(crate) fn times_x4(v: u128) -> u128
    ensures { result ≡ times_x_power 4 v }
{
    (v >> 4) ^ REMAINDERS[(v % 16) as usize]
}
