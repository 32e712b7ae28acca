//! The hash: pieces, products and hashes as an independent implementation gives them.

use crate::bytes::fill;
use icb_ghash::{Ghash, HashKey};
use std::process::Abort;
use std::test::Fail;

/// The hash of the pieces under the key that the number spells.
fn hash_of(h: u128, pieces: &[&[u8]]) -> u128 {
    let key = HashKey::new(h.to_be_bytes());
    let mut hash = Ghash::new(&key);
    for piece in pieces {
        hash.update(piece);
    }
    u128::from_be_bytes(hash.finish())
}

const H: u128 = 0x66e94bd4ef8a2c3b884cfa59ca342b2e;

// The second public case of the authors of GCM: one block, and the block of the lengths.
#[test]
fn hashes_the_public_case(rt: HostRuntime) {
    let block = 0x0388dace60b6a392f328c2b971b2fe78u128.to_be_bytes();
    let lengths = 128u128.to_be_bytes();
    let hash = hash_of(H, &[&block, &lengths]);
    assert!(rt; hash == 0xf38cbb1ad69223dcc3457ae5b6b0f885);
}

// Two polynomials and their product: in the first row the public case's first step, and in the others
// what a multiplication without carry and a long division in Python gave.
const PRODUCTS: [(u128, u128, u128); 5] = [
    (
        0x0388dace60b6a392f328c2b971b2fe78,
        0x66e94bd4ef8a2c3b884cfa59ca342b2e,
        0x5e2ec746917062882c85b0685353deb7,
    ),
    (
        0x80000000000000000000000000000000,
        0x66e94bd4ef8a2c3b884cfa59ca342b2e,
        0x66e94bd4ef8a2c3b884cfa59ca342b2e,
    ),
    (
        0x40000000000000000000000000000000,
        0x66e94bd4ef8a2c3b884cfa59ca342b2e,
        0x3374a5ea77c5161dc4267d2ce51a1597,
    ),
    (
        0x00000000000000000000000000000001,
        0x00000000000000000000000000000001,
        0xe6080000000000000000000000000003,
    ),
    (
        0xffffffffffffffffffffffffffffffff,
        0x0123456789abcdef0123456789abcdef,
        0x1bba2640b13783e514922640b13783e5,
    ),
];

// The hash of one block is its product with the key.
#[test]
fn multiplies(rt: HostRuntime) {
    for (a, b, product) in PRODUCTS {
        assert!(rt; hash_of(b, &[&a.to_be_bytes()]) == product);
    }
}

static BYTES: [u8; 16] = [1, 2, 3, 4, 5, 6, 7, 8, 9, 10, 11, 12, 13, 14, 15, 16];

static TWICE: [u8; 32] = [
    1, 2, 3, 4, 5, 6, 7, 8, 9, 10, 11, 12, 13, 14, 15, 16, 1, 2, 3, 4, 5, 6, 7, 8, 9, 10, 11, 12,
    13, 14, 15, 16,
];

static FIVE: [u8; 5] = [1, 2, 3, 4, 5];

static FIVE_PADDED: [u8; 16] = [1, 2, 3, 4, 5, 0, 0, 0, 0, 0, 0, 0, 0, 0, 0, 0];

#[test]
fn pieces_are_padded(rt: HostRuntime) {
    let in_two = hash_of(H, &[&BYTES, &BYTES]);
    assert!(rt; in_two == hash_of(H, &[&TWICE]));
    let five = hash_of(H, &[&FIVE]);
    assert!(rt; five == hash_of(H, &[&FIVE_PADDED]));
    assert!(rt; hash_of(H, &[]) == 0);
    assert!(rt; hash_of(H, &[&[]]) == 0);
    assert!(rt; hash_of(0, &[&BYTES]) == 0);
}

/// The lengths of additional data and of a ciphertext, the hash key, and the hash.
type Case = (usize, usize, u128, u128);

// Python's `cryptography` 48 made these: under a key of AES-128 the hash key is the cipher of the zero
// block, and the hash is the tag of AES-GCM with the cipher of counter block 1 added. In case number c,
// from 0, byte i of the additional data is 13 i + 3 c + 7 and of the ciphertext 7 i + c, modulo 256.
static CASES: [Case; 20] = [
    (
        0,
        0,
        0xe8d4b6e6ff591d929496340877feab7c,
        0x00000000000000000000000000000000,
    ),
    (
        1,
        0,
        0x74ad654d0a08bc63e6a0a82cd0bf5a67,
        0x3a602db8b18789c0bd1ba9afa7455ae1,
    ),
    (
        16,
        0,
        0xb821fb457444a309ed6e0a958e7455f9,
        0x8329af46307f30cb6fa91873427c23f9,
    ),
    (
        17,
        0,
        0xa7137c04cd2165e410de63a1b9a59ce4,
        0x76d5f4ff574eb36ac55521dbc9258adc,
    ),
    (
        0,
        1,
        0x247659af92b8a8f0df5af730b3617009,
        0x50413c2619c964df9a8cc1ecef3fcba8,
    ),
    (
        0,
        15,
        0xc65f2242407bb5505b578299b3a917b9,
        0x62da84e216856e6173cc067d4ec3ddff,
    ),
    (
        0,
        16,
        0x531afc180f5a6c3b6063a8e16305c45c,
        0xc55f8a63dcfeea8784923ec68d786099,
    ),
    (
        0,
        17,
        0x28823d1a2cfb003d29d9ebcb4a4b4366,
        0x95dc368e2120865af65ac47c08ffd156,
    ),
    (
        20,
        31,
        0xc7356132a481f87442ab4fc0f15782df,
        0xb17707b392c2e93b88310ae9be4ac800,
    ),
    (
        16,
        32,
        0x8a8058aa2e86351150534791d93a55cb,
        0x307343eef86d8c7d6f51119454240c04,
    ),
    (
        5,
        33,
        0x66cea688059a2028e35766078f5b5c94,
        0xee706d1a8d6ee1e3b30734820efdf5cd,
    ),
    (
        13,
        48,
        0x65cbeaa8b330f0d7d7e4977294cd4e67,
        0x31758633bd37138717beee2203cf176e,
    ),
    (
        31,
        255,
        0x93db563f38ae2ee845318bfa6847d6d1,
        0x6f004742ae08a451f28c978a479ed6b6,
    ),
    (
        64,
        256,
        0xd03620d3cbdbe23de6ad7a7f6866a34f,
        0x8073a826f9cdfbc0f38cea545907b7b0,
    ),
    (
        7,
        1000,
        0x0882a4b0c6859a199615fecf031f516d,
        0x4d7a7fd8afc3a8bf1ab96215948fc484,
    ),
    (
        0,
        1024,
        0xefad282e3715e14cf2f481b8849bd384,
        0xb1b13b0f503abf253c499a35e2b4c68d,
    ),
    (
        12,
        4095,
        0xdcf32aab2b21768b8d51e6b993b338b8,
        0x423ed7b55f1848572936a8a8db6d4ca9,
    ),
    (
        3,
        4096,
        0x2eb370d4188863d1509cf5c0a44cb6c2,
        0x3a8dc0a86518bef75b0fce7a6e4a721b,
    ),
    (
        0,
        4097,
        0x27be0f531b0f8ab90fe7da4a0d7486dc,
        0x87afa36e499f53a5f61316a7a9ad8168,
    ),
    (
        100,
        5000,
        0x855017a1f80822dbd80388f25e78d705,
        0x0eadf607f918af90343707541e57f2f0,
    ),
];

fn check_case(rt: &impl Abort, c: u8, case: Case) {
    let (aad_length, text_length, h, hash) = case;
    let mut aad = [0; 100];
    fill(&mut aad, 13, c.wrapping_mul(3).wrapping_add(7));
    let mut text = [0; 5000];
    fill(&mut text, 7, c);
    let lengths = (((aad_length as u128) << 67) + ((text_length as u128) << 3)).to_be_bytes();
    let pieces = [
        &aad[..aad_length.min(100)],
        &text[..text_length.min(5000)],
        lengths.as_slice(),
    ];
    assert!(rt; hash_of(h, &pieces) == hash, "case {c}");
}

#[test]
fn hashes_like_another_implementation(rt: HostRuntime) {
    for c in 0..20u8 {
        check_case(&rt, c, CASES[c as usize]);
    }
}
