//! Sealing and opening: published cases, and every length around the widths of the code as an independent
//! implementation gives it.

use crate::bytes::fill;
use icb_aes::AesKey;
use icb_gcm::{GcmKey, open_in_place, seal_in_place};
use std::process::Abort;
use std::test::Fail;

// Public cases of the authors of GCM, under a key and a nonce of zeros: the length of the key, and the
// ciphertext of 16 zeros and its tag.
const ZEROS: [(usize, u128, u128); 3] = [
    (
        16,
        0x0388dace60b6a392f328c2b971b2fe78,
        0xab6e47d42cec13bdf53a67b21257bddf,
    ),
    (
        24,
        0x98e7247c07f0fe411c267e4384b0f600,
        0x2ff58d80033927ab8ef4d4587514f0fb,
    ),
    (
        32,
        0xcea7403d4d606b6e074ec5d3baf39d18,
        0xd0d1c8a799996bf0265b98b5d48ab919,
    ),
];

#[test]
fn seals_and_opens_zeros(rt: HostRuntime) {
    for (length, ciphertext, tag) in ZEROS {
        let key = AesKey::new(&[0; 32][..length.min(32)]).expect(&rt, "16, 24 or 32 bytes");
        let mut text = [0; 16];
        let made = seal_in_place(&key, &[0; 12], &[], &mut text);
        assert!(rt; u128::from_be_bytes(text) == ciphertext);
        assert!(rt; u128::from_be_bytes(made) == tag);
        let mut refused = text;
        let changed = (tag ^ 1).to_be_bytes();
        assert!(rt; open_in_place(&key, &[0; 12], &[], &mut refused, &changed).is_err());
        assert!(rt; refused == [0; 16]);
        assert!(rt; open_in_place(&key, &[0; 12], &[], &mut text, &made).is_ok());
        assert!(rt; text == [0; 16]);
    }
}

#[test]
fn seals_nothing(rt: HostRuntime) {
    let key = AesKey::new(&[0; 16]).expect(&rt, "16 bytes");
    let tag = seal_in_place(&key, &[0; 12], &[], &mut []);
    assert!(rt; u128::from_be_bytes(tag) == 0x58e2fccefa7e3061367f1d57a4e7455a);
}

// The authors' test case 4.
static KEY: [u8; 16] = [
    0xfe, 0xff, 0xe9, 0x92, 0x86, 0x65, 0x73, 0x1c, 0x6d, 0x6a, 0x8f, 0x94, 0x67, 0x30, 0x83, 0x08,
];

static NONCE: [u8; 12] = [
    0xca, 0xfe, 0xba, 0xbe, 0xfa, 0xce, 0xdb, 0xad, 0xde, 0xca, 0xf8, 0x88,
];

static AAD: [u8; 20] = [
    0xfe, 0xed, 0xfa, 0xce, 0xde, 0xad, 0xbe, 0xef, 0xfe, 0xed, 0xfa, 0xce, 0xde, 0xad, 0xbe, 0xef,
    0xab, 0xad, 0xda, 0xd2,
];

static TEXT: [u8; 60] = [
    0xd9, 0x31, 0x32, 0x25, 0xf8, 0x84, 0x06, 0xe5, 0xa5, 0x59, 0x09, 0xc5, 0xaf, 0xf5, 0x26, 0x9a,
    0x86, 0xa7, 0xa9, 0x53, 0x15, 0x34, 0xf7, 0xda, 0x2e, 0x4c, 0x30, 0x3d, 0x8a, 0x31, 0x8a, 0x72,
    0x1c, 0x3c, 0x0c, 0x95, 0x95, 0x68, 0x09, 0x53, 0x2f, 0xcf, 0x0e, 0x24, 0x49, 0xa6, 0xb5, 0x25,
    0xb1, 0x6a, 0xed, 0xf5, 0xaa, 0x0d, 0xe6, 0x57, 0xba, 0x63, 0x7b, 0x39,
];

static CIPHERTEXT: [u8; 60] = [
    0x42, 0x83, 0x1e, 0xc2, 0x21, 0x77, 0x74, 0x24, 0x4b, 0x72, 0x21, 0xb7, 0x84, 0xd0, 0xd4, 0x9c,
    0xe3, 0xaa, 0x21, 0x2f, 0x2c, 0x02, 0xa4, 0xe0, 0x35, 0xc1, 0x7e, 0x23, 0x29, 0xac, 0xa1, 0x2e,
    0x21, 0xd5, 0x14, 0xb2, 0x54, 0x66, 0x93, 0x1c, 0x7d, 0x8f, 0x6a, 0x5a, 0xac, 0x84, 0xaa, 0x05,
    0x1b, 0xa3, 0x0b, 0x39, 0x6a, 0x0a, 0xac, 0x97, 0x3d, 0x58, 0xe0, 0x91,
];

#[test]
fn seals_with_additional_data(rt: HostRuntime) {
    let key = AesKey::new(&KEY).expect(&rt, "16 bytes");
    let mut text = TEXT;
    let tag = seal_in_place(&key, &NONCE, &AAD, &mut text);
    assert!(rt; text == CIPHERTEXT);
    assert!(rt; u128::from_be_bytes(tag) == 0x5bc94fbc3221a5db94fae95ae7121a47);
}

// The greatest length below.
const MOST: usize = 2100;

/// The lengths of a key and of additional data, the first length of a text and the one behind the last,
/// and the tags of those texts: each is added to the sum of those before, turned left by one bit.
type Case = (usize, usize, usize, usize, u128);

// Made by Python's `cryptography` 48.0.0, `AESGCM(key).encrypt(nonce, text, aad)`. For a text of n bytes
// in row r, from 0, byte i of the key is 17 i + 5 r + 1, of the nonce 29 i + 11 n + 2, of the additional
// data 13 i + 3 n + 7 and of the text 7 i + n, all modulo 256.
static CASES: [Case; 19] = [
    (16, 0, 0, 301, 0x111af4744cfcdab7dd36a06e121ff257),
    (24, 0, 0, 301, 0xe37504c98153cdb08e4d0b3756444938),
    (32, 0, 0, 301, 0xb82b3b9d06ae49ed932fcfe35227e85a),
    (16, 1, 0, 301, 0x0c4ed1a853637b5a0e020059c8ce35d1),
    (24, 1, 0, 301, 0xe58e9df1f942ec8344f6d6e86c048800),
    (32, 1, 0, 301, 0xf2096640d87e45583f846737a0889511),
    (16, 16, 0, 301, 0x71770aaf8457cbee5cfb693913618c10),
    (24, 16, 0, 301, 0x52f94abc0c1954ede3e259975140bdaa),
    (32, 16, 0, 301, 0x792b23a31eaa5f81df5fc3db681c06c4),
    (16, 17, 0, 301, 0xb6032963f5fa85c5a346028e0ab1f04c),
    (24, 17, 0, 301, 0x4a8cbae73ed7ce6029f9dab883494f7e),
    (32, 17, 0, 301, 0x8c95ec64aa2a8c5070ee80036a2ab98c),
    (16, 20, 0, 301, 0xad50b5b97b491631aca3f0227504b73f),
    (24, 20, 0, 301, 0xd56582bcbd9cd624e3b517e4aa4538ac),
    (32, 20, 0, 301, 0xf166d900844f8903ea40cc521c1e300c),
    (16, 20, 505, 530, 0x48044b4a8e6ce488214cd9ab349a3ef2),
    (24, 3, 1000, 1030, 0x4f27715d38b99ac04e856c080026bf6b),
    (32, 31, 1020, 1290, 0x4a41658c976617d2036db0297a60b11d),
    (16, 0, 2040, 2065, 0x2c9498f4b15eae741ff939c491513a2c),
];

/// Seals the text of this length, opens it again, and has it refused with another tag: under a key, and under
/// the same key as one that is kept. Gives the tag.
fn checked_tag(
    rt: &impl Abort,
    key: &AesKey,
    kept: &GcmKey,
    aad_length: usize,
    length: usize,
) -> u128 {
    let start = (length % 256) as u8;
    let mut nonce = [0; 12];
    fill(&mut nonce, 29, start.wrapping_mul(11).wrapping_add(2));
    let mut aad = [0; 32];
    fill(&mut aad, 13, start.wrapping_mul(3).wrapping_add(7));
    let aad = &aad[..aad_length.min(32)];
    let end = length.min(MOST);
    let mut plain = [0; MOST];
    fill(&mut plain, 7, start);
    let mut text = plain;
    let tag = seal_in_place(key, &nonce, aad, &mut text[..end]);
    let mut again = plain;
    assert!(rt; kept.seal(&nonce, aad, &mut again[..end]) == tag && again == text);
    let changed = (u128::from_be_bytes(tag) ^ 1).to_be_bytes();
    let mut refused = text;
    let answer = open_in_place(key, &nonce, aad, &mut refused[..end], &changed);
    assert!(rt; answer.is_err() && refused[..end] == [0; MOST][..end]);
    let mut refused = text;
    let answer = kept.open(&nonce, aad, &mut refused[..end], &changed);
    assert!(rt; answer.is_err() && refused[..end] == [0; MOST][..end]);
    let answer = kept.open(&nonce, aad, &mut again[..end], &tag);
    assert!(rt; answer.is_ok() && again == plain);
    let answer = open_in_place(key, &nonce, aad, &mut text[..end], &tag);
    assert!(rt; answer.is_ok() && text == plain);
    u128::from_be_bytes(tag)
}

#[test]
fn seals_and_opens_like_another_implementation(rt: HostRuntime) {
    let mut first = 1;
    for (key_length, aad_length, from, to, expected) in CASES {
        let mut bytes = [0; 32];
        fill(&mut bytes, 17, first);
        first = first.wrapping_add(5);
        let key = AesKey::new(&bytes[..key_length.min(32)]).expect(&rt, "16, 24 or 32 bytes");
        let kept = GcmKey::new(&key);
        let mut sum = 0u128;
        for length in from..to {
            sum = sum.rotate_left(1) ^ checked_tag(&rt, &key, &kept, aad_length, length);
        }
        assert!(rt; sum == expected, "from {from}");
    }
}
