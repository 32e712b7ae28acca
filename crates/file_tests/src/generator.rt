//! A generator as random bytes: ChaCha20 of a key of 32 zeros, whose bytes are those of RFC 7539, A.1, test
//! vectors 1 and 2.

use crate::callers::draws;
use icb_base::RngDraws;
use rand_chacha::ChaCha20Rng;
use rand_core::SeedableRng;

#[test]
fn the_next_bytes_are_given(rt: HostRuntime) {
    let mut random = RngDraws::new(ChaCha20Rng::from_seed([0; 32]));
    let mut out = [7u8; 64];
    assert!(rt; draws(&mut random, &mut out) == Ok(()));
    assert!(rt; out[..4] == [0x76, 0xb8, 0xe0, 0xad] && out[60..] == [0xb2, 0xee, 0x65, 0x86]);
    let mut next = [7u8; 4];
    assert!(rt; draws(&mut random, &mut next) == Ok(()) && next == [0x9f, 0x07, 0xe7, 0xbe]);
}
