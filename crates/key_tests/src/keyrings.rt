//! Which texts are keyrings: the first line that is refused, and the keys of the others. The rows follow
//! from the form by hand.
use icb_chain::{Keyring, KeyringFault};
use icb_schema::Text;
use std::process::Abort;
use std::test::*;

/// The digits of a key of 16 bytes, and those bytes.
const DIGITS: [u8; 32] = *b"000102030405060708090a0B0C0d0E0f";

const KEY: [u8; 16] = [0, 1, 2, 3, 4, 5, 6, 7, 8, 9, 10, 11, 12, 13, 14, 15];

/// The number of the line that is refused, 0 for too many, or none of a keyring.
fn refused_line(rt: &(impl Abort + AllocGlobal), text: &[u8]) -> Option<u64> {
    match Keyring::read(rt.alloc(), text) {
        Ok(_) => None,
        Err(KeyringFault::BadKeyring { line }) => Some(line),
        Err(KeyringFault::Many) => Some(0),
        Err(KeyringFault::NoMemory) => Some(u64::MAX),
    }
}

/// A text of three parts.
fn joined(rt: &(impl Abort + AllocGlobal), front: &[u8], mid: &[u8], back: &[u8]) -> Vec<u8> {
    let mut text = front.to_vec(rt.alloc()).expect(rt, "room");
    text.extend_from_slice(mid).expect(rt, "room");
    text.extend_from_slice(back).expect(rt, "room");
    text
}

#[test]
fn lines_around_a_key(rt: HostRuntime) {
    let rows: [(&[u8], &[u8], Option<u64>); 19] = [
        (b"m1=", b"", None),
        (b"m1=", b"\n", None),
        (b"\n\nm1=", b"\n\n", None),
        (b"A-z_0.9:/=", b"", None),
        (b"m1=", b"\nm1", Some(2)),
        (b"m1=", b"\n\nm1=00", Some(3)),
        (b"m1=", b"\r\n", Some(1)),
        (b"m1 =", b"", Some(1)),
        (b"m1= ", b"", Some(1)),
        (b"=", b"", Some(1)),
        (b"", b"", Some(1)),
        (b"m1==", b"", Some(1)),
        (b"m1=", b"0", Some(1)),
        (b"m1=", b"00", Some(1)),
        (b"m1=", b"0001020304050607", None),
        (b"m1=", b"00010203040506070001020304050607", None),
        (b"m1=", b"000102030405060700010203040506070", Some(1)),
        (b"m1=", b"000102030405060g", Some(1)),
        (b"m\xc3\xa9=", b"", Some(1)),
    ];
    for (front, back, refused) in rows.as_slice() {
        let text = joined(&rt, front, &DIGITS, back);
        assert!(rt; refused_line(&rt, text.as_slice()) == *refused);
    }
    assert!(rt; refused_line(&rt, b"m1=00") == Some(1));
    assert!(rt; refused_line(&rt, b"m1=") == Some(1));
    assert!(rt; refused_line(&rt, b"m1=0001020304050607080910111213").is_some());
    assert!(rt; refused_line(&rt, b"").is_none());
}

#[test]
fn ids_are_distinct_and_have_200_bytes_at_most(rt: HostRuntime) {
    let id = [b'a'; 201];
    let line = joined(&rt, &id[1..], b"=", &DIGITS);
    assert!(rt; refused_line(&rt, line.as_slice()).is_none());
    let longer = joined(&rt, b"a", b"", line.as_slice());
    assert!(rt; refused_line(&rt, longer.as_slice()) == Some(1));
    let twice = joined(&rt, line.as_slice(), b"\n\n", line.as_slice());
    assert!(rt; refused_line(&rt, twice.as_slice()) == Some(3));
}

#[test]
fn keys_by_their_ids(rt: HostRuntime) {
    let one = joined(&rt, b"m1=", &DIGITS, b"\n");
    let two = joined(&rt, b"m2=", &DIGITS, b"0001020304050607\n");
    let text = joined(&rt, one.as_slice(), b"\n", two.as_slice());
    let ring = Keyring::read(rt.alloc(), text.as_slice()).expect(&rt, "a keyring");
    let m1 = Text::from_str(rt.alloc(), "m1").expect(&rt, "room");
    let m2 = Text::from_str(rt.alloc(), "m2").expect(&rt, "room");
    let m3 = Text::from_str(rt.alloc(), "m3").expect(&rt, "room");
    assert!(rt;
        ring.master(&m1)
            .is_some_and(|key| key.bytes() == KEY.as_slice())
    );
    assert!(rt; ring.master(&m2).is_some_and(|key| key.bytes().len() == 24));
    assert!(rt; ring.master(&m3).is_none());
}

/// So many lines with distinct ids.
fn many_lines(rt: &(impl Abort + AllocGlobal), count: u32) -> Vec<u8> {
    let mut text = Vec::new(rt.alloc());
    for i in 0..count {
        let line = format!(in rt.alloc(); "k{i}=").expect(rt, "room");
        text.extend_from_slice(line.as_bytes()).expect(rt, "room");
        text.extend_from_slice(&DIGITS).expect(rt, "room");
        text.extend_from_slice(b"\n\n").expect(rt, "room");
    }
    text
}

#[test]
fn a_thousand_keys_and_one_more(rt: HostRuntime) {
    let text = many_lines(&rt, 1000);
    assert!(rt; refused_line(&rt, text.as_slice()).is_none());
    let text = many_lines(&rt, 1001);
    assert!(rt; refused_line(&rt, text.as_slice()) == Some(0));
    let text = joined(&rt, text.as_slice(), b"x", b"");
    assert!(rt; refused_line(&rt, text.as_slice()) == Some(0));
}
