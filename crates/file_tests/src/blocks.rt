//! Blocks of files against those that Python's `cryptography` makes (`AESGCM`), under keys of all three
//! sizes; and draws that fail.

use crate::helpers::{numbers, push};
use icb_base::{ByteDraws, Bytes, Failed, KeyMeta};
use icb_seal::{FileKey, KeySize, NotAuthentic, Opener, Sealer};
use std::process::Abort;

const TEXT: [u8; 20] = *b"twenty bytes of text";

/// Draws of the numbers from 0 up to the key's length and then from 0 to 7; the calls with these numbers
/// fail.
fn draws_of(rt: &(impl Abort + AllocGlobal), key_length: u8, fails: Vec<u64>) -> ByteDraws {
    let mut bytes = numbers(rt, key_length);
    for number in 0..8u8 {
        push(rt, &mut bytes, number);
    }
    ByteDraws::new(Bytes::from_vec(bytes), fails)
}

/// The sealer of a file whose key and nonces are of those numbers, and whose prefix is `data/a`.
fn sealer_of(rt: &(impl Abort + AllocGlobal), size: KeySize, key_length: u8) -> Sealer {
    let mut draws = draws_of(rt, key_length, Vec::new(rt.alloc()));
    let key = FileKey::draw(&mut draws, size).expect(rt, "a key");
    match key.into_sealer(rt.alloc(), b"data/a") {
        Ok(sealer) => sealer,
        Err((key, _)) => {
            key.abandon();
            panic!(rt; "no memory")
        }
    }
}

/// Seals a file of a block of no text and a block of `TEXT`, which are these, and gives its key metadata.
fn seal_file(
    rt: &(impl Abort + AllocGlobal),
    size: KeySize,
    key_length: u8,
    empty: &[u8; 28],
    text: &[u8; 48],
) -> KeyMeta {
    let mut sealer = sealer_of(rt, size, key_length);
    assert!(rt; sealer.next() == 0);
    let mut block = [7; 28];
    sealer.seal_block(b"", &mut block);
    assert!(rt; block == *empty);
    assert!(rt; sealer.next() == 1);
    let mut block = [7; 48];
    sealer.seal_block(&TEXT, &mut block);
    assert!(rt; block == *text);
    assert!(rt; sealer.next() == 2);
    sealer.finish(84)
}

/// Seals that file, looks at its key metadata and opens its blocks.
fn check_file(
    rt: &(impl Abort + AllocGlobal),
    size: KeySize,
    key_length: u8,
    empty: &[u8; 28],
    text: &[u8; 48],
) {
    let meta = seal_file(rt, size, key_length, empty, text);
    assert!(rt; meta.key() == numbers(rt, key_length).as_slice());
    assert!(rt; meta.prefix() == Some(b"data/a".as_slice()));
    assert!(rt; meta.length() == Some(84));

    let mut opener = Opener::new(rt.alloc(), &meta).expect(rt, "an opener");
    let mut block = *text;
    assert!(rt; opener.open_block(1, &mut block) == Ok(()));
    assert!(rt; &block[12..32] == TEXT.as_slice());
    let mut block = *empty;
    assert!(rt; opener.open_block(0, &mut block) == Ok(()));
    let mut block = *text;
    assert!(rt; opener.open_block(0, &mut block) == Err(NotAuthentic));
    assert!(rt; &block[12..32] == [0; 20].as_slice());
}

#[test]
fn blocks_of_files(rt: HostRuntime) {
    check_file(
        &rt,
        KeySize::Bytes16,
        16,
        &[
            0x00, 0x01, 0x02, 0x03, 0x04, 0x05, 0x06, 0x07, 0x00, 0x00, 0x00, 0x00, 0x94, 0x8d,
            0xb1, 0xb7, 0x21, 0x62, 0xf8, 0x77, 0xd6, 0xc3, 0x28, 0xa4, 0x4e, 0xbd, 0x9b, 0xdf,
        ],
        &[
            0x00, 0x01, 0x02, 0x03, 0x04, 0x05, 0x06, 0x07, 0x00, 0x00, 0x00, 0x01, 0x0f, 0x74,
            0x19, 0x87, 0x26, 0xac, 0x47, 0x14, 0x17, 0x7e, 0xd5, 0xbb, 0x10, 0x98, 0xd5, 0x63,
            0x45, 0x7b, 0x76, 0x9e, 0xe6, 0x0b, 0x31, 0x46, 0x13, 0x7c, 0xda, 0x3b, 0xe9, 0x4b,
            0x59, 0x2a, 0xbe, 0x4c, 0xcf, 0x10,
        ],
    );
    check_file(
        &rt,
        KeySize::Bytes24,
        24,
        &[
            0x00, 0x01, 0x02, 0x03, 0x04, 0x05, 0x06, 0x07, 0x00, 0x00, 0x00, 0x00, 0x46, 0xf8,
            0x84, 0xae, 0xb7, 0x64, 0x35, 0x86, 0xc7, 0x80, 0x34, 0x5a, 0xef, 0xdd, 0x97, 0x3d,
        ],
        &[
            0x00, 0x01, 0x02, 0x03, 0x04, 0x05, 0x06, 0x07, 0x00, 0x00, 0x00, 0x01, 0x8d, 0x7c,
            0xc1, 0x7e, 0x17, 0x1f, 0x5d, 0x32, 0xb5, 0xe6, 0x38, 0xbf, 0x7e, 0x20, 0x6c, 0x23,
            0x67, 0x33, 0xd8, 0xaf, 0xff, 0x20, 0xfc, 0x7c, 0xb3, 0xbf, 0x92, 0x6a, 0x6b, 0xd6,
            0x4c, 0xd3, 0xc7, 0xda, 0x49, 0x0b,
        ],
    );
    check_file(
        &rt,
        KeySize::Bytes32,
        32,
        &[
            0x00, 0x01, 0x02, 0x03, 0x04, 0x05, 0x06, 0x07, 0x00, 0x00, 0x00, 0x00, 0x45, 0xce,
            0x55, 0x63, 0xe8, 0xd3, 0xe8, 0xab, 0x64, 0xb2, 0xbe, 0x81, 0xa9, 0x28, 0xed, 0x9f,
        ],
        &[
            0x00, 0x01, 0x02, 0x03, 0x04, 0x05, 0x06, 0x07, 0x00, 0x00, 0x00, 0x01, 0x94, 0x9d,
            0xcf, 0x01, 0xe2, 0x3c, 0xd0, 0x1a, 0x3d, 0xb0, 0xb1, 0x4d, 0x86, 0x2c, 0xdb, 0xbf,
            0x3b, 0x97, 0x63, 0x96, 0xdb, 0x25, 0x62, 0x74, 0x63, 0x2b, 0xf5, 0x81, 0x8a, 0x15,
            0xbf, 0x3b, 0x37, 0xbc, 0x48, 0x05,
        ],
    );
}

/// A draw of these bytes, of which the first call fails, is `Failed`; the next has all of them.
#[test]
fn draws_that_fail(rt: HostRuntime) {
    let fails = vec![in rt.alloc(); 0u64].expect(&rt, "a list");
    let mut draws = draws_of(&rt, 16, fails);
    for (size, drawn) in [
        (KeySize::Bytes16, false),
        (KeySize::Bytes32, false),
        (KeySize::Bytes24, false),
        (KeySize::Bytes16, true),
        (KeySize::Bytes16, false),
    ] {
        match FileKey::draw(&mut draws, size) {
            Ok(key) => {
                key.abandon();
                assert!(rt; drawn);
            }
            Err(Failed) => assert!(rt; !drawn),
        }
    }
    sealer_of(&rt, KeySize::Bytes16, 16).abandon();
}
