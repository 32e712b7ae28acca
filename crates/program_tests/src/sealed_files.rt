//! `seal-file`: what is put and printed, how long an input may be, and that the file is read back.

use crate::outside::{NO_FAILS, Seen, check_row, check_rows, draws, path};
use icb_base::{Bytes, MemSource, RngDraws, Source, Store};
use icb_run::Status;
use rand_chacha::ChaCha20Rng;
use rand_core::SeedableRng;
use std::process::Abort;

/// Over an input of the bytes 00 to 7f and the drawn bytes 00 to 0f, 00 to 07, 08 to 17.
const SEALS: &str =
    r#"seal-file t data/a --block 64;0;0120000102030405060708090a0b0c0d0e0f020c646174612f61028003$;
seal-file t data/a --key-bytes 32;0;0140000102030405060708090a0b0c0d0e0f000102030405060708090a0b0c0d0e0f020c646174612f6102c802$;
seal-file t data/a --block 1 --key-bytes 24;0;0130000102030405060708090a0b0c0d0e0f0001020304050607020c646174612f6102903a$;
seal-file t data/a --block 16777216;0;0120000102030405060708090a0b0c0d0e0f020c646174612f6102c802$;
seal-file t data/x;19;;NameTaken "data/x"
seal-file t data/x --block 1;19;;NameTaken "data/x""#;

/// How many zeros are sealed, how many bytes the file has, and the row.
const SEALED_LENGTHS: [(usize, u64, &str); 3] = [
    (
        0,
        36,
        "seal-file t data/a;0;0120000102030405060708090a0b0c0d0e0f020c646174612f610248$;",
    ),
    (
        128,
        192,
        "seal-file t data/a --block 64;0;0120000102030405060708090a0b0c0d0e0f020c646174612f61028003$;",
    ),
    (
        129,
        221,
        "seal-file t data/a --block 64;0;0120000102030405060708090a0b0c0d0e0f020c646174612f6102ba03$;",
    ),
];

/// The bytes of `data/a` with nothing sealed in it (Python's `cryptography`).
const EMPTY_OBJECT: &str =
    "4147533100001000000102030405060700000000948db1b72162f877d6c328a44ebd9bdf";

/// Reads of `data/a`.
const READS_OF_A: &str =
    r#"cat-file t data/a --key KEY --length 192 --prefix data/a --skip 60 --take 8;0;<=>?@ABC;
cat-file t data/a --key KEY --length 192 --prefix data/b;15;;Block "data/a" 0
cat-file t data/a --key KEY --length 192;15;;Block "data/a" 0
cat-file t data/a --prefix data/a --skip 120 --take 7 --key KEY --length 192;0;xyz{|}~;"#;

#[test]
fn rows_of_seal_file(rt: HostRuntime) {
    check_rows(&rt, SEALS, || Seen::new(&rt, NO_FAILS));
}

/// Nothing is one block without plaintext, and one byte behind whole blocks is a block more.
#[test]
fn lengths_of_sealed_files(rt: HostRuntime) {
    let path = path(&rt, "data/a");
    for (count, size, row) in SEALED_LENGTHS {
        let mut seen = Seen::new(&rt, NO_FAILS);
        seen.input = zeros(&rt, count);
        check_row(&rt, &mut seen, row);
        assert!(rt; seen.table.size(&path) == Ok(Some(size)), "{count}");
        if count == 0 {
            let found = seen.table.get(&path).expect(&rt, "the file");
            let digits = hex::encode(rt.alloc(), found).expect(&rt, "digits");
            assert!(rt; digits.as_str() == EMPTY_OBJECT);
        }
    }
}

/// So many zeros, of which a read gives at most 4,096.
fn zeros(rt: &(impl Abort + AllocGlobal), count: usize) -> MemSource {
    let bytes = vec![in rt.alloc(); 0; count].expect(rt, "an input");
    MemSource::new(Bytes::from_vec(bytes), 4096, Vec::new(rt.alloc()))
}

/// A file that was sealed is read back.
#[test]
fn a_sealed_file_is_read(rt: HostRuntime) {
    check_rows(&rt, READS_OF_A, || {
        let mut seen = Seen::new(&rt, NO_FAILS);
        assert!(rt; seen.run(&rt, "seal-file t data/a --block 64") == 0);
        seen.clear_output(&rt);
        seen
    });
}

/// And isn't sealed again.
#[test]
fn a_path_that_is_taken(rt: HostRuntime) {
    let mut seen = Seen::new(&rt, NO_FAILS);
    assert!(rt; seen.run(&rt, "seal-file t data/a") == 0);
    seen.input = zeros(&rt, 1);
    seen.draws = draws(&rt, u64::MAX);
    assert!(rt; seen.run(&rt, "seal-file t data/a") == 19);
    assert!(rt; seen.err.written() == b"NameTaken \"data/a\"\n".as_slice());
}

/// Of an input that is 3 bytes past the limit of 64 MiB, one of them is read.
#[test]
fn too_long_an_input(rt: HostRuntime) {
    let mut seen = Seen::new(&rt, NO_FAILS);
    seen.input = zeros(&rt, 67108867);
    check_row(
        &rt,
        &mut seen,
        "seal-file t data/a;21;;Limit Input 67108864",
    );
    let mut rest = [7; 4];
    assert!(rt; seen.input.read(&mut rest) == Ok(2));
    assert!(rt; rest == [0, 0, 7, 7]);
}

/// The first bytes of ChaCha20 under a key of 32 zero bytes stand in RFC 8439, A.1, test vector 1.
#[test]
fn a_generator_draws_a_key(rt: HostRuntime) {
    let mut seen = Seen::new(&rt, NO_FAILS);
    let mut draws = RngDraws::new(ChaCha20Rng::from_seed([0; 32]));
    let status = seen.run_with(&rt, "seal-file t data/b", &mut draws);
    assert!(rt; matches!(status, Status::Ok));
    let begins = b"012076b8e0ada0f13d90405d6ae55386bd28020c646174612f62".as_slice();
    assert!(rt; seen.out.written().starts_with(begins));
    let object = seen.table.get(&path(&rt, "data/b")).expect(&rt, "the file");
    let seed = b"\xbd\xd2\x19\xb8\xa0\x8d\xed\x1a".as_slice();
    assert!(rt; object.get(8..16) == Some(seed));
}
