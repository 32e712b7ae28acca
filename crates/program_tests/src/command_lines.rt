//! Words that are no command, values at the ends of their forms, and the program's own texts.

use crate::outside::{NO_FAILS, Seen, check_rows, words_of};
use icb_words::{CatFile, Command, WordFault, places, read_words};

/// Words of `cat-file` that have no place: the leftmost decides, be it a name or a value, and the text
/// behind a name is its value, also where it looks like a name.
const USAGE: &str = r#";2;;Usage 0
frob;2;;Usage 0
verify t;2;;Usage 0
cat-file;2;;Usage 1
cat-file t;2;;Usage 2
cat-file t a/../b --key KEY --length 102;2;;Usage 2
cat-file t data/x KEY;2;;Usage 3
cat-file t data/x --key;2;;Usage 4
cat-file t data/x --key 0001 --length 102;2;;Usage 4
cat-file t data/x --key 000102030405060708090a0b0c0d0e0g --length 102;2;;Usage 4
cat-file t data/x --key KEY --long 102;2;;Usage 5
cat-file t data/x --key KEY --length;2;;Usage 6
cat-file t data/x --key KEY --length 0102;2;;Usage 6
cat-file t data/x --key KEY --length +102;2;;Usage 6
cat-file t data/x --key KEY --length 9223372036854775808;2;;Usage 6
cat-file t data/x --key KEY --length 102 --take;2;;Usage 8
cat-file t data/x --length 102;2;;Usage 5
cat-file t data/x --key KEY;2;;Usage 5
cat-file t data/x --key KEY --skip 1 --take 1;2;;Usage 9
cat-file t data/x --key KEY --key KEY --length 102;2;;Usage 5
cat-file t data/x --key KEY --length 102 --length 102;2;;Usage 7
cat-file t data/x --key KEY --length 102 --block 4;2;;Usage 7
cat-file t data/x --key KEY --length 102 data/y;2;;Usage 7
cat-file t data/x --key=KEY --length 102;2;;Usage 3
cat-file t data/x --key 00 --frob 1;2;;Usage 4
cat-file t data/x --frob 1 --key 00;2;;Usage 3
cat-file t data/x --key KEY --length 102 --skip -1;2;;Usage 8
cat-file t data/x --key KEY --length 102 --take 1.5;2;;Usage 8
cat-file t data/x --key KEY --length 102 --skip ;2;;Usage 8
cat-file t data/x --prefix --key KEY --length 102;2;;Usage 5
cat-file t data/x --prefix;2;;Usage 4"#;

/// Words of `seal-file` that have no place.
const SEAL_USAGE: &str = r#"seal-file;2;;Usage 1
seal-file t;2;;Usage 2
seal-file t a/../b;2;;Usage 2
seal-file t data/a --key KEY;2;;Usage 3
seal-file t data/a --block;2;;Usage 4
seal-file t data/a --block 0;2;;Usage 4
seal-file t data/a --block 16777217;2;;Usage 4
seal-file t data/a --block 64k;2;;Usage 4
seal-file t data/a --key-bytes 20;2;;Usage 4
seal-file t data/a --key-bytes 016;2;;Usage 4
seal-file t data/a --block 64 --block 64;2;;Usage 5
seal-file t data/a --block 64 --key-bytes;2;;Usage 6
seal-file t data/a --block 64 data/b;2;;Usage 5"#;

/// Values at the ends of their forms, and the version.
const FORMS: &str = r#"cat-file t data/x --key KEY --length 0;14;;Header "data/x" BadLength 0
cat-file t data/x --key KEY --length 9223372036854775807;13;;Short "data/x" 102
cat-file t data/d=2024-01-01/x.avro --key KEY --length 102;12;;Missing "data/d=2024-01-01/x.avro"
cat-file t data/x --key 000102030405060708090A0B0C0D0E0F1011121314151617 --length 102;15;;Block "data/x" 0
cat-file t data/x --key 000102030405060708090a0b0c0d0e0f101112131415161718191a1b1c1d1e1f --length 102;15;;Block "data/x" 0
--version;0;iceberg 0.1.0$;
--version and more;0;iceberg 0.1.0$;"#;

#[test]
fn words_without_a_place(rt: HostRuntime) {
    check_rows(&rt, USAGE, || Seen::new(&rt, NO_FAILS));
    check_rows(&rt, SEAL_USAGE, || Seen::new(&rt, NO_FAILS));
}

#[test]
fn values_at_their_ends(rt: HostRuntime) {
    check_rows(&rt, FORMS, || Seen::new(&rt, NO_FAILS));
}

#[test]
fn help(rt: HostRuntime) {
    let mut seen = Seen::new(&rt, NO_FAILS);
    let number = seen.run(&rt, "--help");
    assert!(rt; number == 0 && seen.err.written().is_empty());
    let usage = b"usage: iceberg cat-file TABLE PATH --key HEX --length N".as_slice();
    assert!(rt; seen.out.written().starts_with(usage));
}

#[test]
fn a_command(rt: HostRuntime) {
    let words = words_of(&rt, "cat-file t data/x --length 9 --key KEY");
    let Ok(Command::CatFile(command)) = read_words(rt.alloc(), words.as_slice()) else {
        assert!(rt; false, "a command");
        return;
    };
    let CatFile {
        path,
        file_length,
        skip,
        take,
        ..
    } = command;
    assert!(rt; path.as_str() == "data/x");
    assert!(rt; file_length == 9 && skip == 0 && take.is_none());
}

#[test]
fn no_words(rt: HostRuntime) {
    let word = read_words(rt.alloc(), &[]).err();
    assert!(rt; word == Some(WordFault::NoPlace { word: 0 }));
}

#[test]
fn places_of_words(rt: HostRuntime) {
    let words = words_of(&rt, "scan t --keys ring --metadata --genuine --keys other");
    let found = places(words.as_slice());
    assert!(rt; found.table == Some("t"));
    assert!(rt; found.keys == Some("ring"));
    assert!(rt; found.metadata == Some("--genuine"));
    assert!(rt; found.genuine == Some("--keys"));
    let none = places(&[]);
    assert!(rt; none.table.is_none() && none.keys.is_none());
}
