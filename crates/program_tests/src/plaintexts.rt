//! `cat-file`: what is written of whole files and of slices, and why a file is refused.

use crate::outside::{NO_FAILS, Seen, check_rows};

/// Whole files: as they were written, attacked, or under another key, length or path. A block of another
/// file opens under the same key and number (`data/mixed`), and a last block without plaintext is read.
const FILES_READ: &str = r#"cat-file t data/x --key KEY --length 102;0;abcdefghij;
cat-file t data/flipped --key KEY --length 102;15;abcd;Block "data/flipped" 1
cat-file t data/x --key KEY --length 101;15;abcdefgh;Block "data/x" 2
cat-file t data/x --key KEY --length 67;14;;Header "data/x" BadLength 67
cat-file t data/x --key KEY --length 103;13;;Short "data/x" 102
cat-file t data/y --key KEY --length 102;12;;Missing "data/y"
cat-file t data/x;2;;Usage 3
cat-file t data/x --key KEY --length 8;14;;Header "data/x" BadLength 8
cat-file t data/x --key KEY --length 35;14;;Header "data/x" BadLength 35
cat-file t data/magic --key KEY --length 102;14;;Header "data/magic" Magic 40475331
cat-file t data/block-length --key KEY --length 102;14;;Header "data/block-length" BlockLength 16777220
cat-file t data/no-blocks --key KEY --length 102;14;;Header "data/no-blocks" BlockLength 0
cat-file t data/length-5 --key KEY --length 102;15;;Block "data/length-5" 0
cat-file t data/length-8 --key KEY --length 102;14;;Header "data/length-8" BadLength 102
cat-file t data/exchanged --key KEY --length 102;15;;Block "data/exchanged" 0
cat-file t data/repeated --key KEY --length 102;15;abcd;Block "data/repeated" 1
cat-file t data/mixed --key KEY --length 102;0;abcdopqrij;
cat-file t data/cut --key KEY --length 102;13;;Short "data/cut" 72
cat-file t data/cut --key KEY --length 72;0;abcdefgh;
cat-file t data/longer --key KEY --length 102;0;abcdefghij;
cat-file t data/empty-last --key KEY --length 100;0;abcdefgh;
cat-file t data/empty-last-flipped --key KEY --length 100;15;abcdefgh;Block "data/empty-last-flipped" 2
cat-file t data/empty --key KEY --length 36;0;;
cat-file t data/one-block --key KEY --length 46;0;abcdefghij;
cat-file t data/wide --key KEY --length 192;0;aaaaaaaaaaaaaaaaaaaaaaaaaaaaaaaaaaaaaaaaaaaaaaaaaaaaaaaaaaaaaaaabbbbbbbbbbbbbbbbbbbbbbbbbbbbbbbbbbbbbbbbbbbbbbbbbbbbbbbbbbbbbbbb;
cat-file t data/wide --key KEY --length 127;14;;Header "data/wide" BadLength 127
cat-file t data/wide --key KEY --length 128;15;aaaaaaaaaaaaaaaaaaaaaaaaaaaaaaaaaaaaaaaaaaaaaaaaaaaaaaaaaaaaaaaa;Block "data/wide" 1
cat-file t data/x --key 000102030405060708090a0b0c0d0e0e --length 102;15;;Block "data/x" 0"#;

/// Slices, and options in any order. The stream is opened also where nothing is taken, and its last block
/// is read where the slice ends at the end of all.
const SLICES: &str = r#"cat-file t data/x --length 102 --key KEY;0;abcdefghij;
cat-file t data/x --key KEY --length 102 --skip 3 --take 4;0;defg;
cat-file t data/x --take 4 --skip 3 --length 102 --key KEY;0;defg;
cat-file t data/x --key KEY --length 102 --skip 9;0;j;
cat-file t data/x --key KEY --length 102 --skip 10;0;;
cat-file t data/x --key KEY --length 102 --skip 9223372036854775807;0;;
cat-file t data/x --key KEY --length 102 --take 0;0;;
cat-file t data/x --key KEY --length 102 --take 99;0;abcdefghij;
cat-file t data/x --key KEY --length 102 --skip 8 --take 9223372036854775807;0;ij;
cat-file t data/x --key KEY --length 102 --prefix ;0;abcdefghij;
cat-file t data/x --key KEY --length 102 --prefix data/x;15;;Block "data/x" 0
cat-file t data/x --key 000102030405060708090a0b0c0d0e0e --length 102 --take 0;15;;Block "data/x" 0
cat-file t data/flipped --key KEY --length 102 --take 4;0;abcd;
cat-file t data/flipped --key KEY --length 102 --take 5;15;abcd;Block "data/flipped" 1
cat-file t data/flipped --key KEY --length 102 --skip 2 --take 6;15;cd;Block "data/flipped" 1
cat-file t data/flipped --key KEY --length 102 --skip 5 --take 1;15;;Block "data/flipped" 1
cat-file t data/flipped --key KEY --length 102 --skip 8;0;ij;
cat-file t data/empty-last-flipped --key KEY --length 100 --take 7;0;abcdefg;
cat-file t data/empty-last-flipped --key KEY --length 100 --skip 6;15;gh;Block "data/empty-last-flipped" 2
cat-file t data/empty --key KEY --length 36 --skip 1 --take 1;0;;"#;

#[test]
fn whole_files(rt: HostRuntime) {
    check_rows(&rt, FILES_READ, || Seen::new(&rt, NO_FAILS));
}

#[test]
fn slices(rt: HostRuntime) {
    check_rows(&rt, SLICES, || Seen::new(&rt, NO_FAILS));
}
