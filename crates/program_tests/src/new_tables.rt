//! The command `create`: what is put and printed, why words and keyrings are refused, and what `keys` and
//! `snapshots` say of a new table.

use crate::outside::{Fails, NEVER, NO_FAILS, Seen, check_row, check_rows, path};
use icb_base::{ByteDraws, Bytes, MemSource, Source};
use std::process::Abort;

/// Two master keys, and one whose id is that of a table's first key.
const RING: &str =
    "m1=000102030405060708090a0b0c0d0e0f\n\nm2=101112131415161718191A1B1C1D1E1F\nkey-1=000102030405060708090a0b0c0d0e0f";

/// The words of a table of three columns.
const CREATE: &str = "create t --keys ring --master m1 --schema n:long!,s:string,d:date";

/// The first version of it over the bytes 00 to 2b at the time 7; the key is sealed with another
/// implementation (Python's `cryptography`), and the identifier made by another (Python's `uuid`).
const FIRST: &str =
    r#"{"current-schema-id":0,"default-sort-order-id":0,"default-spec-id":0,"encryption-keys":[{"encrypted-by-id":"m1","encrypted-key-metadata":"ICEiIyQlJicoKSor0OQAt5Llbx6jUZXPbdKKYYviy+Lq/hHXMKvh0xQfLic=","key-id":"key-1"}],"format-version":3,"last-column-id":3,"last-partition-id":999,"last-sequence-number":0,"last-updated-ms":7,"location":"file:///table","metadata-log":[],"next-row-id":0,"partition-specs":[{"fields":[],"spec-id":0}],"properties":{"commit.retry.num-retries":"4","encryption.data-key-length":"16","encryption.key-id":"m1","icb.avro-block":"65536","icb.block-length":"1048576","icb.rows-per-file":"100000"},"refs":{},"schemas":[{"fields":[{"id":1,"name":"n","required":true,"type":"long"},{"id":2,"name":"s","required":false,"type":"string"},{"id":3,"name":"d","required":false,"type":"date"}],"schema-id":0,"type":"struct"}],"snapshot-log":[],"snapshots":[],"sort-orders":[{"fields":[],"order-id":0}],"table-uuid":"00010203-0405-4607-8809-0a0b0c0d0e0f"}"#;

/// The words of another table, with all options at an end of their forms.
const OTHER: &str =
    "create t --schema u:uuid --retries 0 --rows-per-file 1000000 --avro-block 1 --block 16777216 --key-bytes 32 --location s3://b/t --keys ring --master key-1";

/// Its first version over the bytes 00 to 3b.
const OTHER_FIRST: &str =
    r#"{"current-schema-id":0,"default-sort-order-id":0,"default-spec-id":0,"encryption-keys":[{"encrypted-by-id":"key-1","encrypted-key-metadata":"MDEyMzQ1Njc4OTo7iwxb+ValHPuopfGWzPLcpiSwG+5ekgB6MWUenRMJHKEfwmBY4+GbBYXHLa4vC7Vk","key-id":"key-2"}],"format-version":3,"last-column-id":1,"last-partition-id":999,"last-sequence-number":0,"last-updated-ms":7,"location":"s3://b/t","metadata-log":[],"next-row-id":0,"partition-specs":[{"fields":[],"spec-id":0}],"properties":{"commit.retry.num-retries":"0","encryption.data-key-length":"32","encryption.key-id":"key-1","icb.avro-block":"1","icb.block-length":"16777216","icb.rows-per-file":"1000000"},"refs":{},"schemas":[{"fields":[{"id":1,"name":"u","required":false,"type":"uuid"}],"schema-id":0,"type":"struct"}],"snapshot-log":[],"snapshots":[],"sort-orders":[{"fields":[],"order-id":0}],"table-uuid":"00010203-0405-4607-8809-0a0b0c0d0e0f"}"#;

/// Words that have no place.
const USAGE: &str = r#"create;2;;Usage 1
create t;2;;Usage 2
create t --keys ring --master m1;2;;Usage 6
create t --keys ring --schema n:long;2;;Usage 6
create t --master m1 --schema n:long;2;;Usage 6
create t --keys ring --master m1! --schema n:long;2;;Usage 5
create t --keys ring --master  --schema n:long;2;;Usage 5
create t --keys ring --master m1 --schema n:lang;2;;Usage 7
create t --keys ring --master m1 --schema n:long,n:int;2;;Usage 7
create t --keys ring --master m1 --schema ;2;;Usage 7
create t --keys ring --master m1 --schema n:long more;2;;Usage 8
create t --keys ring --master m1 --schema n:long --take 1;2;;Usage 8
create t --keys ring --master m1 --schema n:long --location;2;;Usage 9
create t --keys ring --master m1 --schema n:long --location ;2;;Usage 9
create t --keys ring --master m1 --schema n:long --location file:///t/;2;;Usage 9
create t --keys ring --master m1 --schema n:long --key-bytes 20;2;;Usage 9
create t --keys ring --master m1 --schema n:long --block 0;2;;Usage 9
create t --keys ring --master m1 --schema n:long --block 16777217;2;;Usage 9
create t --keys ring --master m1 --schema n:long --avro-block 0;2;;Usage 9
create t --keys ring --master m1 --schema n:long --avro-block 1048577;2;;Usage 9
create t --keys ring --master m1 --schema n:long --rows-per-file 0;2;;Usage 9
create t --keys ring --master m1 --schema n:long --rows-per-file 1000001;2;;Usage 9
create t --keys ring --master m1 --schema n:long --retries 101;2;;Usage 9
create t --keys ring --master m1 --schema n:long --retries 01;2;;Usage 9
create t --keys ring --master m1 --schema n:long --retries 4 --retries 4;2;;Usage 10"#;

/// Keyrings, with `|` for a line feed, and what `create` ends with over each.
const RINGS: &str = r#"m1=00;3;;BadKeyring 1
m1=000102030405060708090a0b0c0d0e0f|||m1=101112131415161718191a1b1c1d1e1f;3;;BadKeyring 4
m2=000102030405060708090a0b0c0d0e0f;8;;NoKey "m1"
;8;;NoKey "m1"
m1=000102030405060708090a0b0c0d0e0f;0;version 1$;"#;

/// What `create` ends with, by the number of the call of the keyring, the draws, the table and the output
/// that fails, and whether version 1 is held afterwards. The last read of the keyring finds its end.
const FAULTS: [(u64, u64, u64, u64, &str, bool); 5] = [
    (0, NEVER, NEVER, NEVER, "31;;InputFault", false),
    (1, 0, NEVER, NEVER, "31;;InputFault", false),
    (NEVER, 0, 0, NEVER, "33;;RandomFault", false),
    (NEVER, NEVER, 0, 0, "30;;StoreFault", false),
    (NEVER, NEVER, NEVER, 0, "32;versi;OutputFault", true),
];

/// The outside of these rows: no object of the new table, the keyring, and the bytes 00 to 3b.
fn outside(rt: &(impl Abort + AllocGlobal), ring: &str, fails: Fails) -> Seen {
    let mut seen = Seen::new(rt, fails);
    seen.keys = source(rt, ring.as_bytes(), NEVER);
    seen.draws = draws(rt, fails.draws);
    seen
}

/// The bytes of a text as a source, of which a read gives at most 4,096 and one fails.
fn source(rt: &(impl Abort + AllocGlobal), text: &[u8], fails: u64) -> MemSource {
    let bytes = Bytes::from_slice(rt.alloc(), text).expect(rt, "a keyring");
    let fails = [fails].to_vec(rt.alloc()).expect(rt, "a number");
    MemSource::new(bytes, 4096, fails)
}

/// The bytes 00 to 3b.
fn draws(rt: &(impl Abort + AllocGlobal), fails: u64) -> ByteDraws {
    let mut bytes = Bytes::new(rt.alloc());
    for byte in 0..60u8 {
        bytes.push(byte).expect(rt, "random bytes");
    }
    let fails = [fails].to_vec(rt.alloc()).expect(rt, "a number");
    ByteDraws::new(bytes, fails)
}

/// Whether the table holds a version 1 of this text.
fn holds_first(rt: &(impl Abort + AllocGlobal), seen: &Seen, text: &str) -> bool {
    seen.table.get(&path(rt, "metadata/v1.metadata.json")) == Some(text.as_bytes())
}

#[test]
fn words_without_a_place(rt: HostRuntime) {
    check_rows(&rt, USAGE, || outside(&rt, RING, NO_FAILS));
}

#[test]
fn first_versions(rt: HostRuntime) {
    for (words, text, keys) in [
        (CREATE, FIRST, r#"keys t;0;"key-1" "m1" kek$;"#),
        (OTHER, OTHER_FIRST, r#"keys t;0;"key-2" "key-1" kek$;"#),
    ] {
        let mut seen = outside(&rt, RING, NO_FAILS);
        assert!(rt; seen.run(&rt, words) == 0, "{words}");
        assert!(rt; seen.out.written() == b"version 1\n".as_slice());
        assert!(rt; seen.err.written().is_empty());
        assert!(rt; holds_first(&rt, &seen, text), "{words}: the first version");
        seen.clear_output(&rt);
        check_row(&rt, &mut seen, keys);
        seen.clear_output(&rt);
        check_row(&rt, &mut seen, "snapshots t;0;;");
    }
}

/// A second table isn't made, and the first one stays, also where the words are others.
#[test]
fn a_second_table(rt: HostRuntime) {
    let mut seen = outside(&rt, RING, NO_FAILS);
    assert!(rt; seen.run(&rt, CREATE) == 0);
    seen.clear_output(&rt);
    seen.keys = source(&rt, RING.as_bytes(), NEVER);
    seen.draws = draws(&rt, NEVER);
    assert!(rt; seen.run(&rt, OTHER) == 5);
    assert!(rt; seen.out.written().is_empty());
    assert!(rt; seen.err.written() == b"TableExists\n".as_slice());
    assert!(rt; holds_first(&rt, &seen, FIRST));
}

#[test]
fn keyrings(rt: HostRuntime) {
    for line in RINGS.lines() {
        let (ring, ended) = line.split_once(';').expect(&rt, "a keyring and an end");
        let ring = ring.replace(rt.alloc(), "|", "\n").expect(&rt, "lines");
        let mut seen = outside(&rt, ring.as_str(), NO_FAILS);
        let row = format!(in rt.alloc(); "{};{ended}", CREATE).expect(&rt, "a row");
        check_row(&rt, &mut seen, row.as_str());
    }
}

/// More than 1,000 keys, and more than 1 MiB, of which one byte past the limit is read.
#[test]
fn keyrings_past_their_limits(rt: HostRuntime) {
    for (count, line, ended) in [
        (1001, "x\n", "21;;Limit Keyring 1000"),
        (1000, "x\n", "3;;BadKeyring 1"),
        (1048576, "\n", "8;;NoKey \"m1\""),
        (1048579, "\n", "21;;Limit Keyring 1048576"),
    ] {
        let text = line.repeat(rt.alloc(), count).expect(&rt, "a keyring");
        let mut seen = outside(&rt, text.as_str(), NO_FAILS);
        let row = format!(in rt.alloc(); "{};{ended}", CREATE).expect(&rt, "a row");
        check_row(&rt, &mut seen, row.as_str());
        let mut rest = [7; 4];
        let left = if count == 1048579 { 2 } else { 0 };
        assert!(rt; seen.keys.read(&mut rest) == Ok(left), "{ended}");
    }
}

#[test]
fn faults_of_create(rt: HostRuntime) {
    for (keys, draws, table, out, ended, held) in FAULTS {
        let fails = Fails {
            draws,
            table,
            out,
            ..NO_FAILS
        };
        let mut seen = outside(&rt, RING, fails);
        seen.keys = source(&rt, RING.as_bytes(), keys);
        let row = format!(in rt.alloc(); "{};{ended}", CREATE).expect(&rt, "a row");
        check_row(&rt, &mut seen, row.as_str());
        assert!(rt; holds_first(&rt, &seen, FIRST) == held, "{ended}");
        let found = seen
            .table
            .get(&path(&rt, "metadata/v1.metadata.json"))
            .is_some();
        assert!(rt; found == held, "{ended}");
    }
}
