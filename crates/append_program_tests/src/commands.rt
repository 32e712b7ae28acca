//! Appends to tables that `create` made, with what they print and put, and what other commands print behind them.

use crate::outside::{RING, Seen, check_row, check_rows, path, source};
use icb_base::{Bytes, MemSource};
use std::process::Abort;

/// A table of three columns, two appends, and what is refused.
const THREE_COLUMNS: &str = r#"append t --keys k;[1,"a",1]|;6;;NoTable|;0
create t --keys k --master m1 --schema n:long!,s:string,d:date;;0;version 1|;;1
scan t --keys k;;0;;;1
scan t --keys k --columns x;;11;;NoColumn "x"|;1
append t --keys k;[1,"a",19000]|[2,"",null]|[9223372036854775807,null,0]|;0;snapshot 1 version 2|;;5
scan t --keys k --columns s,n;;0;["a",1]|["",2]|[null,9223372036854775807]|;;5
append t --keys k;[5,"b",1]|;0;snapshot 2 version 3|;;9
scan t --keys k --snapshot 1 --columns n;;0;[1]|[2]|[9223372036854775807]|;;9
scan t --keys k --columns n;;0;[1]|[2]|[9223372036854775807]|[5]|;;9
scan t --keys k --snapshot 9;;10;;NoSnapshot 9|;9
scan t --keys k --columns n --skip 3 --take 9;;0;[5]|;;9
append t --keys k;[1,2];4;;BadInput 1|;9
append t --keys k;[1,"a",1]|[2,"b",2]|[3,"c",3]|[4,"d"]|[5];4;;BadInput 4|;9
append t --keys k;[1,"a",1]||[2,"b",2]|;4;;BadInput 2|;9
append t --keys k;[1.0,"a",1]|;4;;BadInput 1|;9
append t --keys k;[null,"a",1]|;4;;BadInput 1|;9
snapshots t;;0;1 - 1 7 "append" 3|2 1 2 7 "append" 1|;;9
keys t;;0;"key-1" "m1" kek|"key-2" "key-1" list|"key-3" "key-1" list|;;9"#;

/// An append of no lines to a new table, and appends around another one; the last line may lack its line feed.
const NO_LINES: &str = r#"create t --keys k --master m1 --schema n:long!;;0;version 1|;;1
append t --keys k;;0;snapshot 1 version 2|;;3
scan t --keys k;;0;;;3
append t --keys k;[1]|[2];0;snapshot 2 version 3|;;7
append t --keys k;;0;snapshot 3 version 4|;;9
scan t --keys k;;0;[1]|[2]|;;9
scan t --keys k --snapshot 1;;0;;;9
snapshots t;;0;1 - 1 7 "append" 0|2 1 2 7 "append" 2|3 2 3 7 "append" 0|;;9"#;

/// Data files of two rows: an append of five rows has three.
const SHORT_FILES: &str =
    r#"create t --keys k --master m1 --schema n:long!,s:string --rows-per-file 2 --block 16 --avro-block 1 --key-bytes 32;;0;version 1|;;1
append t --keys k;[1,"a"]|[2,"b"]|[3,"c"]|[4,"d"]|[5,null]|;0;snapshot 1 version 2|;;7
append t --keys k;[6,"f"]|[7,"g"]|;0;snapshot 2 version 3|;;11
scan t --keys k;;0;[1,"a"]|[2,"b"]|[3,"c"]|[4,"d"]|[5,null]|[6,"f"]|[7,"g"]|;;11
scan t --keys k --range n --low 4 --high 6 --columns s;;0;["d"]|[null]|["f"]|;;11
scan t --keys k --snapshot 1 --skip 4;;0;[5,null]|;;11"#;

/// Another master behind two appends: it alone opens all that the table has, and what is appended then.
const ROTATED: &str = r#"create t --keys k --master m1 --schema n:long!;;0;version 1|;;1
append t --keys k;[1]|;0;snapshot 1 version 2|;;5
append t --keys k;[2]|;0;snapshot 2 version 3|;;9
rotate t --keys k --master m2;;0;version 4|;;10
rotate t --keys k --master m2;;20;;SameKey "m2"|;10"#;

/// What comes of the table with the new master alone.
const NEW_MASTER: &str = r#"append t --keys k;[3]|;0;snapshot 3 version 5|;;14
scan t --keys k;;0;[1]|[2]|[3]|;;14
scan t --keys k --snapshot 1;;0;[1]|;;14"#;

/// And with the old one alone.
const OLD_MASTER: &str = r#"append t --keys k;[4]|;8;;NoKey "m2"|;14
scan t --keys k;;8;;NoKey "m2"|;14"#;

/// Words that have no place.
const USAGE: &str = r#"append;;2;;Usage 1|;0
append t;;2;;Usage 2|;0
append t --keys;;2;;Usage 3|;0
append t --take 1;;2;;Usage 2|;0
append t k;;2;;Usage 2|;0
append t --keys k more;;2;;Usage 4|;0
append t --keys k --keys k;;2;;Usage 4|;0
append t --keys k --master m1;;2;;Usage 4|;0"#;

#[test]
fn rows_are_appended_and_scanned(rt: HostRuntime) {
    check_rows(&rt, &mut Seen::empty(&rt), RING, THREE_COLUMNS);
}

#[test]
fn appends_of_no_lines(rt: HostRuntime) {
    check_rows(&rt, &mut Seen::empty(&rt), RING, NO_LINES);
}

#[test]
fn rows_in_several_files(rt: HostRuntime) {
    check_rows(&rt, &mut Seen::empty(&rt), RING, SHORT_FILES);
}

#[test]
fn another_master(rt: HostRuntime) {
    let mut seen = Seen::empty(&rt);
    check_rows(&rt, &mut seen, RING, ROTATED);
    let new = "m2=101112131415161718191a1b1c1d1e1f";
    check_rows(&rt, &mut seen, new, NEW_MASTER);
    let old = "m1=000102030405060708090a0b0c0d0e0f";
    check_rows(&rt, &mut seen, old, OLD_MASTER);
}

#[test]
fn words_without_a_place(rt: HostRuntime) {
    check_rows(&rt, &mut Seen::empty(&rt), RING, USAGE);
}

/// The bytes of an object as a source.
fn held(rt: &(impl Abort + AllocGlobal), seen: &Seen, name: &str) -> MemSource {
    let object = seen.table.get(&path(rt, name)).expect(rt, "an object");
    let bytes = Bytes::from_slice(rt.alloc(), object).expect(rt, "room");
    MemSource::new(bytes, 4096, Vec::new(rt.alloc()))
}

/// Scans by the metadata of version 2, when there are three.
fn scan_earlier(rt: &(impl Abort + AllocGlobal), seen: &mut Seen) {
    check_rows(rt, seen, RING, THREE_COLUMNS);
    seen.next(rt, RING, "");
    seen.trusted = held(rt, seen, "metadata/v2.metadata.json");
    check_row(
        rt,
        seen,
        r#"scan t --keys k --metadata m;;0;[1,"a",19000]|[2,"",null]|[9223372036854775807,null,0]|;;9"#,
    );
}

#[test]
fn earlier_metadata_shows_earlier_rows(rt: HostRuntime) {
    scan_earlier(&rt, &mut Seen::empty(&rt));
}
