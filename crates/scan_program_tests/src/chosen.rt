//! Which rows are printed, by the table's current version and by metadata that is handed in, and which words have
//! no place.

use crate::outside::{NEVER, Seen, check_row, path, source};
use crate::table::RING;
use icb_base::{MemStore, Source};
use std::process::Abort;

/// Words, and the rows that they choose.
const CHOSEN: &str =
    r#"scan t --keys k;0;[1,"a"]|[2,null]|[3,"c"]|[4,"d"]|[10,"x"]|[11,null]|[3,"e"]|[20,"f"]|[21,"g"]|;
scan t --keys k --columns s,n --take 3;0;["a",1]|[null,2]|["c",3]|;
scan t --keys k --snapshot 76 --columns n;0;[1]|[2]|[3]|[4]|[10]|[11]|;
scan t --keys k --columns n --skip 3 --take 9;0;[4]|[10]|[11]|[3]|[20]|[21]|;
scan t --columns n --range n --low 3 --high 4 --keys k;0;[3]|[4]|[3]|;
scan t --keys k --range s --low "c" --high "d";0;[3,"c"]|[4,"d"]|;
scan t --keys k --columns n,n --range n --high 1;0;[1,1]|;
scan t --keys k --range n --low 12 --snapshot 76;0;;
scan t --keys k --take 0;0;;
scan t --keys k --snapshot 80;0;[5,"d"]|[6,null]|;"#;

/// Words that have no place.
const USAGE: &str = "scan;2;;Usage 1|
scan t;2;;Usage 2|
scan t --take x;2;;Usage 3|
scan t --keys;2;;Usage 3|
scan t --keys=k;2;;Usage 2|
scan t k --keys;2;;Usage 2|
scan t --keys k --keys k;2;;Usage 4|
scan t --keys k --frob 1;2;;Usage 4|
scan t --keys k --snapshot -1;2;;Usage 5|
scan t --keys k --snapshot 9223372036854775808;2;;Usage 5|
scan t --keys k --skip 01;2;;Usage 5|
scan t --keys k --take;2;;Usage 5|
scan t --keys k --low 1;2;;Usage 6|
scan t --keys k --high 1 --take 1;2;;Usage 8|
scan t --range n --low 1;2;;Usage 6|";

/// Runs each row over an outside of its own.
fn check_rows(rt: &(impl Abort + AllocGlobal), rows: &str) {
    for row in rows.lines() {
        check_row(rt, &mut Seen::new(rt), row);
    }
}

#[test]
fn rows_of_the_current_version(rt: HostRuntime) {
    check_rows(&rt, CHOSEN);
}

#[test]
fn words_without_a_place(rt: HostRuntime) {
    check_rows(&rt, USAGE);
}

/// Metadata that is handed in is read in the place of the current version, and to its end.
#[test]
fn metadata_that_is_handed_in(rt: HostRuntime) {
    let mut seen = Seen::new(&rt);
    seen.table.clear(&path(&rt, "metadata/v1.metadata.json"));
    let row = "scan t --columns n --take 1 --metadata m --keys k;0;[1]|;";
    check_row(&rt, &mut seen, row);
    let mut rest = [0; 1];
    assert!(rt; seen.trusted.read(&mut rest) == Ok(0));
    assert!(rt; seen.keys.read(&mut rest) == Ok(0));
}

/// Without it nothing of it is read.
#[test]
fn metadata_that_is_not_handed_in(rt: HostRuntime) {
    let mut seen = Seen::new(&rt);
    seen.table.clear(&path(&rt, "metadata/v1.metadata.json"));
    check_row(&rt, &mut seen, "scan t --keys k;6;;NoTable|");
    let mut rest = [0; 1];
    assert!(rt; seen.trusted.read(&mut rest) == Ok(1) && rest == [123]);
}

/// A new table has no rows.
#[test]
fn a_new_table(rt: HostRuntime) {
    let mut seen = Seen::new(&rt);
    seen.table = MemStore::new(rt.alloc(), Vec::new(rt.alloc()));
    let create = "create t --keys k --master m --schema n:long!,s:string,d:date";
    assert!(rt; seen.run(&rt, create) == 0);
    for row in [
        "scan t --keys k;0;version 1|;",
        "scan t --keys k --columns x;11;version 1|;NoColumn \"x\"|",
    ] {
        seen.keys = source(&rt, RING, NEVER);
        check_row(&rt, &mut seen, row);
    }
}
