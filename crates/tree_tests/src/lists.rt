//! All rows of a list as they are, of which no test is made, and that nothing but the list is asked for.

use crate::made::{number, path, store};
use crate::trees::{keyring, metadata, part};
use crate::words::refusal;
use icb_base::MemStore;
use icb_list::ListRow;
use icb_walk::{TreeFault, list_rows};
use std::process::Abort;

/// A snapshot, the objects, and the rows of its list, each with its content, its counts of files, and whether it
/// has key metadata; or the refusal.
const LISTS: &str =
    "1;list=L:m1/deletes.plain//m2 1=M:a;meta/1 0 1 0 0 true, meta/9 1 0 0 5 true, meta/1 0 1 0 0 false, meta/2 0 1 0 0 true
1;list=L:- 1=M:a;
4;list=K:k2.k-deletes:prefix=meta/1 1=M:a;meta/2 0 1 0 0 true, meta/9 1 0 0 1 true
99;list=L:m1 1=M:a;NoSnapshot 99
20;list=L:m1 1=M:a;PlainList 20
1;list=L:m1/m2:flip=8 1=M:a;Block meta/list 0
1;list=L:m1/m2:flip=1803 1=M:a;Block meta/list 6
1;list=L:m1.content-7.m2 1=M:a;Malformed meta/list 1462 Field 517
1;1=M:a;Missing meta/list";

/// Rows in words. Each lies in the table.
fn of_rows(rt: &(impl Abort + AllocGlobal), rows: &[ListRow]) -> String {
    let mut words = String::new(rt.alloc());
    for row in rows.iter() {
        if words.as_str() != "" {
            words.push_str(", ").expect(rt, "room");
        }
        words.push_str(of_row(rt, row).as_str()).expect(rt, "room");
    }
    words
}

/// A row in words.
fn of_row(rt: &(impl Abort + AllocGlobal), row: &ListRow) -> String {
    let path = row
        .path
        .as_str()
        .strip_prefix("s3://b/t/")
        .expect(rt, "a path");
    let [added, kept, deleted] = row.files;
    let key = row.key.is_some();
    format!(in rt.alloc(); "{path} {} {added} {kept} {deleted} {key}", row.content).expect(
        rt, "room",
    )
}

/// All rows of the list of a snapshot.
fn rows_of(
    rt: &(impl Abort + AllocGlobal),
    snapshot: usize,
    store: &mut MemStore,
) -> Result<Vec<ListRow>, TreeFault> {
    assert!(rt; snapshot < 100);
    list_rows(
        rt.alloc(),
        store,
        &metadata(rt),
        &keyring(rt),
        snapshot as i64,
    )
}

/// Reads the list of a line of `LISTS`.
fn check_list(rt: &(impl Abort + AllocGlobal), line: &str) {
    let mut store = store(rt, part(rt, line, 1), Vec::new(rt.alloc()));
    let told = match rows_of(rt, number(rt, part(rt, line, 0)), &mut store) {
        Ok(rows) => of_rows(rt, rows.as_slice()),
        Err(fault) => refusal(rt, &fault),
    };
    assert!(rt; told.as_str() == part(rt, line, 2), "{line}: {told}");
    assert!(rt; store.asked_of(&path(rt, "meta/1")) == 0, "{line}");
}

#[test]
fn lists_have_all_rows(rt: HostRuntime) {
    for line in LISTS.lines() {
        check_list(&rt, line);
    }
}
