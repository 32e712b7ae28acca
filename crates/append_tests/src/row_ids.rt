//! An append behind a parent whose list has a row without a first row id, which no append of ours writes.

use crate::outside::{META, NEVER, RING, answer, draws, ring, table};
use icb_append::{ListRows, Tried, path_of_list, put_next_version, put_own_list};
use icb_base::{ByteDraws, MemStore, Put};
use icb_list::ListRow;
use icb_schema::Text;
use icb_tree::current;
use icb_turns::{CannotWhat, JobFault};
use std::process::Abort;

/// A version to which no rows are added.
fn tried(rt: &(impl Abort + AllocGlobal), store: &mut MemStore) -> Tried {
    let read = current(rt.alloc(), store).ok();
    let (version, meta) = read.expect(rt, "metadata");
    let tried = Tried::of(rt.alloc(), meta, &ring(rt, RING), version, 0);
    tried.ok().expect(rt, "a version")
}

/// A manifest's row without a first row id.
fn row(rt: &(impl Abort + AllocGlobal)) -> ListRow {
    let path = Text::from_str(rt.alloc(), "file:///table/metadata/m0.avro");
    ListRow {
        path: path.expect(rt, "room"),
        length: 1,
        spec: 0,
        content: 0,
        sequence: 1,
        min_sequence: 1,
        snapshot: 1,
        files: [0, 0, 0],
        rows: [0, 0, 0],
        key: None,
        first_row: None,
    }
}

/// Puts a list of that row, and a version with it.
fn put(
    rt: &(impl Abort + AllocGlobal),
    tried: &Tried,
    store: &mut MemStore,
    draws: &mut ByteDraws,
) {
    let mut rows = ListRows::new(rt.alloc());
    rows.push(row(rt)).expect(rt, "room");
    let unique = [9; 16];
    let key = put_own_list(rt.alloc(), &unique, tried, &rows, 1, store, draws).ok();
    let path = path_of_list(rt.alloc(), &unique, tried, 1).ok();
    let path = path.expect(rt, "a path");
    let key = key.expect(rt, "a list");
    let put = put_next_version(rt.alloc(), tried, &path, &key, store, draws, 7);
    assert!(rt; put.ok().expect(rt, "a version") == Put::Done);
}

/// The version has that list, and an append puts its data file and its manifest before it reads it.
#[test]
fn a_row_of_the_parent_has_no_row_id(rt: HostRuntime) {
    let mut store = table(&rt, META, NEVER, false);
    let mut draws = draws(&rt, 1024);
    let read = tried(&rt, &mut store);
    put(&rt, &read, &mut store, &mut draws);
    assert!(rt; store.objects() == 3);
    let fault = answer(&rt, "[1]", &mut store, &mut draws).err();
    let fault = fault.expect(&rt, "a refusal");
    assert!(rt;
        matches!(
            fault,
            JobFault::Cannot {
                what: CannotWhat::NoRowIds
            }
        )
    );
    assert!(rt; store.objects() == 5);
}
