//! Lists of rows, and lines of no data.
use crate::helpers::{line_of, schema, shown};
use icb_types::{Rows, read_row};
use std::rt::HostRuntime;

#[test]
fn a_list_keeps_its_rows_in_order(rt: HostRuntime) {
    let columns = schema(&rt, "n:long!,s:string");
    let lines: [&[u8]; 2] = [br#"[5,"b"]"#, b"[3,null]"];
    let mut rows = Rows::new(rt.alloc());
    for line in &lines {
        let row = read_row(rt.alloc(), &columns, line).expect(&rt, "a row");
        rows.push(row).expect(&rt, "room");
    }
    let copies = rows.copy(rt.alloc()).expect(&rt, "room");
    assert!(rt; copies.as_slice().len() == 2);
    for (row, line) in copies.as_slice().iter().zip(&lines) {
        let printed = shown(&rt, &line_of(&rt, row.as_slice()));
        assert!(rt; printed.as_bytes() == *line);
    }
}

#[test]
fn a_line_of_no_data_is_an_empty_array(rt: HostRuntime) {
    let printed = shown(&rt, &line_of(&rt, &[]));
    assert!(rt; printed.as_str() == "[]");
}
