//! The lines of batches. The rows follow from their formula by hand, and the sums from Python's `sum`.

use icb_generate::{batch, batch_count};
use icb_schema::Octets;
use std::process::Abort;

/// The first rows with the seed 5.
const FIRST: &str = r#"[0,"r0",5]
[1,"r1",42]
[2,"r2",79]
[3,"r3",116]
[4,"r4",153]
[5,"r5",190]
[6,"r6",227]
[7,"r7",264]
[8,"r8",301]
[9,null,338]
[10,"r10",375]
"#;

/// Seeds, numbers of rows, and how many batches and which sum of days they have.
const TABLES: [(u64, u32, u32, u64); 7] = [
    (5, 0, 0, 0),
    (5, 5, 1, 395),
    (0, 9999, 1, 98645037),
    (0, 10000, 1, 98655000),
    (0, 10001, 2, 98665000),
    (0, 20000, 2, 199990000),
    (18446744073709551615, 1, 1, 11615),
];

/// A batch.
fn lines(rt: &(impl Abort + AllocGlobal), seed: u64, rows: u32, number: u32) -> Octets {
    batch(rt.alloc(), seed, rows, number).expect(rt, "room")
}

/// The number behind the last comma of a line.
fn day(rt: &impl Abort, line: &str) -> u64 {
    let (_rest, last) = line.rsplit_once(',').expect(rt, "three values");
    let digits = last.strip_suffix(']').expect(rt, "the end of a line");
    digits.parse::<u64>().ok().expect(rt, "a number")
}

/// The sum of the days of a batch.
fn sum(rt: &(impl Abort + AllocGlobal), seed: u64, rows: u32, number: u32) -> u64 {
    let lines = lines(rt, seed, rows, number);
    let text = str::from_utf8(lines.as_slice()).ok().expect(rt, "text");
    let mut sum = 0u64;
    for line in text.lines() {
        sum = sum.saturating_add(day(rt, line));
    }
    sum
}

#[test]
fn the_first_rows(rt: HostRuntime) {
    let all = lines(&rt, 5, 11, 0);
    assert!(rt; all.as_slice() == FIRST.as_bytes());
    let none = lines(&rt, 5, 11, 1);
    assert!(rt; none.as_slice().is_empty());
}

#[test]
fn batches_and_their_sums(rt: HostRuntime) {
    for (seed, rows, count, days) in TABLES {
        assert!(rt; batch_count(rows) == count, "{rows}");
        let mut found = 0u64;
        for number in 0..count {
            found = found.saturating_add(sum(&rt, seed, rows, number));
        }
        assert!(rt; found == days, "{rows}: {found}");
    }
}

/// A batch of 10,001 rows has 10,000, and the next one the last row, whose text is `r9`.
#[test]
fn the_last_batch_is_smaller(rt: HostRuntime) {
    let last = lines(&rt, 0, 10001, 1);
    assert!(rt; last.as_slice() == b"[10000,\"r9\",10000]\n".as_slice());
}
