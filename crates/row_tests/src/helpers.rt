//! What the tests share: schemas from words, and rows from lines.
ghost use Rattle.icb_types.specs.Columns.{AreColumns};

use icb_types::{Rows, TableSchema, read_row};
use std::process::Abort;

/// The schema of words that are in the form.
pub(crate) fn schema(rt: &(impl Abort + AllocGlobal), words: &str) -> TableSchema
    ensures { AreColumns result.columns }
{
    TableSchema::read_words(rt.alloc(), words).expect(rt, "schema words")
}

/// A text of its own.
pub(crate) fn text(rt: &(impl Abort + AllocGlobal), text: &str) -> String {
    String::from_str(rt.alloc(), text).expect(rt, "room")
}

/// The rows of lines.
pub(crate) fn rows_of(rt: &(impl Abort + AllocGlobal), columns: &TableSchema, lines: &str) -> Rows {
    let mut rows = Rows::new(rt.alloc());
    for line in lines.lines() {
        let row = read_row(rt.alloc(), columns, line.as_bytes()).expect(rt, "a row");
        rows.push(row).expect(rt, "room");
    }
    rows
}
