//! What the tests share: schemas from words, and lines and refusals as texts.
ghost use Rattle.icb_types.specs.Columns.{AreColumns};

use icb_schema::Octets;
use icb_types::{Datum, DatumRef, RowFault, TableSchema, read_row, row_datum, row_end};
use std::process::Abort;

/// The schema of words that are in the form.
pub(crate) fn schema(rt: &(impl Abort + AllocGlobal), words: &str) -> TableSchema
    ensures { AreColumns result.columns }
{
    TableSchema::read_words(rt.alloc(), words).expect(rt, "schema words")
}

/// A text of its own.
pub(crate) fn text(rt: &(impl Abort + AllocGlobal), text: &str) -> String {
    String::from_str(rt.alloc(), text).expect(rt, "room")
}

/// The line of one datum.
pub(crate) fn line_of_one(rt: &(impl Abort + AllocGlobal), datum: &DatumRef) -> Octets {
    let mut line = Octets::new(rt.alloc());
    row_datum(rt.alloc(), &mut line, datum).expect(rt, "room");
    row_end(&mut line).expect(rt, "room");
    line
}

/// The line of a row.
pub(crate) fn line_of(rt: &(impl Abort + AllocGlobal), row: &[Datum]) -> Octets {
    let mut line = Octets::new(rt.alloc());
    for datum in row {
        row_datum(rt.alloc(), &mut line, &datum.borrowed()).expect(rt, "room");
    }
    row_end(&mut line).expect(rt, "room");
    line
}

/// The bytes of a line without its line feed, as a text.
pub(crate) fn shown(rt: &(impl Abort + AllocGlobal), line: &Octets) -> String {
    let all = std::str::from_utf8(line.as_slice()).expect(rt, "a text");
    text(rt, all.strip_suffix('\n').expect(rt, "a line feed"))
}

/// What a line shows under schema words: its row printed again, or the refusal.
pub(crate) fn answer(rt: &(impl Abort + AllocGlobal), words: &str, line: &[u8]) -> String {
    match read_row(rt.alloc(), &schema(rt, words), line) {
        Ok(row) => shown(rt, &line_of(rt, row.as_slice())),
        Err(RowFault::NotJson) => text(rt, "NotJson"),
        Err(RowFault::NotArray) => text(rt, "NotArray"),
        Err(RowFault::RowLength { found }) => {
            format!(in rt.alloc(); "RowLength {found}").expect(rt, "room")
        }
        Err(RowFault::BadValue { column }) => {
            format!(in rt.alloc(); "BadValue {column}").expect(rt, "room")
        }
        Err(RowFault::NoMemory) => text(rt, "NoMemory"),
    }
}
