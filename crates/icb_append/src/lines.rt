//! The lines of an input, and the rows that they show.
ghost use Rattle.std.specs.Prelude.{◌≡◌, ◌<◌, ◌==◌, ◌∷◌, IfOk, IfSome, length, position};
ghost use Rattle.std.specs.List.{AllByRecursion};
ghost use Rattle.icb_types.specs.Fits.{FitsColumns};
ghost use Rattle.icb_types.specs.Lines.{row_of};
ghost use Rattle.icb_append.specs.Lines.{ReadsLine, ReadsLines, at_line, lines_of, rows_of_input};

use crate::fault::InputFault;
use icb_types::{Datum, RowFault, Rows, TableSchema, read_row};
use std::alloc::Global;

/// The rows that the lines of an input show, or the first line that shows none. The rows fit the columns.
pub fn read_rows(alloc: Global, schema: &TableSchema, input: &[u8]) -> Result<Rows, InputFault>
    ensures reads { ReadsLines result (rows_of_input schema.now.columns input.now) }
    ensures fit { IfOk result (λ rows. AllByRecursion (FitsColumns schema.now.columns) rows) }
{
    let mut rows = Rows::new(alloc);
    let mut rest = input;
    let mut number = 0u64;
    while !rest.is_empty() {
        let (line, more) = first_line(rest);
        number += 1;
        match row_at(alloc, schema, number, line) {
            Ok(row) => rows.push(row)?,
            Err(fault) => return Err(fault),
        }
        rest = more;
    }
    Ok(rows)
}

/// The first line, and what stands behind its line feed.
fn first_line(input: &[u8]) -> (&[u8], &[u8])
    requires { 0 < length input.now }
    ensures lines { lines_of input.now ≡ result.0.now ∷ lines_of result.1.now }
    ensures shorter { length result.1.now < length input.now }
{
    match feed_in(input) {
        Some(at) => (&input[..at], &input[at + 1..]),
        None => (input, &input[input.len()..]),
    }
}

/// Where the first line feed stands.
fn feed_in(input: &[u8]) -> Option<usize>
    ensures place { result ≡ position (λ byte. byte == 10) input.now }
    ensures within { IfSome result (λ at. at < length input.now) }
{
    input.iter().position(|byte| *byte == b'\n')
}

/// The row that the line of this number shows.
fn row_at(
    alloc: Global,
    schema: &TableSchema,
    number: u64,
    line: &[u8],
) -> Result<Vec<Datum>, InputFault>
    ensures { ReadsLine (λ row. row.items) result
        (at_line number (row_of schema.now.columns line.now)) }
{
    match read_row(alloc, schema, line) {
        Ok(row) => Ok(row),
        Err(RowFault::NoMemory) => Err(InputFault::NoMemory),
        Err(row) => Err(InputFault::BadLine { line: number, row }),
    }
}
