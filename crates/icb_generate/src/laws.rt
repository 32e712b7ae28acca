//! Laws of the definitions, each the contract of a function that does nothing.
ghost use Rattle.icb_generate.specs.Laws.{BatchesAreAllRows, RowsReadBack};

/// The batches of a table, one behind the other, are all of its rows.
pub fn batches_are_all_rows()
    ensures { BatchesAreAllRows }
{}

/// The line of a row shows the row.
pub fn generated_rows_read_back()
    ensures { RowsReadBack }
{}
