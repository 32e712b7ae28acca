//! Laws of the definitions, each the contract of a function that does nothing.
ghost use Rattle.icb_list.specs.Laws.{RowsReadBack};

/// The value that is written of a row is read as that row.
pub fn rows_read_back()
    ensures { RowsReadBack }
{}
