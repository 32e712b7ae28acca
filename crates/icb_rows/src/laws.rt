//! Laws of the definitions, each the contract of a function that does nothing.
ghost use Rattle.icb_rows.specs.Laws.{BoundsBound, NothingIsPruned, RowsHaveNoMore, RowsHaveTheirData, ViewsReadFields};

/// A bound that is written of a column's data bounds them.
pub fn bounds_bound()
    ensures { BoundsBound }
{}

/// No file is passed over whose bounds bound a datum of the range.
pub fn nothing_is_pruned()
    ensures { NothingIsPruned }
{}

/// A record is read under a projection as Avro reads the file's fields, but for nulls of required
/// columns.
pub fn views_read_fields()
    ensures { ViewsReadFields }
{}

/// A row has the data of its columns that aren't null, by the columns' ids, and no others.
pub fn rows_are_by_ids()
    ensures data { RowsHaveTheirData }
    ensures others { RowsHaveNoMore }
{}
