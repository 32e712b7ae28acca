//! Laws of the definitions, each the contract of a function that does nothing.
ghost use Rattle.icb_types.specs.Laws.{LinesFitTheirColumns, LinesReadBack, PiecesMakeTheLine, SinglesReadBack};

/// The line of a row that fits its columns shows that row.
pub fn lines_read_back()
    ensures { LinesReadBack }
{}

/// A row that a line shows fits its columns.
pub fn lines_fit()
    ensures { LinesFitTheirColumns }
{}

/// Data that are put on a line one after another make the line of their row.
pub fn pieces_make_the_line()
    ensures { PiecesMakeTheLine }
{}

/// The single value of a datum is that datum's.
pub fn singles_read_back()
    ensures { SinglesReadBack }
{}
