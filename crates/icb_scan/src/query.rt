//! What is asked of a table's rows.
use icb_schema::{Names, Text};

/// The rows whose datum in a column is in a range.
#[derive(Debug, Drop)]
pub struct RangeWords {
    /// The column's name.
    pub column: Text,
    /// The lower end, as a row line has a value of the column; none where it is open.
    pub low: Option<Text>,
    /// The upper end, in the same form.
    pub high: Option<Text>,
}

/// Which rows are asked for, and what is shown of them.
#[derive(Debug, Drop)]
pub struct Query {
    /// The snapshot's id, none for the current one.
    pub snapshot: Option<i64>,
    /// The names of the columns that are shown, in order; none for all.
    pub columns: Option<Names>,
    /// The range that the rows are in.
    pub range: Option<RangeWords>,
    /// How many of the rows in it are left out.
    pub skip: u64,
    /// How many at most are shown behind those.
    pub take: Option<u64>,
}
