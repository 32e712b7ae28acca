//! Column types, data, their single values, and the lines of rows.
#![tactic(auto)]

mod columns;
mod datum;
mod fault;
mod laws;
mod printing;
mod reading;
mod rows;
mod single;
mod table;
mod type_words;
mod words;

pub use columns::{ColType, Column, TableSchema};
pub use datum::{Datum, DatumRef};
pub use fault::{RowFault, WordsFault};
pub use laws::{lines_fit, lines_read_back, pieces_make_the_line, singles_read_back};
pub use printing::{row_datum, row_end};
pub use reading::{read_datum, read_row};
pub use rows::Rows;
pub use single::{from_single, to_single};
pub use type_words::kind_of_word;
