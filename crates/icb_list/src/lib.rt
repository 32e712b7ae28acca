//! Manifest lists: their rows by the ids of their fields, whoever wrote them, read over any reader,
//! and writing them.
#![tactic(auto)]

mod laws;
mod list;
mod row;
mod writing;

pub use laws::rows_read_back;
pub use list::{List, ListFault};
pub use row::ListRow;
pub use writing::write_list;
