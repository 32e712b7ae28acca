//! What is written of rows shows them again: laws over what a table's files show.
#![tactic(auto)]

mod laws;

pub use laws::{
    sealed_files_show, written_bounds_hold, written_file_is_listed, written_manifest_is_listed,
    written_records_show, written_rows_are_read,
};
