//! What an append is given and what it makes of it: the rows of its input, the numbers by which files are
//! written, their paths, and the data files, sealed.
#![tactic(auto)]

mod beginning;
mod committing;
mod data;
mod draft;
mod entries;
mod fault;
mod fresh;
mod job;
mod laws;
mod lines;
mod lists;
mod manifests;
mod new_lists;
mod paths;
mod place;
mod putting;
mod reading;
mod records;
mod sealing;
mod settings;
mod tried;
mod trying;
mod turning;
mod whole;
mod work;

pub use committing::{next_version, put_next_version};
pub use data::{put_data, seal_data};
pub use draft::Draft;
pub use entries::{Entries, ListRows};
pub use fault::{InputFault, SealFault};
pub use job::AppendJob;
pub use laws::{commit_is_turn, fits_when_grown, lists_open, rows_add_files, runs_keep_table};
pub use lines::read_rows;
pub use lists::put_list;
pub use manifests::{ManifestOf, put_manifest};
pub use new_lists::{list_rows_of, path_of_list, put_own_list, read_parent};
pub use paths::{data_path, list_path, manifest_path};
pub use reading::{Wrapper, next_id, wrapper_for};
pub use records::{file_record, row_in};
pub use sealing::SealedData;
pub use settings::Settings;
pub use tried::Tried;
pub use whole::{Committed, append};
