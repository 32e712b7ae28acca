//! What the program does: words in, a command's work on the outside, its status, and the line on the
//! error stream. It knows no real folder and no real stream.
#![tactic(auto)]

mod append;
mod cat_file;
mod create;
mod input;
mod job_status;
mod keyring_input;
pub mod laws;
mod listing;
mod metadata_input;
mod metadata_line;
mod outside;
mod printing;
mod putting;
mod rotate;
mod scan;
mod scan_status;
mod seal_file;
mod status;
mod status_words;
mod texts;
mod top_call;

pub use outside::Parts;
pub use status::{HeaderFault, Status};
pub use top_call::run;
