//! The words of a command line: which command they are, or the position of the first word that has no
//! place. It knows nothing of what a command does.
#![tactic(auto)]

mod create_words;
mod forms;
mod option_tables;
mod options;
mod place_names;
mod rotate_words;
mod scan_words;
mod values_given;
mod word_places;
mod words;

pub use create_words::Create;
pub use place_names::Places;
pub use rotate_words::Rotate;
pub use scan_words::{RangeWords, Scan};
pub use word_places::places;
pub use words::{CatFile, Command, SealFile, WordFault, read_words};
