//! A new table: what is drawn for it, and the text of its first version.
#![tactic(auto)]

mod drawing;
mod named_texts;
mod writing;

pub use drawing::Drawn;
pub use writing::first_version;
