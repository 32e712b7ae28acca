//! What is printed of a table's metadata: a line for each snapshot, a line for each sealed key.
#![tactic(auto)]

mod keys;
mod pieces;
mod snapshots;

pub use keys::keys_text;
pub use pieces::quoted;
pub use snapshots::snapshots_text;
