//! The live data files below a manifest list, one after another, over whatever a store holds.
#![tactic(auto)]

mod fault;
mod laws;
mod leaf;
mod listing;
mod open_list;
mod open_manifest;
mod opened;
mod refusal;
mod snapshot_list;
mod trouble;
mod walk;
mod whole_list;

pub use fault::{Broken, Cause, HeaderFault, TreeFault, What};
pub use laws::{walk_begins_whole, walk_fits_when_grown};
pub use leaf::Leaf;
pub use refusal::{records_refused, stream_refused};
pub use walk::Walk;
pub use whole_list::list_rows;
