//! A table in a store: its versions and which of them is current.
#![tactic(auto)]

mod fault;
pub mod laws;
mod metadata;
mod versions;

pub use fault::CurrentFault;
pub use metadata::{current, read_version};
pub use versions::version_path;
