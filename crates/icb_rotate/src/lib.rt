//! The rotation of a table's master key: its key-encryption keys are sealed again by a new master, which
//! costs one version and no other object.
#![tactic(auto)]

mod draft;
mod job;
mod keys;
mod laws;
mod reading;
mod whole;

pub use job::RotateJob;
pub use keys::{Master, rotated_keys};
pub use laws::{fits_when_grown, keys_stay, rotated_is_table};
pub use whole::rotate;
