//! What the jobs that commit to a table share: what their steps answer, the search for the current
//! version, the put of the next one, and the numbers that a table's properties give.
#![tactic(auto)]

mod committing;
mod fault;
mod laws;
mod naming;
mod numbers;
mod probing;
mod versions;

pub use committing::{after_taken, put_version};
pub use fault::{CannotWhat, JobFault, Step};
pub use laws::{puts_are_turns, turns_grow};
pub use naming::full_path;
pub use numbers::{property_number, retries};
pub use probing::{Probed, probe};
pub use versions::Versions;
