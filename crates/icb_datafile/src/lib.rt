//! The rows of a data file that a query chooses, printed to a sink block by block.
#![tactic(auto)]

mod data_file;
mod fault;
mod line;
mod opening;
mod plan;
mod printing;
mod whole_file;

pub use data_file::DataFile;
pub use fault::RowsFault;
pub use opening::all_positions;
pub use plan::{Plan, PlanRange};
pub use whole_file::print_file;
