//! The rows of a generated table, in batches of lines as an append takes them, and what is counted of it.
#![tactic(auto)]

mod batches;
mod counted_store;
mod day_sum;
mod laws;
mod rows;

pub use batches::{batch, batch_count};
pub use counted_store::CountedStore;
pub use day_sum::{DaySum, sum_of_days};
pub use laws::{batches_are_all_rows, generated_rows_read_back};
