//! Rows in data files: their bytes, their bounds, and rows borrowed from records.
#![tactic(auto)]

mod bounds;
mod fault;
mod laws;
mod order;
mod projection;
mod range;
mod values;
mod view;
mod writing;

pub use bounds::{Bounds, bounds_in, bounds_of};
pub use fault::{DataFault, ProjectionFault, RangeFault};
pub use laws::{bounds_bound, nothing_is_pruned, rows_are_by_ids, views_read_fields};
pub use projection::Projection;
pub use range::Range;
pub use view::RowView;
pub use writing::{write_data, write_limited};
