//! Tests of generated tables, one file a subject. It has no code of the product.
#![tactic(auto)]

#[cfg(test)]
mod batches;
#[cfg(test)]
mod counted_store;
#[cfg(test)]
mod day_sums;
