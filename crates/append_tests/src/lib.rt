//! Tests of appends, one file a subject. It has no code of the product.
#![tactic(auto)]

#[cfg(test)]
mod appends;
#[cfg(test)]
mod outside;
#[cfg(test)]
mod refusals;
#[cfg(test)]
mod row_ids;
#[cfg(test)]
mod turns;
