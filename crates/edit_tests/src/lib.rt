//! Tests of changes to table metadata, one file a subject. It has no code of the product.
#![tactic(auto)]

#[cfg(test)]
mod new_tables;
#[cfg(test)]
mod snapshots;
