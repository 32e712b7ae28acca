//! Tests of scans over a table of another writer. It has no code of the product.
#![tactic(auto)]

#[cfg(test)]
mod faults;
#[cfg(test)]
mod left_out;
#[cfg(test)]
mod scans;
#[cfg(test)]
mod table;
#[cfg(test)]
mod words;
