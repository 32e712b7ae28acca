//! Tests of the command `append`, over tables that `create` makes and one of another writer. It has no code of the
//! product.
#![tactic(auto)]

#[cfg(test)]
mod another_writer;
#[cfg(test)]
mod changes;
#[cfg(test)]
mod commands;
#[cfg(test)]
mod faults;
#[cfg(test)]
mod outside;
#[cfg(test)]
mod table;
