//! Tests of the commands `scan` and `rotate`, over a table of another writer. It has no code of the product.
#![tactic(auto)]

#[cfg(test)]
mod changes;
#[cfg(test)]
mod chosen;
#[cfg(test)]
mod faults;
#[cfg(test)]
mod outside;
#[cfg(test)]
mod refused;
#[cfg(test)]
mod rotations;
#[cfg(test)]
mod table;
