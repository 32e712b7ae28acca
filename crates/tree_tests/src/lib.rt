//! Tests of walks over trees. It has no code of the product.
#![tactic(auto)]

#[cfg(test)]
mod faults;
#[cfg(test)]
mod lists;
#[cfg(test)]
mod made;
#[cfg(test)]
mod many;
#[cfg(test)]
mod table;
#[cfg(test)]
mod trees;
#[cfg(test)]
mod words;
