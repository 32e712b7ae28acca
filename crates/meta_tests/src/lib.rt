//! Tests of table metadata, one file a subject. It has no code of the product.
#![tactic(auto)]

#[cfg(test)]
mod accessors;
#[cfg(test)]
mod rows;
#[cfg(test)]
mod texts;
