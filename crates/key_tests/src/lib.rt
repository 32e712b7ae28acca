//! Tests of keys: key metadata, keyrings and key chains, one file a subject. It has no code of the
//! product.
#![tactic(auto)]

#[cfg(test)]
mod chains;
#[cfg(test)]
mod entries;
#[cfg(test)]
mod key_metadata;
#[cfg(test)]
mod keyrings;
