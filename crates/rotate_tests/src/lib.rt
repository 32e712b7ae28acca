//! Tests of rotations of the master key, one file a subject. It has no code of the product.
#![tactic(auto)]

#[cfg(test)]
mod entries;
#[cfg(test)]
mod jobs;
#[cfg(test)]
mod keys;
#[cfg(test)]
mod outside;
#[cfg(test)]
mod turns;
#[cfg(test)]
mod versions;
#[cfg(test)]
mod words;
