//! Tests of `icb_rows`: bounds, ranges and the bytes of data files.
#![tactic(auto)]

#[cfg(test)]
mod bounds;
#[cfg(test)]
mod data_files;
#[cfg(test)]
mod helpers;
#[cfg(test)]
mod ranges;
#[cfg(test)]
mod views;
