//! Tests of container files, one file a subject. It has no code of the product.
#![tactic(auto)]

#[cfg(test)]
mod block_rows;
#[cfg(test)]
mod files;
#[cfg(test)]
mod foreign;
#[cfg(test)]
mod gaps;
#[cfg(test)]
mod header_rows;
#[cfg(test)]
mod opened;
#[cfg(test)]
mod two_readers;
#[cfg(test)]
mod written_bytes;
