//! Tests of the outside in memory, of cipher blocks and of streams over a store.
#![tactic(auto)]

#[cfg(test)]
mod blocks;
#[cfg(test)]
mod callers;
#[cfg(test)]
mod generator;
#[cfg(test)]
mod helpers;
#[cfg(test)]
mod key_metadata;
#[cfg(test)]
mod memory_store;
#[cfg(test)]
mod memory_transfers;
#[cfg(test)]
mod object_paths;
#[cfg(test)]
mod readers;
#[cfg(test)]
mod sealed_keys;
#[cfg(test)]
mod stopping_store;
#[cfg(test)]
mod stream_attacks;
#[cfg(test)]
mod stream_reader;
#[cfg(test)]
mod stream_reads;
#[cfg(test)]
mod stream_sealed;
#[cfg(test)]
mod streams;
