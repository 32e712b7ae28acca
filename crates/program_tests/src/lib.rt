//! Tests of command lines and of the commands, over the outside in memory.
#![tactic(auto)]

#[cfg(test)]
mod command_lines;
#[cfg(test)]
mod faults;
#[cfg(test)]
mod files;
#[cfg(test)]
mod listings;
#[cfg(test)]
mod new_tables;
#[cfg(test)]
mod outside;
#[cfg(test)]
mod plaintexts;
#[cfg(test)]
mod sealed_files;
