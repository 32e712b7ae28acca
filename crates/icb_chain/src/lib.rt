//! Keyrings and key chains: the keys that open a table's keys, from the master down.
#![tactic(auto)]

mod chain;
mod fault;
mod keyring;
mod masters;
mod opening;
mod sealing;

pub use chain::Chain;
pub use fault::{ChainFault, KeyringFault};
pub use keyring::Keyring;
pub use masters::{is_id, key_of_digits};
pub use opening::seals_key;
pub use sealing::seal_entry;
