//! Tests of the cipher: `icb_aes`, `icb_ghash` and `icb_gcm` beside independent implementations.
#![tactic(auto)]

#[cfg(test)]
mod block_cipher;
#[cfg(test)]
mod bytes;
#[cfg(test)]
mod hash;
#[cfg(test)]
mod sealing;
