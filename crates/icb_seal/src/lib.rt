//! Keys of files and keys of keys: a file's key is drawn, seals that file's blocks, each under a nonce of
//! its own, and is spent; blocks are opened by their number; keys are sealed by other keys. It knows GCM
//! and key metadata, and nothing of stores or of how blocks lie in a file.
#![tactic(auto)]

mod cipher_block;
pub mod examples;
mod file_key;
pub mod laws;
mod opener;
mod sealer;
mod wrapping;

pub use file_key::{FileKey, KeySize};
pub use icb_aes::AesKey;
pub use icb_gcm::NotAuthentic;
pub use opener::Opener;
pub use sealer::Sealer;
pub use wrapping::{UnwrapFault, unwrap_key, wrap_key};
