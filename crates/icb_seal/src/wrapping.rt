//! Keys that are sealed by other keys: a nonce, a ciphertext and a tag, one after another.

ghost use Rattle.std.specs.Prelude.{◌≡◌, ◌<◌, ◌≤◌, length, IfOk, Some, None};
ghost use Rattle.icb_seal.specs.Block.{sealed_cipher_block, unwrapped};

use crate::cipher_block::{NONCE, TAG, nonce_and_tag, seal_cipher_block};
use icb_aes::AesKey;
use icb_base::{Bytes, NoMemory};
use icb_gcm::{GcmKey, NotAuthentic, open_in_place};
use std::alloc::Global;

/// The bytes of the longest sealed key: a nonce, the longest ciphertext and a tag (NIST SP 800-38D,
/// 5.2.1.1).
const LONGEST: usize = 68719476732;

/// Why a sealed key wasn't opened.
#[derive(Clone, Copy, Debug, PartialEq, Eq)]
pub enum UnwrapFault {
    /// It is no sealed key under this key and additional data.
    NotAuthentic,
    /// No memory was left.
    NoMemory,
}

/// Seals the bytes of a key under another key, a nonce and additional data.
pub fn wrap_key(
    alloc: Global,
    key: &AesKey,
    nonce: &[u8; 12],
    aad: &[u8],
    bytes: &[u8],
) -> Result<Bytes, NoMemory>
    requires { length bytes.now ≤ 67108864 }
    ensures { IfOk result (λ sealed_key.
        sealed_cipher_block key.now nonce.now aad.now bytes.now ≡ Some sealed_key) }
{
    let mut block = vec![in alloc; 0; bytes.len() + NONCE + TAG]?;
    seal_cipher_block(&GcmKey::new(key), nonce, aad, bytes, block.as_mut_slice());
    Ok(Bytes::from_vec(block))
}

/// Opens a sealed key. `NotAuthentic` comes exactly where it has fewer than 28 bytes, for which no memory
/// is wanted, or doesn't open (NIST SP 800-38D, 7.2).
pub fn unwrap_key(
    alloc: Global,
    key: &AesKey,
    aad: &[u8],
    sealed_key: &[u8],
) -> Result<Bytes, UnwrapFault>
    ensures opened { IfOk result (λ bytes. unwrapped key.now aad.now sealed_key.now ≡ Some bytes) }
    ensures not_authentic { result ≡ Err UnwrapFault.NotAuthentic
        → unwrapped key.now aad.now sealed_key.now ≡ None }
    ensures too_short { length sealed_key.now < 28 → result ≡ Err UnwrapFault.NotAuthentic }
{
    if sealed_key.len() < NONCE + TAG || sealed_key.len() > LONGEST {
        return Err(UnwrapFault::NotAuthentic);
    }
    let (nonce, tag) = nonce_and_tag(sealed_key);
    let Ok(text) = Bytes::from_slice(alloc, &sealed_key[NONCE..sealed_key.len() - TAG]) else {
        return Err(UnwrapFault::NoMemory);
    };
    let mut text = text.into_vec();
    match open_in_place(key, &nonce, aad, text.as_mut_slice(), &tag) {
        Ok(()) => Ok(Bytes::from_vec(text)),
        Err(NotAuthentic) => Err(UnwrapFault::NotAuthentic),
    }
}
