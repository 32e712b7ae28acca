//! Sealing the entries of a table's keys.
ghost use Rattle.std.specs.Prelude.{◌≡◌, ◌≤◌, [], length, IfOk, Some};
ghost use Rattle.icb_chain.specs.Opening.{opened_entry};
ghost use Rattle.icb_seal.specs.Block.{sealed_cipher_block};

use icb_aes::AesKey;
use icb_base::NoMemory;
use icb_meta::KeyEntry;
use icb_schema::{Octets, Text};
use icb_seal::wrap_key;
use sqlite_items::Items;
use std::alloc::Global;

/// An entry of this id that holds the bytes, sealed under a key whose id is `by`, without properties. It
/// opens to them again. The table's identifier isn't a part of what is sealed.
pub fn seal_entry(
    alloc: Global,
    _table: u128,
    key: &AesKey,
    id: Text,
    by: Text,
    nonce: &[u8; 12],
    bytes: &[u8],
) -> Result<KeyEntry, NoMemory>
    requires { length bytes.now ≤ 67108864 }
    ensures names { IfOk result (λ e. (e.id ≡ id) × (e.by ≡ Some by) × (e.properties ≡ [])) }
    ensures sealed { IfOk result (λ e.
        sealed_cipher_block key.now nonce.now id bytes.now ≡ Some e.sealed) }
    ensures opens { IfOk result (λ e. opened_entry key.now e ≡ Some bytes.now) }
{
    let sealed = wrap_key(alloc, key, nonce, id.as_slice(), bytes)?;
    Ok(KeyEntry {
        id,
        sealed: Octets::from_vec(sealed.into_vec()),
        by: Some(by),
        properties: Items::new(alloc),
    })
}
