//! What is drawn for a new table: its identifier, its first key, and the nonce under which that is sealed.
ghost use Rattle.std.specs.Prelude.{◌≡◌, ◌+◌, length, IfOk, IfSome, IsErr, IsTrue, OnErr, Some};
ghost use Rattle.icb_base.specs.Calls.{DrawsText};
ghost use Rattle.icb_base.specs.KeyMetadata.{is_key_length};
ghost use Rattle.icb_create.specs.Drawn.{IsWhole, drawn_bytes, parts_of, uuid_of};
ghost use Rattle.icb_seal.specs.Keys.{key_bytes};

use crate::named_texts::key_bytes;
use icb_aes::AesKey;
use icb_base::{Draws, Failed};
use icb_seal::KeySize;
use uuid::Builder;

/// What is drawn for a new table.
#[derive(Drop)]
pub struct Drawn {
    /// The bytes that the table's identifier is made of.
    pub random: [u8; 16],
    /// The key that seals the keys of its files.
    pub key: AesKey,
    /// The nonce under which the master seals that key.
    pub nonce: [u8; 12],
}

impl Drawn {
    /// Draws 16 bytes, a key and then 12 bytes, in one fill: where it fails nothing is drawn. It takes no
    /// memory.
    pub fn draw<D: Draws>(draws: &mut D, size: KeySize) -> Result<Drawn, Failed>
        ensures draws { DrawsText D.Draws (drawn_bytes result) (IsErr result) draws.old draws.new }
        ensures failed { IfSome (D.drawn draws.old) (λ before.
            OnErr result (D.drawn draws.new ≡ Some before)) }
        ensures whole { IfOk result (IsWhole (key_bytes size)) }
    {
        let size = key_bytes(size);
        let mut room = [0; 60];
        draw_parts(draws, &mut room[..size + 28], size)
    }

    /// The table's identifier: the 16 bytes as a random one (RFC 9562, 5.4).
    #[tactic(auto, unfolding(crate::specs::Drawn::uuid_of))]
    pub fn uuid(&self) -> u128
        ensures { result ≡ uuid_of self.now.random }
    {
        Builder::from_random_bytes(self.random)
            .into_uuid()
            .as_u128()
    }
}

/// Fills a room with drawn bytes, of which so many are the key's, and takes their parts.
fn draw_parts<D: Draws>(draws: &mut D, room: &mut [u8], size: usize) -> Result<Drawn, Failed>
    requires size { IsTrue (is_key_length size) }
    requires length { length room.old ≡ 28 + size }
    ensures draws { DrawsText D.Draws (drawn_bytes result) (IsErr result) draws.old draws.new }
    ensures failed { IfSome (D.drawn draws.old) (λ before.
        OnErr result (D.drawn draws.new ≡ Some before)) }
    ensures whole { IfOk result (IsWhole size) }
{
    if draws.fill(room).is_err() {
        return Err(Failed);
    }
    Ok(parts_of(room, size))
}

/// The parts of drawn bytes, of which so many are the key's.
fn parts_of(bytes: &[u8], size: usize) -> Drawn
    requires size { IsTrue (is_key_length size) }
    requires length { length bytes.now ≡ 28 + size }
    ensures { result ≡ parts_of size bytes.now }
{
    let Ok(key) = AesKey::new(&bytes[16..size + 16]) else {
        unreachable!();
    };
    let mut random = [0; 16];
    random.copy_from_slice(&bytes[..16]);
    let mut nonce = [0; 12];
    nonce.copy_from_slice(&bytes[size + 16..]);
    Drawn { random, key, nonce }
}
