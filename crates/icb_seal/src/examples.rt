//! The nonce and the additional data of one block, computed by the checker.

ghost use Rattle.std.specs.Prelude.{◌≡◌};
ghost use Rattle.icb_seal.specs.Block.{additional_data, nonce_of};

const DRAWN: [u8; 8] = [0, 1, 2, 3, 4, 5, 6, 7];

const NONCE_OF_1: [u8; 12] = [0, 1, 2, 3, 4, 5, 6, 7, 0, 0, 0, 1];

/// `data/a`
const PREFIX: [u8; 6] = [0x64, 0x61, 0x74, 0x61, 0x2f, 0x61];

const ADDITIONAL_DATA_OF_1: [u8; 10] = [0x64, 0x61, 0x74, 0x61, 0x2f, 0x61, 1, 0, 0, 0];

/// Block 1 of a file with the drawn bytes 0 to 7 and the prefix `data/a`.
#[tactic(auto, unfolding(crate::specs::Block::nonce_of, crate::specs::Block::additional_data))]
pub fn block_1()
    ensures nonce { nonce_of DRAWN 1 ≡ NONCE_OF_1 }
    ensures additional_data { additional_data PREFIX 1 ≡ ADDITIONAL_DATA_OF_1 }
{}
