//! The keyring: keys that tables may name as their masters.
ghost use Rattle.std.specs.Prelude.{◌≡◌, option_map};
ghost use Rattle.icb_chain.specs.Ring.{key_named, ring_of};
ghost use Rattle.icb_chain.specs.RingCalls.{ReadsRing};

use crate::fault::KeyringFault;
use crate::masters::{Master, filled_lines, lines_of, master_named, masters_of};
use icb_aes::AesKey;
use icb_schema::Text;
use std::alloc::Global;
use std::marker::Model;

/// The most lines that aren't empty.
const MOST: usize = 1000;

/// Keys by their ids, in the order of their lines.
#[derive(Drop)]
pub struct Keyring {
    masters: Vec<Master>,
}

impl Model for Keyring {
    ghost use Rattle.icb_chain.specs.Ring.{Ring};
    ghost use Rattle.icb_chain.specs.RingCalls.{pairs_of};

    ghost Value = { Ring };

    ghost view = { λ ring. pairs_of ring.masters.items };
}

impl Keyring {
    /// The keyring of a text of lines `id=hex`. `Many` comes exactly where more than 1,000 lines aren't
    /// empty, and else `BadKeyring` exactly where a line isn't in the form or has an id that stood
    /// before, with the first such line. Empty lines are passed over and counted.
    #[tactic(auto, unfolding(crate::specs::Ring::ring_of))]
    pub fn read(alloc: Global, text: &[u8]) -> Result<Keyring, KeyringFault>
        ensures { ReadsRing result (ring_of text.now) }
    {
        let lines = lines_of(alloc, text)?;
        if filled_lines(lines.as_slice()) > MOST {
            return Err(KeyringFault::Many);
        }
        let masters = masters_of(alloc, lines.as_slice())?;
        Ok(Keyring { masters })
    }

    /// The key of an id. None exactly where no line has the id.
    pub fn master(&self, id: &Text) -> Option<&AesKey>
        ensures { option_map (λ key. key.now) result ≡ key_named id.now self.now }
    {
        master_named(self.masters.as_slice(), id.as_slice())
    }
}
