//! What is drawn for a file that is put: its key, and the marker of its container.
ghost use Rattle.std.specs.Prelude.{◌≡◌, IfOk, IsErr};
ghost use Rattle.icb_base.specs.Calls.{DrawsText};
ghost use Rattle.icb_append.specs.Puts.{IsFresh, drawn_of};

use icb_base::{Draws, Failed};
use icb_seal::{FileKey, KeySize};

/// What is drawn for a file. It is no `Drop`, as its key is none.
pub(crate) struct Fresh {
    /// The file's key.
    pub key: FileKey,
    /// The marker of its container.
    pub marker: [u8; 16],
}

impl Fresh {
    /// Draws a key of this size, and then 16 bytes.
    pub(crate) fn draw<D: Draws>(draws: &mut D, size: KeySize) -> Result<Fresh, Failed>
        ensures draws { DrawsText D.Draws (drawn_of result) (IsErr result) draws.old draws.new }
        ensures whole { IfOk result (λ fresh. IsFresh size fresh.key fresh.marker) }
    {
        let Ok(key) = FileKey::draw(draws, size) else {
            return Err(Failed);
        };
        let mut marker = [0; 16];
        if draws.fill(&mut marker).is_err() {
            key.abandon();
            return Err(Failed);
        }
        Ok(Fresh { key, marker })
    }
}
