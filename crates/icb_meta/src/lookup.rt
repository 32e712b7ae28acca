//! Elements looked up by their ids and names.
ghost use Rattle.std.specs.Prelude.{◌≡◌, option_map};
ghost use Rattle.icb_meta.specs.Forms.{entry_named, snapshot_named, text_named};

use crate::records::{KeyEntry, Snapshot};
use icb_schema::Text;

/// The snapshot of an id.
pub(crate) fn snapshot_named(snapshots: &[Snapshot], id: i64) -> Option<&Snapshot>
    ensures { option_map (λ s. s.now) result ≡ snapshot_named id snapshots.now }
{
    for snapshot in snapshots {
        if snapshot.id == id {
            return Some(snapshot);
        }
    }
    None
}

/// The entry of a key id.
pub(crate) fn entry_named<'e>(entries: &'e [KeyEntry], id: &[u8]) -> Option<&'e KeyEntry>
    ensures { option_map (λ e. e.now) result ≡ entry_named id.now entries.now }
{
    for entry in entries {
        if entry.id.as_slice() == id {
            return Some(entry);
        }
    }
    None
}

/// The text of a name.
pub(crate) fn text_named<'t>(texts: &'t [(Text, Text)], name: &[u8]) -> Option<&'t Text>
    ensures { option_map (λ text. text.now) result ≡ text_named name.now texts.now }
{
    for (other, text) in texts {
        if other.as_slice() == name {
            return Some(text);
        }
    }
    None
}
