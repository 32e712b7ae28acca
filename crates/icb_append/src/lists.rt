//! The list of a snapshot, sealed and put.
ghost use Rattle.std.specs.Prelude.{◌≡◌, []};
ghost use Rattle.icb_append.specs.Sealed.{PutsRecords, Seals};
ghost use Rattle.icb_append.specs.Settings.{AreInRange};
ghost use Rattle.icb_list.specs.Written.{written_list};

use crate::fault::SealFault;
use crate::fresh::Fresh;
use crate::putting::put_file;
use crate::sealing::{SealedData, seal_short};
use crate::settings::Settings;
use icb_base::{Draws, KeyMeta, ObjPath, Store};
use icb_list::{ListRow, write_list};
use icb_turns::JobFault;
use std::alloc::Global;

/// Puts a list of these rows, under a key and with a marker that are drawn for it, and gives the key metadata
/// by which it opens. All that takes memory is done before the put.
pub fn put_list<S: Store, D: Draws>(
    alloc: Global,
    rows: &[ListRow],
    settings: Settings,
    path: ObjPath,
    store: &mut S,
    draws: &mut D,
) -> Result<KeyMeta, JobFault>
    requires ranges { AreInRange settings }
    ensures { PutsRecords S.Store D.Draws settings path written_list rows.now
        (λ meta size own. own ≡ meta) result store.old store.new draws.old draws.new }
{
    let Ok(fresh) = Fresh::draw(draws, settings.key) else {
        return Err(JobFault::Random);
    };
    match sealed_list(alloc, fresh, rows, settings, &path) {
        Ok(SealedData { object, meta }) => match put_file(store, path, object.as_slice()) {
            Ok(()) => Ok(meta),
            Err(fault) => Err(fault),
        },
        Err(fault) => Err(fault.of_job()),
    }
}

/// The object of a list.
fn sealed_list(
    alloc: Global,
    fresh: Fresh,
    rows: &[ListRow],
    settings: Settings,
    path: &ObjPath,
) -> Result<SealedData, SealFault>
    requires ranges { AreInRange settings }
    ensures { Seals settings.block path.now (written_list [] fresh.marker)
        (written_list rows.now fresh.marker) fresh.key result }
{
    let Fresh { key, marker } = fresh;
    let header = write_list(alloc, &[], &marker);
    let plain = write_list(alloc, rows, &marker);
    let (Ok(header), Ok(plain)) = (header, plain) else {
        key.abandon();
        return Err(SealFault::NoMemory);
    };
    let block = settings.block;
    seal_short(alloc, key, path, block, header.as_slice(), plain.as_slice())
}
