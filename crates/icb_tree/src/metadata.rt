//! The current metadata of a table.
ghost use Rattle.std.specs.Prelude.{◌≡◌, length, Err, Ok, IfErr, IfSome};
ghost use Rattle.icb_base.specs.Objects.{object_at};
ghost use Rattle.icb_tree.specs.Reading.{Answers, IsStopped, ReadsOnly, shown_meta, shown_version};
ghost use Rattle.icb_tree.specs.Versions.{current_of, text_of, version_of};

use crate::fault::CurrentFault;
use crate::versions::{last_version, version_path};
use icb_base::{Bytes, Failed, Limited, ObjPath, Store};
use icb_meta::{MetaFault, TableMeta};
use std::alloc::Global;

/// The most bytes that metadata may have.
const MOST_BYTES: u64 = 67108864;

/// The greatest n such that versions 1 to n are held, and the metadata of version n.
pub fn current<S: Store>(alloc: Global, store: &mut S) -> Result<(u64, TableMeta), CurrentFault>
    ensures current { IfSome (S.held store.old) (λ files.
        Answers shown_version (current_of files) result) }
    ensures reads { ReadsOnly S.Store (result ≡ Err CurrentFault.Store) store.old store.new }
{
    let version = match last_version(alloc, store) {
        Ok(version) => version,
        Err(fault) => return Err(fault),
    };
    match read_version(alloc, store, version) {
        Ok(meta) => Ok((version, meta)),
        Err(fault) => Err(fault),
    }
}

/// The metadata of a version. `NoTable` where it isn't held.
pub fn read_version<S: Store>(
    alloc: Global,
    store: &mut S,
    version: u64,
) -> Result<TableMeta, CurrentFault>
    ensures version { IfSome (S.held store.old) (λ files.
        Answers shown_meta (version_of files version) result) }
    ensures reads { ReadsOnly S.Store (result ≡ Err CurrentFault.Store) store.old store.new }
{
    let text = match version_text(alloc, store, version) {
        Ok(text) => text,
        Err(fault) => return Err(fault),
    };
    match TableMeta::read(alloc, text.as_slice()) {
        Ok(meta) => Ok(meta),
        Err(MetaFault::BadMeta { field }) => Err(CurrentFault::BadMeta { field }),
        Err(MetaFault::NoMemory) => Err(CurrentFault::NoMemory),
    }
}

/// The text of a version, if it isn't longer than the limit.
fn version_text<S: Store>(alloc: Global, store: &mut S, version: u64) -> Result<Bytes, CurrentFault>
    ensures text { IfSome (S.held store.old) (λ files.
        Answers (λ text. text) (text_of files version) result) }
    ensures reads { ReadsOnly S.Store (result ≡ Err CurrentFault.Store) store.old store.new }
{
    let Ok(path) = version_path(alloc, version) else {
        return Err(CurrentFault::NoMemory);
    };
    match store.size(&path) {
        Ok(Some(size)) if size > MOST_BYTES => Err(CurrentFault::Limit {
            what: Limited::Metadata,
            number: MOST_BYTES,
        }),
        Ok(Some(size)) => object_text(alloc, store, &path, size as usize),
        Ok(None) => Err(CurrentFault::NoTable),
        Err(Failed) => Err(CurrentFault::Store),
    }
}

/// An object of this size. Where a read gives fewer bytes the text ends there.
fn object_text<S: Store>(
    alloc: Global,
    store: &mut S,
    path: &ObjPath,
    size: usize,
) -> Result<Bytes, CurrentFault>
    ensures text { IfSome (S.held store.old) (λ files. IfSome (object_at files path.now)
        (λ object. length object ≡ size → Answers (λ text. text) (Ok object) result)) }
    ensures fault { IfErr result IsStopped }
    ensures reads { ReadsOnly S.Store (result ≡ Err CurrentFault.Store) store.old store.new }
{
    let Ok(mut text) = vec![in alloc; 0; size] else {
        return Err(CurrentFault::NoMemory);
    };
    match store.read_at(path, 0, text.as_mut_slice()) {
        Ok(count) => {
            text.truncate(count.unwrap_or(0));
            Ok(Bytes::from_vec(text))
        }
        Err(Failed) => Err(CurrentFault::Store),
    }
}
