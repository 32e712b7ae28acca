//! Functions that call the outside through its bounds, and say of it what the words of `Calls` say.
ghost use Rattle.std.specs.Prelude.{◌≡◌, ◌≤◌, ◌++◌, length, take, Ok, Err, Some, IfOk, IfSome, IsErr, OnOk};
ghost use Rattle.icb_base.specs.Calls.{DrawsText, PutsPath, ReadsPath, TakesText, WritesText};
ghost use Rattle.icb_base.specs.Objects.{object_at, Removes};

use icb_base::{Draws, Failed, ObjPath, Put, ReadAt, Remover, Sink, Source, Store};

/// Why an object isn't loaded.
#[derive(Clone, Copy, Debug, PartialEq, Eq)]
pub(crate) enum LoadFault {
    /// No object of this length is held there.
    NotThere,
    /// The store failed.
    Store,
}

/// Asks for a size.
pub(crate) fn sizes<S: Store>(store: &mut S, path: &ObjPath) -> Result<Option<u64>, Failed>
    ensures { ReadsPath S.Store path.now 1 0 (IsErr result) store.old store.new }
{
    store.size(path)
}

/// Reads a part.
pub(crate) fn reads<S: Store>(
    store: &mut S,
    path: &ObjPath,
    at: u64,
    out: &mut [u8],
) -> Result<Option<usize>, Failed>
    ensures { ReadsPath S.Store path.now 1 (length out.old) (IsErr result) store.old store.new }
{
    store.read_at(path, at, out)
}

/// Puts an object.
pub(crate) fn puts<S: Store>(store: &mut S, path: &ObjPath, bytes: &[u8]) -> Result<Put, Failed>
    ensures { PutsPath S.Store path.now bytes.now (result ≡ Ok Put.Done) (result ≡ Ok Put.Taken)
        (IsErr result) store.old store.new }
{
    store.put_new(path, bytes)
}

/// Takes an object away.
pub(crate) fn removes<S: Remover>(store: &mut S, path: &ObjPath) -> Result<bool, Failed>
    ensures { IfSome (S.held store.old) (λ files.
        Removes files path.now (S.held store.new) result) }
{
    store.remove(path)
}

/// Fills a buffer with the whole of an object, by two calls.
pub(crate) fn load<S: Store>(store: &mut S, path: &ObjPath, out: &mut [u8]) -> Result<(), LoadFault>
    ensures reads { ReadsPath S.Store path.now 2 (length out.old)
        (result ≡ Err LoadFault.Store) store.old store.new }
    ensures loaded { IfSome (S.held store.old) (λ files.
        OnOk result (object_at files path.now ≡ Some out.new)) }
{
    match store.size(path) {
        Ok(Some(size)) if size == out.len() as u64 => {}
        Ok(_) => return Err(LoadFault::NotThere),
        Err(Failed) => return Err(LoadFault::Store),
    }
    match store.read_at(path, 0, out) {
        Ok(Some(count)) if count == out.len() => Ok(()),
        Ok(_) => Err(LoadFault::NotThere),
        Err(Failed) => Err(LoadFault::Store),
    }
}

/// Takes a piece of the input.
pub(crate) fn takes<I: Source>(source: &mut I, out: &mut [u8]) -> Result<usize, Failed>
    ensures { IfOk result (λ n. TakesText I.Source (take n out.new) ⊥ source.old source.new) }
{
    source.read(out)
}

/// Writes a piece.
pub(crate) fn writes<O: Sink>(sink: &mut O, bytes: &[u8]) -> Result<(), Failed>
    ensures { WritesText O.Sink bytes.now (IsErr result) sink.old sink.new }
{
    sink.write(bytes)
}

/// Writes two pieces, one after the other.
pub(crate) fn writes_both<O: Sink>(sink: &mut O, one: &[u8], two: &[u8]) -> Result<(), Failed>
    ensures { WritesText O.Sink (one.now ++ two.now) (IsErr result) sink.old sink.new }
{
    writes(sink, one)?;
    writes(sink, two)
}

/// Fills a buffer with random bytes.
pub(crate) fn draws<D: Draws>(draws: &mut D, out: &mut [u8]) -> Result<(), Failed>
    ensures { DrawsText D.Draws out.new (IsErr result) draws.old draws.new }
{
    draws.fill(out)
}

/// Reads the first bytes.
pub(crate) fn starts<R: ReadAt>(reader: &mut R, out: &mut [u8]) -> Result<(), R::Fault>
    requires { length out.old ≤ R.size reader.old }
    ensures kept { R.keeps reader.old reader.new }
    ensures calm { OnOk result (R.calm reader.old reader.new) }
{
    reader.read_at(0, out)
}

/// How many bytes there are.
pub(crate) fn lasts<R: ReadAt>(reader: &R) -> u64
    ensures { result ≡ R.size reader.now }
{
    reader.length()
}
