//! What the tests of jobs share: stores, keyrings, random bytes, and what a rotation answers.

use crate::words::text;
use icb_base::{ByteDraws, Bytes, MemStore, ObjPath};
use icb_chain::Keyring;
use icb_rotate::rotate;
use icb_turns::JobFault;
use std::process::Abort;

/// The three masters.
pub(crate) const RING: &str = "m1=000102030405060708090a0b0c0d0e0f
m2=101112131415161718191a1b1c1d1e1f202122232425262728292a2b2c2d2e2f
m3=303132333435363738393a3b3c3d3e3f4041424344454647";

/// The number of a call that isn't made.
pub(crate) const NEVER: u64 = u64::MAX;

/// A keyring.
pub(crate) fn ring(rt: &(impl Abort + AllocGlobal), lines: &str) -> Keyring {
    Keyring::read(rt.alloc(), lines.as_bytes()).expect(rt, "a keyring")
}

/// The path of a version.
pub(crate) fn version(rt: &(impl Abort + AllocGlobal), number: u64) -> ObjPath {
    let text = format!(in rt.alloc(); "metadata/v{number}.metadata.json").expect(rt, "room");
    ObjPath::read(rt.alloc(), text.as_str().as_bytes()).expect(rt, "a path")
}

/// A store without an object, whose call of this number fails, after its put where it is to.
pub(crate) fn empty(rt: &(impl Abort + AllocGlobal), fails: u64, puts: bool) -> MemStore {
    let plan = [(fails, puts)].to_vec(rt.alloc()).expect(rt, "a plan");
    MemStore::new(rt.alloc(), plan)
}

/// Holds a text as a version.
pub(crate) fn hold(rt: &(impl Abort + AllocGlobal), store: &mut MemStore, number: u64, text: &str) {
    let bytes = Bytes::from_slice(rt.alloc(), text.as_bytes()).expect(rt, "room");
    store.set(version(rt, number), bytes).expect(rt, "room");
}

/// So many bytes, from 00 upwards.
pub(crate) fn draws(rt: &(impl Abort + AllocGlobal), count: u8) -> ByteDraws {
    let mut bytes = Bytes::new(rt.alloc());
    for byte in 0..count {
        bytes.push(byte).expect(rt, "room");
    }
    ByteDraws::new(bytes, Vec::new(rt.alloc()))
}

/// Whether a version is held with this text.
pub(crate) fn holds(
    rt: &(impl Abort + AllocGlobal),
    store: &MemStore,
    number: u64,
    text: &str,
) -> bool {
    store.get(&version(rt, number)) == Some(text.as_bytes())
}

/// What a rotation to a master answers at the time 7, over the three masters.
pub(crate) fn answer(
    rt: &(impl Abort + AllocGlobal),
    store: &mut MemStore,
    draws: &mut ByteDraws,
    master: &str,
) -> Result<u64, JobFault> {
    let ring = ring(rt, RING);
    rotate(rt.alloc(), store, &ring, text(rt, master), draws, 7)
}
