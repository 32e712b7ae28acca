//! A rotation from its first step to its last.
ghost use Rattle.std.specs.Prelude.{◌≡◌, ◌<◌, ◌^◌};
ghost use Rattle.icb_rotate.specs.Complete.{RotatesComplete};
ghost use Rattle.icb_rotate.specs.Whole.{Rotates, RotationKeepsTable};

use crate::job::RotateJob;
use icb_base::{Draws, Store};
use icb_chain::Keyring;
use icb_schema::Text;
use icb_turns::{JobFault, Step};
use std::alloc::Global;

/// Rotates a table's master key to the one of this id: runs a job's steps to its end, and gives the version
/// that was put.
pub fn rotate<S: Store, D: Draws>(
    alloc: Global,
    store: &mut S,
    ring: &Keyring,
    id: Text,
    draws: &mut D,
    now_ms: u64,
) -> Result<u64, JobFault>
    requires { now_ms < 2 ^ 63 }
    ensures rotates { Rotates S.Store D.Draws ring.now id now_ms result store.old store.new
        draws.old draws.new }
    ensures stands { RotationKeepsTable S.Store ring.now id result store.old store.new }
    ensures complete { RotatesComplete S.Store ring.now id result store.old }
{
    let mut job = RotateJob::new(alloc, id);
    loop {
        match job.step(alloc, store, ring, draws, now_ms) {
            Step::Again => {}
            Step::Done { version, .. } => return Ok(version),
            Step::Refused(fault) => return Err(fault),
        }
    }
}
