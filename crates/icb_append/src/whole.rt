//! An append from its first step to its last.
ghost use Rattle.std.specs.Prelude.{◌≡◌, ◌<◌, ◌^◌, IsSome, Some};
ghost use Rattle.icb_append.specs.Whole.{Appends};

use crate::job::AppendJob;
use icb_base::{Bytes, Draws, Store};
use icb_chain::Keyring;
use icb_turns::{JobFault, Step};
use std::alloc::Global;

/// What an append has committed.
#[derive(Clone, Copy, Debug, PartialEq, Eq)]
pub struct Committed {
    /// The snapshot that it added.
    pub snapshot: i64,
    /// The version that has it.
    pub version: u64,
}

/// Appends the rows of lines to a table: runs a job's steps to its end, and gives what was committed.
pub fn append<S: Store, D: Draws>(
    alloc: Global,
    lines: Bytes,
    store: &mut S,
    ring: &Keyring,
    draws: &mut D,
    now_ms: u64,
) -> Result<Committed, JobFault>
    requires { now_ms < 2 ^ 63 }
    ensures { Appends S.Store D.Draws ring.now lines now_ms result store.old store.new draws.old
        draws.new }
{
    let mut job = AppendJob::new(alloc, lines);
    loop {
        match job.step(alloc, store, ring, draws, now_ms) {
            Step::Again => {}
            Step::Done { snapshot, version } => return Ok(with_snapshot(snapshot, version)),
            Step::Refused(fault) => return Err(fault),
        }
    }
}

/// What was committed by a step that says this.
fn with_snapshot(snapshot: Option<i64>, version: u64) -> Committed
    requires { IsSome snapshot }
    ensures snapshot { Some result.snapshot ≡ snapshot }
    ensures version { result.version ≡ version }
{
    let Some(snapshot) = snapshot else {
        unreachable!();
    };
    Committed { snapshot, version }
}
