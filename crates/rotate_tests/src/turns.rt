//! Turns of rotations among each other: a second writer puts the version that a job was to put.

use crate::outside::{NEVER, RING, answer, draws, empty, hold, holds, ring};
use crate::versions::{BEHIND_ANOTHER, FIRST, SECOND};
use crate::words::text;
use icb_base::{ByteDraws, MemStore};
use icb_chain::Keyring;
use icb_rotate::{RotateJob, rotate};
use icb_turns::{JobFault, Step};
use std::process::Abort;

/// A job over a store that holds `FIRST`, the masters, and the bytes 00 to 8f.
#[derive(Drop)]
struct Turns {
    job: RotateJob,
    store: MemStore,
    ring: Keyring,
    draws: ByteDraws,
}

impl Turns {
    /// A new job to a master.
    fn new(rt: &(impl Abort + AllocGlobal), master: &str) -> Turns {
        let mut store = empty(rt, NEVER, false);
        hold(rt, &mut store, 1, FIRST);
        Turns {
            job: RotateJob::new(rt.alloc(), text(rt, master)),
            store,
            ring: ring(rt, RING),
            draws: draws(rt, 144),
        }
    }

    /// Does a turn at the time 7.
    fn step(&mut self, rt: &(impl Abort + AllocGlobal)) -> Step {
        assert!(rt; !self.job.ended());
        self.job.step(rt.alloc(), &mut self.store, &self.ring, &mut self.draws, 7)
    }

    /// Does so many turns, behind each of which the job goes on.
    fn go_on(&mut self, rt: &(impl Abort + AllocGlobal), turns: usize) {
        for _ in 0..turns {
            let step = self.step(rt);
            assert!(rt; matches!(step, Step::Again));
        }
    }

    /// Another rotation puts the next version, to this master at the time 8.
    fn overtake(&mut self, rt: &(impl Abort + AllocGlobal), master: &str, version: u64) {
        let id = text(rt, master);
        let put = rotate(
            rt.alloc(),
            &mut self.store,
            &self.ring,
            id,
            &mut self.draws,
            8,
        );
        assert!(rt; matches!(put, Ok(found) if found == version));
    }

    /// The turn that ends the job puts a version.
    fn end(&mut self, rt: &(impl Abort + AllocGlobal), version: u64) {
        match self.step(rt) {
            Step::Done {
                snapshot,
                version: put,
            } => {
                assert!(rt; snapshot.is_none());
                assert!(rt; put == version);
            }
            _ => panic!(rt; "another step"),
        }
        assert!(rt; self.job.ended());
    }
}

/// Two probes, the metadata, the put.
#[test]
fn four_turns(rt: HostRuntime) {
    let mut turns = Turns::new(&rt, "m2");
    turns.go_on(&rt, 3);
    assert!(rt; turns.store.objects() == 1);
    turns.end(&rt, 2);
    assert!(rt; holds(&rt, &turns.store, 2, SECOND));
    assert!(rt; turns.job.taken().as_slice().is_empty());
}

/// Behind a version that was taken come the probe of the next, its metadata, and the put.
#[test]
fn another_writer_puts_the_version(rt: HostRuntime) {
    let mut turns = Turns::new(&rt, "m2");
    turns.go_on(&rt, 3);
    turns.overtake(&rt, "m3", 2);
    turns.go_on(&rt, 3);
    assert!(rt; turns.store.objects() == 2);
    turns.end(&rt, 3);
    assert!(rt; holds(&rt, &turns.store, 3, BEHIND_ANOTHER));
    assert!(rt; turns.job.taken().as_slice() == [2].as_slice());
}

/// Another one rotates to the same master.
#[test]
fn another_writer_rotates_to_the_same(rt: HostRuntime) {
    let mut turns = Turns::new(&rt, "m2");
    turns.go_on(&rt, 3);
    turns.overtake(&rt, "m2", 2);
    turns.go_on(&rt, 2);
    let step = turns.step(&rt);
    assert!(rt; matches!(step, Step::Refused(JobFault::SameKey { .. })));
    assert!(rt; turns.job.ended());
    assert!(rt; turns.store.objects() == 2);
}

/// The table says that one put is tried again.
#[test]
fn a_job_gives_up(rt: HostRuntime) {
    let mut turns = Turns::new(&rt, "m2");
    turns.go_on(&rt, 3);
    turns.overtake(&rt, "m3", 2);
    turns.go_on(&rt, 3);
    turns.overtake(&rt, "m1", 3);
    match turns.step(&rt) {
        Step::Refused(JobFault::Contended { versions }) => {
            assert!(rt; versions.as_slice() == [2, 3].as_slice());
        }
        _ => panic!(rt; "another step"),
    }
    assert!(rt; turns.store.objects() == 3);
}
