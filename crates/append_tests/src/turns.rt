//! Turns of appends, one by one: how many there are, and a second writer between them.

use crate::outside::{META, NEVER, RING, answer, bytes, draws, hold, lines, ring, table};
use icb_append::AppendJob;
use icb_base::{ByteDraws, MemStore};
use icb_chain::Keyring;
use icb_turns::{JobFault, Step};
use std::process::Abort;

/// A job over a store that holds the first version.
#[derive(Drop)]
struct Turns {
    job: AppendJob,
    store: MemStore,
    ring: Keyring,
    draws: ByteDraws,
}

impl Turns {
    /// A new job of lines.
    fn new(rt: &(impl Abort + AllocGlobal), words: &str) -> Turns {
        let text = lines(rt, words);
        Turns {
            job: AppendJob::new(rt.alloc(), bytes(rt, text.as_str())),
            store: table(rt, META, NEVER, false),
            ring: ring(rt, RING),
            draws: draws(rt, 1024),
        }
    }

    /// Does a turn at the time 7.
    fn step(&mut self, rt: &(impl Abort + AllocGlobal)) -> Step {
        assert!(rt; !self.job.ended());
        self.job.step(rt.alloc(), &mut self.store, &self.ring, &mut self.draws, 7)
    }

    /// Does so many turns, behind each of which the job goes on.
    fn go_on(&mut self, rt: &(impl Abort + AllocGlobal), turns: usize) {
        for _ in 0..turns {
            let step = self.step(rt);
            assert!(rt; matches!(step, Step::Again));
        }
    }

    /// Another append puts the next version.
    fn overtake(&mut self, rt: &(impl Abort + AllocGlobal), words: &str) {
        let put = answer(rt, words, &mut self.store, &mut self.draws);
        assert!(rt; put.is_ok());
    }

    /// The turn that ends the job puts this snapshot and this version.
    fn end(&mut self, rt: &(impl Abort + AllocGlobal), id: i64, number: u64) {
        match self.step(rt) {
            Step::Done { snapshot, version } => {
                assert!(rt; snapshot == Some(id));
                assert!(rt; version == number);
            }
            _ => panic!(rt; "another step"),
        }
        assert!(rt; self.job.ended());
        assert!(rt; self.job.taken().as_slice().is_empty());
    }
}

/// Two probes, the metadata, the data file, the manifest, the list, the version.
#[test]
fn seven_turns(rt: HostRuntime) {
    let mut turns = Turns::new(&rt, "[1]");
    turns.go_on(&rt, 3);
    assert!(rt; turns.store.objects() == 1);
    turns.go_on(&rt, 3);
    assert!(rt; turns.store.objects() == 4);
    turns.end(&rt, 1, 2);
    assert!(rt; turns.store.objects() == 5);
}

/// Behind a parent there is one probe more, and its list is read; two data files are put for three rows.
#[test]
fn ten_turns(rt: HostRuntime) {
    let mut turns = Turns::new(&rt, "[1] [2] [3]");
    turns.overtake(&rt, "[4]");
    turns.go_on(&rt, 9);
    assert!(rt; turns.store.objects() == 9);
    turns.end(&rt, 2, 3);
}

/// Without rows no file is put.
#[test]
fn five_turns(rt: HostRuntime) {
    let mut turns = Turns::new(&rt, "");
    turns.go_on(&rt, 4);
    assert!(rt; turns.store.objects() == 2);
    turns.end(&rt, 1, 2);
}

/// A job whose version another one puts before it ends with that, and its files stay.
#[test]
fn another_writer_puts_the_version(rt: HostRuntime) {
    let mut turns = Turns::new(&rt, "[1]");
    turns.go_on(&rt, 6);
    hold(&rt, &mut turns.store, "metadata/v2.metadata.json", META);
    match turns.step(&rt) {
        Step::Refused(JobFault::Contended { versions }) => {
            assert!(rt; versions.as_slice() == [2].as_slice());
        }
        _ => panic!(rt; "another step"),
    }
    assert!(rt; turns.job.ended());
    assert!(rt; turns.job.taken().as_slice() == [2].as_slice());
    assert!(rt; turns.store.objects() == 5);
}
