//! The append as a job, which does one turn a step.
ghost use Rattle.std.specs.Prelude.{◌≡◌, true};
ghost use Rattle.icb_append.specs.Places.{has_work};

use crate::place::{Place, Turn};
use crate::turning::{next_probe, place_after, read, step_of};
use crate::work::Work;
use icb_base::{Bytes, Draws, Store};
use icb_chain::Keyring;
use icb_turns::{JobFault, Step, Versions};
use std::alloc::Global;

/// An append of the rows of lines to a table.
#[derive(Drop)]
pub struct AppendJob {
    lines: Bytes,
    place: Place,
    work: Option<Work>,
    taken: Versions,
    ghost has_work: { has_work place work ≡ true },
}

impl AppendJob {
    ghost use Rattle.std.specs.Prelude.{◌≡◌, ◌<◌, ◌^◌, false, true};
    ghost use Rattle.icb_append.specs.Places.{has_work};
    ghost use Rattle.icb_append.specs.Steps.{StepKeepsTable};
    ghost use Rattle.icb_append.specs.Turning.{IsNew, IsTurnAt, TakesTurn, is_ended, place_after};

    /// The append of the rows of these lines. It takes no memory.
    pub fn new(alloc: Global, lines: Bytes) -> Self
        ensures { IsNew lines result }
    {
        AppendJob {
            lines,
            place: Place::Probing(1),
            work: None,
            taken: Versions::new(alloc),
        }
    }

    /// Whether the job ended.
    pub fn ended(&self) -> bool
        ensures { result ≡ is_ended self.now.place }
    {
        matches!(self.place, Place::Ended)
    }

    /// The versions that it found held where it was to put its own.
    pub fn taken(&self) -> &Versions
        ensures { result.now ≡ self.now.taken }
    {
        &self.taken
    }

    /// Does one turn: it asks for the size of a version, or reads the metadata and the rows, or puts the
    /// next data file, the manifest, the list or the version, or reads the list of the parent.
    pub fn step<S: Store, D: Draws>(
        &mut self,
        alloc: Global,
        store: &mut S,
        ring: &Keyring,
        draws: &mut D,
        now_ms: u64,
    ) -> Step
        requires running { is_ended self.old.place ≡ false }
        requires time { now_ms < 2 ^ 63 }
        ensures turn { TakesTurn S.Store D.Draws ring.now now_ms self.old self.new result
            store.old store.new draws.old draws.new }
        ensures stands { StepKeepsTable S.Store ring.now self.old self.new result store.old
            store.new }
    {
        let turn = self.turn(alloc, store, ring, draws, now_ms);
        self.place = place_after(&turn);
        step_of(turn)
    }

    /// Does the turn, and says what it comes to.
    fn turn<S: Store, D: Draws>(
        &mut self,
        alloc: Global,
        store: &mut S,
        ring: &Keyring,
        draws: &mut D,
        now_ms: u64,
    ) -> Result<Turn, JobFault>
        requires running { is_ended self.old.place ≡ false }
        requires time { now_ms < 2 ^ 63 }
        ensures turn { IsTurnAt S.Store D.Draws ring.now now_ms self.old.lines self.old.place
            self.old.work self.new.work self.old.taken self.new.taken result store.old store.new
            draws.old draws.new }
        ensures ready { has_work (place_after result) self.new.work ≡ true }
        ensures lines { self.new.lines ≡ self.old.lines }
    {
        match self.place {
            Place::Probing(version) => next_probe(alloc, store, version),
            Place::Reading(version) => {
                let lines = self.lines.as_slice();
                read(alloc, version, lines, &mut self.work, ring, store, draws)
            }
            Place::Filing => match &mut self.work {
                Some(work) => work.put_files(alloc, store, draws),
                None => unreachable!(),
            },
            Place::Listing(parent) => match &mut self.work {
                Some(work) => work.read_list(alloc, parent, ring, store),
                None => unreachable!(),
            },
            Place::Writing => match &mut self.work {
                Some(work) => work.put_list(alloc, store, draws),
                None => unreachable!(),
            },
            Place::Committing => match &self.work {
                Some(work) => work.commit(alloc, &mut self.taken, store, draws, now_ms),
                None => unreachable!(),
            },
            Place::Ended => unreachable!(),
        }
    }
}
