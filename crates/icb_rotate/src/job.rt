//! The rotation as a job, which does one turn a step.
ghost use Rattle.std.specs.Prelude.{◌≡◌, ◌<◌, ◌^◌, false};
ghost use Rattle.icb_rotate.specs.Keeping.{StepKeepsTable};
ghost use Rattle.icb_rotate.specs.Turning.{Commits, GoesOn, IsNew, IsTurnAt, Probes, TakesTurn, behind, is_ended, place_after, step_of};

use crate::draft::Draft;
use crate::reading::read_draft;
use icb_base::{Draws, Put, Store};
use icb_chain::Keyring;
use icb_schema::Text;
use icb_turns::{JobFault, Probed, Step, Versions, after_taken, probe, put_version};
use std::alloc::Global;

/// A rotation of a table's master key. It tries again where another job puts the version that it was to
/// put.
#[derive(Drop)]
pub struct RotateJob {
    id: Text,
    place: Place,
    taken: Versions,
}

/// What a job does at its next step.
#[derive(Drop)]
pub(crate) enum Place {
    /// It asks for the size of this version, before which all are held.
    Probing(u64),
    /// It reads the metadata of this version, which its last probe found current.
    Reading(u64),
    /// It puts this one.
    Committing(Draft),
    /// Nothing.
    Ended,
}

/// What a turn comes to.
#[derive(Drop)]
pub(crate) enum Turn {
    /// The job goes on here.
    To(Place),
    /// This version was put.
    Done(u64),
}

impl RotateJob {
    /// The rotation to the master of this id. It takes no memory.
    pub fn new(alloc: Global, id: Text) -> Self
        ensures { IsNew id result }
    {
        RotateJob {
            id,
            place: Place::Probing(1),
            taken: Versions::new(alloc),
        }
    }

    /// Whether the job ended.
    pub fn ended(&self) -> bool
        ensures { result ≡ is_ended self.now.place }
    {
        matches!(self.place, Place::Ended)
    }

    /// The versions that it found taken.
    pub fn taken(&self) -> &Versions
        ensures { result.now ≡ self.now.taken }
    {
        &self.taken
    }

    /// Does one turn: it asks for the size of a version, or reads the metadata and seals the keys again, or
    /// puts the next version. All memory is taken before the put.
    pub fn step<S: Store, D: Draws>(
        &mut self,
        alloc: Global,
        store: &mut S,
        ring: &Keyring,
        draws: &mut D,
        now_ms: u64,
    ) -> Step
        requires running { is_ended self.old.place ≡ false }
        requires time { now_ms < 2 ^ 63 }
        ensures turn { TakesTurn S.Store D.Draws ring.now now_ms self.old self.new result
            store.old store.new draws.old draws.new }
        ensures stands { StepKeepsTable S.Store ring.now self.old self.new result store.old
            store.new }
    {
        let turn = self.turn(alloc, store, ring, draws, now_ms);
        self.after(turn)
    }

    /// Does the turn, and says what it comes to.
    fn turn<S: Store, D: Draws>(
        &mut self,
        alloc: Global,
        store: &mut S,
        ring: &Keyring,
        draws: &mut D,
        now_ms: u64,
    ) -> Result<Turn, JobFault>
        requires running { is_ended self.old.place ≡ false }
        requires time { now_ms < 2 ^ 63 }
        ensures turn { IsTurnAt S.Store D.Draws ring.now now_ms self.old.id self.old.place
            self.old.taken self.new.taken result store.old store.new draws.old draws.new }
        ensures id { self.new.id ≡ self.old.id }
    {
        match &self.place {
            Place::Probing(version) => next_probe(alloc, store, *version),
            Place::Reading(version) => {
                match read_draft(alloc, store, *version, ring, &self.id, draws, now_ms) {
                    Ok(draft) => Ok(Turn::To(Place::Committing(draft))),
                    Err(fault) => Err(fault),
                }
            }
            Place::Committing(draft) => commit(alloc, store, draft, &mut self.taken),
            Place::Ended => unreachable!(),
        }
    }

    /// Goes where a turn came to, and says so.
    fn after(&mut self, turn: Result<Turn, JobFault>) -> Step
        ensures step { result ≡ step_of turn }
        ensures place { self.new.place ≡ place_after turn }
        ensures id { self.new.id ≡ self.old.id }
        ensures taken { self.new.taken ≡ self.old.taken }
    {
        self.place = Place::Ended;
        match turn {
            Ok(Turn::To(place)) => {
                self.place = place;
                Step::Again
            }
            Ok(Turn::Done(version)) => Step::Done {
                snapshot: None,
                version,
            },
            Err(fault) => Step::Refused(fault),
        }
    }
}

/// Asks for the size of a version.
fn next_probe<S: Store>(alloc: Global, store: &mut S, version: u64) -> Result<Turn, JobFault>
    ensures { Probes S.Store version result store.old store.new }
{
    match probe(alloc, store, version) {
        Ok(probed) => Ok(Turn::To(behind(probed))),
        Err(fault) => Err(fault),
    }
}

/// Where a job goes behind a probe.
fn behind(probed: Probed) -> Place
    ensures { result ≡ behind probed }
{
    match probed {
        Probed::Next(version) => Place::Probing(version),
        Probed::Found(version) => Place::Reading(version),
    }
}

/// Puts a draft as the version behind its own. Where another one is held there it notes that, and goes on
/// with the probes behind it, unless it tried too often.
fn commit<S: Store>(
    alloc: Global,
    store: &mut S,
    draft: &Draft,
    taken: &mut Versions,
) -> Result<Turn, JobFault>
    ensures { Commits S.Store draft.now taken.old taken.new result store.old store.new }
{
    let version = draft.from + 1;
    let (Ok(more), Ok(given)) = (taken.with(alloc, version), taken.with(alloc, version)) else {
        return Err(JobFault::NoMemory);
    };
    match put_version(alloc, store, version, draft.text.as_slice()) {
        Ok(Put::Done) => Ok(Turn::Done(version)),
        Ok(Put::Taken) => {
            *taken = more;
            go_on(taken, given, draft.retries, version)
        }
        Err(fault) => Err(fault),
    }
}

/// Where a job goes that found a version taken.
fn go_on(taken: &Versions, given: Versions, retries: u64, version: u64) -> Result<Turn, JobFault>
    requires given { given ≡ taken.now }
    requires few { version < 2 ^ 63 }
    ensures { GoesOn taken.now retries version result }
{
    match after_taken(taken, given, retries) {
        Ok(()) => Ok(Turn::To(Place::Probing(version + 1))),
        Err(fault) => Err(fault),
    }
}
