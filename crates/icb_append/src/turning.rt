//! The turns that need no work, and what turns come to.
ghost use Rattle.std.specs.Prelude.{◌≡◌};
ghost use Rattle.icb_append.specs.Turning.{Probes, ReadsVersion, behind_probe, place_after, step_of};

use crate::beginning::begin;
use crate::place::{Place, Turn};
use crate::work::Work;
use icb_base::{Draws, Store};
use icb_chain::Keyring;
use icb_turns::{JobFault, Probed, Step, probe};
use std::alloc::Global;

/// Asks for the size of a version.
pub(crate) fn next_probe<S: Store>(
    alloc: Global,
    store: &mut S,
    version: u64,
) -> Result<Turn, JobFault>
    ensures { Probes S.Store version result store.old store.new }
{
    match probe(alloc, store, version) {
        Ok(probed) => Ok(Turn::To(behind_probe(probed))),
        Err(fault) => Err(fault),
    }
}

/// Where a job goes on behind a probe.
fn behind_probe(probed: Probed) -> Place
    ensures { result ≡ behind_probe probed }
{
    match probed {
        Probed::Next(version) => Place::Probing(version),
        Probed::Found(version) => Place::Reading(version),
    }
}

/// Reads the metadata of a version, and begins the work.
pub(crate) fn read<S: Store, D: Draws>(
    alloc: Global,
    version: u64,
    lines: &[u8],
    work: &mut Option<Work>,
    ring: &Keyring,
    store: &mut S,
    draws: &mut D,
) -> Result<Turn, JobFault>
    ensures { ReadsVersion S.Store D.Draws ring.now version lines.now work.old work.new result
        store.old store.new draws.old draws.new }
{
    match begin(alloc, version, lines, ring, store, draws) {
        Ok(begun) => {
            let place = begun.first_place();
            *work = Some(begun);
            Ok(Turn::To(place))
        }
        Err(fault) => Err(fault),
    }
}

/// Where a job goes on behind a turn.
pub(crate) fn place_after(turn: &Result<Turn, JobFault>) -> Place
    ensures { result ≡ place_after turn.now }
{
    match turn {
        Ok(Turn::To(place)) => *place,
        Ok(Turn::Done { .. }) | Err(_) => Place::Ended,
    }
}

/// What a step answers behind a turn.
pub(crate) fn step_of(turn: Result<Turn, JobFault>) -> Step
    ensures { result ≡ step_of turn }
{
    match turn {
        Ok(Turn::To(_)) => Step::Again,
        Ok(Turn::Done { snapshot, version }) => Step::Done {
            snapshot: Some(snapshot),
            version,
        },
        Err(fault) => Step::Refused(fault),
    }
}
