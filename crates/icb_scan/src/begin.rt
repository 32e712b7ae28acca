//! Where a scan begins, before a file is opened.
ghost use Rattle.icb_chain.specs.Ring.{Ring};
ghost use Rattle.icb_meta.specs.Answers.{shown_of};
ghost use Rattle.icb_table.specs.Table.{columns_asked, snapshot_asked};
ghost use Rattle.std.specs.Prelude.{◌≡◌};
ghost use Rattle.icb_scan.specs.Start.{Begins, FindsSnapshot, start_of};
ghost use Rattle.icb_scan.specs.Words.{meant};

use crate::fault::{ScanFault, tree_refused, words_refused};
use crate::plan::plan_of;
use crate::query::Query;
use icb_chain::Keyring;
use icb_datafile::Plan;
use icb_meta::TableMeta;
use icb_walk::{TreeFault, Walk};
use std::alloc::Global;

/// A scan that has opened nothing.
#[derive(Drop)]
pub(crate) struct Begun {
    /// What is chosen.
    pub(crate) plan: Plan,
    /// The walk over the files of the snapshot, if there is one.
    pub(crate) walk: Option<Walk>,
}

/// Begins a scan, or the first refusal: of the snapshot, the words, and the snapshot's list.
pub(crate) fn begin(
    alloc: Global,
    meta: &TableMeta,
    ring: &Keyring,
    query: &Query,
) -> Result<Begun, ScanFault>
    ensures { Begins (columns_asked (shown_of meta.now)) (shown_of meta.now).heading.location
        (start_of (shown_of meta.now) ring.now (meant query.now)) result }
{
    let snapshot = match snapshot_found(meta, query) {
        Ok(snapshot) => snapshot,
        Err(fault) => return Err(fault),
    };
    let plan = match plan_of(alloc, meta.schema(), query) {
        Ok(plan) => plan,
        Err(fault) => return Err(words_refused(fault)),
    };
    let Some(id) = snapshot else {
        return Ok(Begun { plan, walk: None });
    };
    match Walk::new(alloc, meta, ring, id) {
        Ok(walk) => Ok(Begun {
            plan,
            walk: Some(walk),
        }),
        Err(fault) => Err(tree_refused(fault)),
    }
}

/// The snapshot that a query asks for, if any, which is there.
fn snapshot_found(meta: &TableMeta, query: &Query) -> Result<Option<i64>, ScanFault>
    ensures { FindsSnapshot (shown_of meta.now)
        (snapshot_asked (shown_of meta.now) (meant query.now)) result }
{
    let Some(id) = snapshot_asked(meta, query) else {
        return Ok(None);
    };
    match meta.snapshot(id) {
        Some(_) => Ok(Some(id)),
        None => Err(ScanFault::Tree(TreeFault::NoSnapshot { id })),
    }
}

/// The snapshot that a query asks for: the one that it names, or else the current one, if any.
fn snapshot_asked(meta: &TableMeta, query: &Query) -> Option<i64>
    ensures { result ≡ snapshot_asked (shown_of meta.now) (meant query.now) }
{
    match query.snapshot {
        Some(id) => Some(id),
        None => meta.current(),
    }
}
