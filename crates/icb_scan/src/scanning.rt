//! The rows that a query chooses of a snapshot.
ghost use Rattle.std.specs.Prelude.{◌≡◌, Err};
ghost use Rattle.icb_base.specs.Causes.{Blames};
ghost use Rattle.icb_meta.specs.Answers.{shown_of};
ghost use Rattle.icb_table.specs.Table.{columns_asked};
ghost use Rattle.icb_walk.specs.Steps.{ReadsStore};
ghost use Rattle.icb_scan.specs.Committed.{ScansCommitted};
ghost use Rattle.icb_scan.specs.Complete.{ScansComplete};
ghost use Rattle.icb_scan.specs.Leaves.{IsSink, IsStore};
ghost use Rattle.icb_scan.specs.Scans.{Scans};
ghost use Rattle.icb_scan.specs.Start.{start_of};
ghost use Rattle.icb_scan.specs.Tables.{ScansTable};
ghost use Rattle.icb_scan.specs.Words.{meant};

use crate::begin::{Begun, begin};
use crate::below::scan_below;
use crate::fault::ScanFault;
use crate::query::Query;
use icb_base::{Sink, Store};
use icb_chain::Keyring;
use icb_meta::TableMeta;
use std::alloc::Global;

/// Writes a line for each row that a query chooses, in order, and says how many were shown. What was
/// chosen before a refusal is written before the refusal is answered.
pub fn scan<S: Store, O: Sink>(
    alloc: Global,
    store: &mut S,
    meta: &TableMeta,
    ring: &Keyring,
    query: &Query,
    sink: &mut O,
) -> Result<u64, ScanFault>
    ensures scans { Scans S.Store O.Sink (columns_asked (shown_of meta.now))
        (shown_of meta.now).heading.location
        (start_of (shown_of meta.now) ring.now (meant query.now))
        store.old store.new sink.old sink.new result }
    ensures table { ScansTable S.Store O.Sink (shown_of meta.now) ring.now (meant query.now)
        store.old store.new sink.old sink.new result }
    ensures committed { ScansCommitted S.Store O.Sink (shown_of meta.now) ring.now
        (meant query.now) store.old store.new sink.old sink.new result }
    ensures complete { ScansComplete S.Store O.Sink (shown_of meta.now) ring.now
        (meant query.now) store.old store.new sink.old sink.new result }
    ensures reads { ReadsStore S.Store (IsStore result) store.old store.new }
    ensures sink { Blames (IsSink result) (O.faults sink.old) (O.faults sink.new) }
{
    write_chosen(alloc, store, meta, ring, query, sink)
}

/// Writes the lines of the chosen rows, where a scan begins.
fn write_chosen<S: Store, O: Sink>(
    alloc: Global,
    store: &mut S,
    meta: &TableMeta,
    ring: &Keyring,
    query: &Query,
    sink: &mut O,
) -> Result<u64, ScanFault>
    ensures scans { Scans S.Store O.Sink (columns_asked (shown_of meta.now))
        (shown_of meta.now).heading.location
        (start_of (shown_of meta.now) ring.now (meant query.now))
        store.old store.new sink.old sink.new result }
    ensures reads { ReadsStore S.Store (IsStore result) store.old store.new }
    ensures sink { Blames (IsSink result) (O.faults sink.old) (O.faults sink.new) }
{
    let begun = match begin(alloc, meta, ring, query) {
        Ok(begun) => begun,
        Err(fault) => return Err(fault),
    };
    let Begun { mut plan, walk } = begun;
    let Some(mut walk) = walk else {
        return Ok(0);
    };
    scan_below(alloc, store, &mut walk, meta.schema(), &mut plan, sink)
}
