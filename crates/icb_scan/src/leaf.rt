//! One data file of a scan.
ghost use Rattle.std.specs.Prelude.{◌≡◌, ◌≤◌, IfSome, false, length};
ghost use Rattle.icb_base.specs.Causes.{Blames};
ghost use Rattle.icb_datafile.specs.Plans.{KeepsWords, asks_none};
ghost use Rattle.icb_walk.specs.Entries.{live_of};
ghost use Rattle.icb_walk.specs.Steps.{ReadsFile};
ghost use Rattle.icb_scan.specs.Leaves.{IsSink, IsStore, PrintsFile};

use crate::fault::{ScanFault, tree_refused};
use icb_base::{Sink, Store};
use icb_datafile::{Plan, RowsFault, print_file};
use icb_stream::{Attached, Stream};
use icb_types::TableSchema;
use icb_walk::{Leaf, records_refused, stream_refused};
use std::alloc::Global;

/// Prints the rows of a data file that a plan chooses, of which some are asked for.
pub(crate) fn print_leaf<S: Store, O: Sink>(
    alloc: Global,
    store: &mut S,
    leaf: &Leaf,
    schema: &TableSchema,
    plan: &mut Plan,
    sink: &mut O,
) -> Result<(), ScanFault>
    requires few { length schema.now.columns ≤ 1000 }
    requires asked { asks_none plan.old.most ≡ false }
    ensures prints { IfSome (S.held store.old) (λ files. PrintsFile O.Sink files
        (live_of leaf.now).listed schema.now.columns plan.old plan.new sink.old sink.new result) }
    ensures words { KeepsWords plan.old plan.new }
    ensures reads { ReadsFile S.Store leaf.now.path (IsStore result) store.old store.new }
    ensures sink { Blames (IsSink result) (O.faults sink.old) (O.faults sink.new) }
{
    let mut stream = match Stream::open(alloc, store, &leaf.path, &leaf.key, leaf.length) {
        Ok(stream) => stream,
        Err(fault) => return Err(tree_refused(stream_refused(alloc, &leaf.path, fault))),
    };
    let mut reader = Attached {
        stream: &mut stream,
        store,
    };
    match print_file(alloc, &mut reader, schema, plan, sink) {
        Ok(()) => Ok(()),
        Err(RowsFault::File(fault)) => {
            Err(tree_refused(records_refused(alloc, &leaf.path, fault)))
        }
        Err(RowsFault::Sink) => Err(ScanFault::Sink),
    }
}
