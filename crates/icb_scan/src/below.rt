//! The data files below a list, one after another.
ghost use Rattle.std.specs.Prelude.{◌≡◌, ◌≤◌, IfSome, length};
ghost use Rattle.icb_base.specs.Causes.{Blames};
ghost use Rattle.icb_datafile.specs.Left.{all_of};
ghost use Rattle.icb_datafile.specs.Plans.{IsPlanOf, selection_by};
ghost use Rattle.icb_walk.specs.Judged.{listing};
ghost use Rattle.icb_walk.specs.Steps.{ReadsStore};
ghost use Rattle.icb_walk.specs.declared.open_list.Rows.TheVariants.{Before};
ghost use Rattle.icb_scan.specs.Answers.{ShowsBelow};
ghost use Rattle.icb_scan.specs.Leaves.{IsSink, IsStore};

use crate::bounds::may_match;
use crate::fault::{ScanFault, tree_refused};
use crate::leaf::print_leaf;
use icb_base::{Sink, Store};
use icb_datafile::Plan;
use icb_types::TableSchema;
use icb_walk::Walk;
use std::alloc::Global;

/// Prints the rows that a plan chooses of the files below a walk's list, and says how many were shown.
/// No file is asked for behind the one with the last row that is asked for.
pub(crate) fn scan_below<S: Store, O: Sink>(
    alloc: Global,
    store: &mut S,
    walk: &mut Walk,
    schema: &TableSchema,
    plan: &mut Plan,
    sink: &mut O,
) -> Result<u64, ScanFault>
    requires few { length schema.now.columns ≤ 1000 }
    requires is_plan { IsPlanOf schema.now.columns plan.old }
    requires none { plan.old.shown ≡ 0 }
    requires before { (walk.old.rows ≡ Before) × (walk.old.manifest ≡ None) }
    ensures shows { IfSome (S.held store.old) (λ files. ShowsBelow S.Store O.Sink files
        (all_of schema.now.columns) walk.old.location (selection_by schema.now.columns plan.old)
        (listing walk.old.list) store.old store.new sink.old sink.new result) }
    ensures reads { ReadsStore S.Store (IsStore result) store.old store.new }
    ensures sink { Blames (IsSink result) (O.faults sink.old) (O.faults sink.new) }
{
    'files: for _ in 0..u64::MAX {
        if plan.is_done() {
            return Ok(plan.shown);
        }
        let leaf = match walk.next(alloc, store) {
            Ok(Some(leaf)) => leaf,
            Ok(None) => return Ok(plan.shown),
            Err(fault) => return Err(tree_refused(fault)),
        };
        if !may_match(&plan.range, schema, &leaf.file) {
            continue;
        }
        match print_leaf(alloc, store, &leaf, schema, plan, sink) {
            Ok(()) => {}
            Err(fault) => return Err(fault),
        }
    }
    Err(ScanFault::NoMemory)
}
