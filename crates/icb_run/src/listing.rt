//! The commands `snapshots` and `keys`: what the table's current metadata says, line by line.
ghost use Rattle.std.specs.Prelude.{◌≡◌, ◌≢◌, IfOk, IfSome};
ghost use Rattle.icb_base.specs.Causes.{Blames};
ghost use Rattle.icb_meta.specs.Answers.{shown_of};
ghost use Rattle.icb_run.specs.Answers.{Prints};
ghost use Rattle.icb_run.specs.Listing.{IsListing, listed, text_of};
ghost use Rattle.icb_run.specs.Outside.{Does};
ghost use Rattle.icb_run.specs.Sources.{AreUnread};
ghost use Rattle.icb_tree.specs.Reading.{ReadsOnly};
ghost use Rattle.icb_tree.specs.Versions.{current_of};

use crate::metadata_input::current_status;
use crate::outside::Parts;
use crate::status::Status;
use icb_base::{Bytes, Draws, Failed, NoMemory, Sink, Source, Store};
use icb_listing::{keys_text, snapshots_text};
use icb_meta::TableMeta;
use icb_tree::current;
use std::alloc::Global;

/// What is printed of a table's metadata.
#[derive(Clone, Copy, Debug, PartialEq, Eq)]
pub enum Listing {
    /// A line for each snapshot.
    Snapshots,
    /// A line for each sealed key.
    Keys,
}

/// Prints what the table's current metadata says. All memory is taken before the output.
pub fn list<S: Store, G: Store, I: Source, K: Source, M: Source, D: Draws, O: Sink>(
    alloc: Global,
    which: Listing,
    outside: &mut Parts<'_, '_, '_, '_, '_, '_, '_, S, G, I, K, M, D, O>,
) -> Status
    ensures { Does S.Store G.Store I.Source K.Source M.Source D.Draws O.Sink
        (IsListing which) AreUnread outside.old outside.new result }
{
    list_table(alloc, which, outside.table, outside.out)
}

/// Prints what a table's current metadata says.
fn list_table<S: Store, O: Sink>(
    alloc: Global,
    which: Listing,
    table: &mut S,
    out: &mut O,
) -> Status
    ensures prints { IfSome (S.held table.old) (λ files. Prints (listed which (current_of files))
        (O.written out.old) (O.written out.new) result) }
    ensures reads { ReadsOnly S.Store (result ≡ Status.StoreFault) table.old table.new }
    ensures writes { Blames (result ≡ Status.OutputFault) (O.faults out.old) (O.faults out.new) }
    ensures no_input { result ≢ Status.InputFault }
    ensures no_random { result ≢ Status.RandomFault }
{
    let (_, meta) = match current(alloc, table) {
        Ok(current) => current,
        Err(fault) => return current_status(fault),
    };
    match text_of(alloc, which, &meta) {
        Ok(text) => match out.write(text.as_slice()) {
            Ok(()) => Status::Ok,
            Err(Failed) => Status::OutputFault,
        },
        Err(NoMemory) => Status::NoMemory,
    }
}

/// What is printed of metadata.
fn text_of(alloc: Global, which: Listing, meta: &TableMeta) -> Result<Bytes, NoMemory>
    ensures { IfOk result (λ text. text ≡ text_of which (shown_of meta.now)) }
{
    match which {
        Listing::Snapshots => snapshots_text(alloc, meta),
        Listing::Keys => keys_text(alloc, meta),
    }
}
