//! The command `scan`: the chosen rows of a table, by its current metadata or by what is handed in.
ghost use Rattle.std.specs.Prelude.{◌≡◌, option_map};
ghost use Rattle.icb_base.specs.Causes.{Blames};
ghost use Rattle.icb_meta.specs.Answers.{shown_of};
ghost use Rattle.icb_run.specs.Outside.{Does};
ghost use Rattle.icb_run.specs.Scan.{IsScan, PrintsChosen, query_of, range_asked};
ghost use Rattle.icb_run.specs.Sources.{ScanIsRead};
ghost use Rattle.icb_scan.specs.Words.{meant, range_words};
ghost use Rattle.icb_walk.specs.Steps.{ReadsStore};

use crate::keyring_input::{keys_status, read_keyring};
use crate::metadata_input::read_metadata;
use crate::outside::Parts;
use crate::scan_status::scan_status;
use crate::status::Status;
use icb_base::{Draws, Sink, Source, Store};
use icb_chain::Keyring;
use icb_meta::TableMeta;
use icb_scan::{Query, scan};
use icb_words::{RangeWords, Scan};
use std::alloc::Global;

/// Reads the keyring and then the metadata, and prints the rows that the words choose. What was chosen
/// before a refusal is printed before the refusal is answered.
pub fn scan_table<S: Store, G: Store, I: Source, K: Source, M: Source, D: Draws, O: Sink>(
    alloc: Global,
    words: Scan,
    outside: &mut Parts<'_, '_, '_, '_, '_, '_, '_, S, G, I, K, M, D, O>,
) -> Status
    ensures { Does S.Store G.Store I.Source K.Source M.Source D.Draws O.Sink
        (IsScan words) (ScanIsRead words) outside.old outside.new result }
{
    let ring = match read_keyring(alloc, outside.keys) {
        Ok(ring) => ring,
        Err(fault) => return keys_status(fault),
    };
    match read_metadata(alloc, words.is_handed_in, outside.table, outside.trusted) {
        Ok(meta) => print_chosen(
            alloc,
            &meta,
            &ring,
            &query_of(words),
            outside.table,
            outside.out,
        ),
        Err(status) => status,
    }
}

/// Prints the rows that a query chooses.
fn print_chosen<S: Store, O: Sink>(
    alloc: Global,
    meta: &TableMeta,
    ring: &Keyring,
    query: &Query,
    table: &mut S,
    out: &mut O,
) -> Status
    ensures prints { PrintsChosen (S.held table.old) (shown_of meta.now) ring.now (meant query.now)
        (O.written out.old) (O.written out.new) result }
    ensures table { ReadsStore S.Store (result ≡ Status.StoreFault) table.old table.new }
    ensures out { Blames (result ≡ Status.OutputFault) (O.faults out.old) (O.faults out.new) }
{
    match scan(alloc, table, meta, ring, query, out) {
        Ok(_) => Status::Ok,
        Err(fault) => scan_status(fault),
    }
}

/// What the words ask for.
fn query_of(words: Scan) -> Query
    ensures { meant result ≡ query_of words }
{
    Query {
        snapshot: words.snapshot,
        columns: words.columns,
        range: range_asked(words.range),
        skip: words.skip,
        take: words.take,
    }
}

/// The range that the words give.
fn range_asked(words: Option<RangeWords>) -> Option<icb_scan::RangeWords>
    ensures { option_map range_words result ≡ option_map range_asked words }
{
    match words {
        Some(words) => Some(icb_scan::RangeWords {
            column: words.column,
            low: words.low,
            high: words.high,
        }),
        None => None,
    }
}
