//! The turn that reads a version: the rows of the input, what the version needs to be added to, and the
//! bytes in the paths of the append's files.
ghost use Rattle.std.specs.Prelude.{◌≡◌, ◌≤◌, ◌^◌, IfErr, IfOk, IsErr, length};
ghost use Rattle.std.specs.List.{AllByRecursion};
ghost use Rattle.icb_base.specs.Calls.{DrawsText};
ghost use Rattle.icb_meta.specs.Answers.{shown_of};
ghost use Rattle.icb_types.specs.Fits.{FitsColumns};
ghost use Rattle.icb_append.specs.Beginning.{AnswersRows, Begins, BeginsWith, DrawsWork, TriesRows, current_fault, input_fault, unique_of};
ghost use Rattle.icb_append.specs.Lines.{rows_of_input};

use crate::draft::Draft;
use crate::entries::ListRows;
use crate::fault::InputFault;
use crate::lines::read_rows;
use crate::tried::Tried;
use crate::work::Work;
use icb_base::{Draws, Failed, Store};
use icb_chain::Keyring;
use icb_meta::TableMeta;
use icb_tree::{CurrentFault, read_version};
use icb_turns::JobFault;
use icb_types::Rows;
use std::alloc::Global;

/// The most rows of an append. An input has far fewer lines.
const MOST_ROWS: u64 = 1 << 62;

/// Reads the metadata of a version, and begins the work of an append of these lines.
pub(crate) fn begin<S: Store, D: Draws>(
    alloc: Global,
    version: u64,
    lines: &[u8],
    ring: &Keyring,
    store: &mut S,
    draws: &mut D,
) -> Result<Work, JobFault>
    ensures { Begins S.Store D.Draws ring.now version lines.now result store.old store.new draws.old
        draws.new }
{
    match read_version(alloc, store, version) {
        Ok(meta) => begin_with(alloc, meta, version, lines, ring, draws),
        Err(fault) => Err(current_fault(fault)),
    }
}

/// Begins the work with the metadata of a version.
fn begin_with<D: Draws>(
    alloc: Global,
    meta: TableMeta,
    version: u64,
    lines: &[u8],
    ring: &Keyring,
    draws: &mut D,
) -> Result<Work, JobFault>
    ensures { BeginsWith D.Draws meta ring.now version lines.now result draws.old draws.new }
{
    match rows_in(alloc, &meta, lines) {
        Ok(rows) => with_rows(alloc, meta, version, rows, ring, draws),
        Err(fault) => Err(fault),
    }
}

/// Begins the work with the rows that the lines show.
fn with_rows<D: Draws>(
    alloc: Global,
    meta: TableMeta,
    version: u64,
    rows: Rows,
    ring: &Keyring,
    draws: &mut D,
) -> Result<Work, JobFault>
    requires { length rows ≤ 2 ^ 62 }
    ensures { TriesRows D.Draws meta ring.now version rows result draws.old draws.new }
{
    let count = rows.as_slice().len() as u64;
    match Tried::of(alloc, meta, ring, version, count) {
        Ok(tried) => with_unique(alloc, rows, tried, draws),
        Err(fault) => Err(fault),
    }
}

/// Begins the work with a version to which rows may be added.
fn with_unique<D: Draws>(
    alloc: Global,
    rows: Rows,
    tried: Tried,
    draws: &mut D,
) -> Result<Work, JobFault>
    ensures { DrawsWork D.Draws rows tried result draws.old draws.new }
{
    match draw_unique(draws) {
        Ok(unique) => Ok(Work {
            draft: Draft::new(alloc, rows, unique),
            tried,
            manifest: None,
            parent: ListRows::new(alloc),
            list: None,
        }),
        Err(Failed) => Err(JobFault::Random),
    }
}

/// Draws the bytes that stand in the paths of an append's files.
fn draw_unique<D: Draws>(draws: &mut D) -> Result<[u8; 16], Failed>
    ensures draws { DrawsText D.Draws (unique_of result) (IsErr result) draws.old draws.new }
    ensures size { IfOk result (λ unique. length unique ≡ 16) }
{
    let mut unique = [0; 16];
    match draws.fill(&mut unique) {
        Ok(()) => Ok(unique),
        Err(Failed) => Err(Failed),
    }
}

/// The rows that lines show under the schema of a version, or the refusal of the first that shows none.
fn rows_in(alloc: Global, meta: &TableMeta, lines: &[u8]) -> Result<Rows, JobFault>
    ensures rows { AnswersRows (rows_of_input (shown_of meta.now).layout.schema.columns lines.now)
        result }
    ensures fit { IfOk result (λ rows.
        AllByRecursion (FitsColumns (shown_of meta.now).layout.schema.columns) rows) }
    ensures few { IfOk result (λ rows. length rows ≤ 2 ^ 62) }
{
    match read_rows(alloc, meta.schema(), lines) {
        Ok(rows) => few(rows),
        Err(fault) => Err(input_fault(fault)),
    }
}

/// Rows, unless they are too many.
fn few(rows: Rows) -> Result<Rows, JobFault>
    ensures few { IfOk result (λ few. (few ≡ rows) × (length rows ≤ 2 ^ 62)) }
    ensures many { IfErr result (λ fault. fault ≡ JobFault.NoMemory) }
{
    if rows.as_slice().len() as u64 > MOST_ROWS {
        return Err(JobFault::NoMemory);
    }
    Ok(rows)
}

/// The refusal of a job by an input that isn't the lines of rows.
fn input_fault(fault: InputFault) -> JobFault
    ensures { result ≡ input_fault fault }
{
    match fault {
        InputFault::BadLine { line, row } => JobFault::BadInput { line, row },
        InputFault::NoMemory => JobFault::NoMemory,
    }
}

/// The refusal of a job by a version's metadata that isn't read.
fn current_fault(fault: CurrentFault) -> JobFault
    ensures { result ≡ current_fault fault }
{
    match fault {
        CurrentFault::NoTable => JobFault::NoTable,
        CurrentFault::Limit { what, number } => JobFault::Limit { what, number },
        CurrentFault::BadMeta { field } => JobFault::BadMeta { field },
        CurrentFault::Store => JobFault::Store,
        CurrentFault::NoMemory => JobFault::NoMemory,
    }
}
