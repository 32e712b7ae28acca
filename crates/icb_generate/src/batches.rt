//! The rows of a generated table, cut into batches.
ghost use Rattle.std.specs.Prelude.{◌≡◌, ◌≤◌, ◌-◌, IfOk};
ghost use Rattle.std.specs.List.{flat_map, range_with_len};
ghost use Rattle.icb_types.specs.Lines.{row_line};
ghost use Rattle.icb_generate.specs.Batches.{batch_count, batch_lines};
ghost use Rattle.icb_generate.specs.Rows.{row_of};

use crate::rows::line_of;
use icb_schema::{NoMemory, Octets};
use std::alloc::Global;

/// How many rows a batch has, but for the last.
const BATCH_ROWS: u32 = 10000;

/// How many batches a table of so many rows has.
pub fn batch_count(rows: u32) -> u32
    ensures { result ≡ batch_count rows }
{
    rows.div_ceil(BATCH_ROWS)
}

/// The lines of a table's batch with this number, from 0; none behind the last.
pub fn batch(alloc: Global, seed: u64, rows: u32, number: u32) -> Result<Octets, NoMemory>
    ensures { IfOk result (λ lines. lines ≡ batch_lines seed rows number) }
{
    let first = BATCH_ROWS.saturating_mul(number).min(rows);
    let last = first.saturating_add(BATCH_ROWS).min(rows);
    lines_between(alloc, seed, first, last)
}

/// The lines of the rows from the first number up to the last.
fn lines_between(alloc: Global, seed: u64, first: u32, last: u32) -> Result<Octets, NoMemory>
    requires { first ≤ last }
    ensures { IfOk result (λ lines. lines ≡ flat_map (λ i. row_line (row_of seed i))
        (range_with_len first (last - first))) }
{
    let mut lines = Octets::new(alloc);
    for number in first..last {
        let line = line_of(alloc, seed, number)?;
        lines.extend_from_slice(line.as_slice())?;
    }
    Ok(lines)
}
