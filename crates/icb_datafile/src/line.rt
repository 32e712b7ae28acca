//! The line of a row, printed from a view of its record.
ghost use Rattle.icb_datafile.specs.Plans.{PrintsLine};

use icb_rows::{Projection, RowView};
use icb_schema::{NoMemory, Octets};
use icb_types::{row_datum, row_end};
use std::alloc::Global;

/// Prints the line of a row: the data of the columns at these positions. What the line had is dropped.
pub(crate) fn print_line(
    alloc: Global,
    projection: &Projection,
    view: &RowView<'_>,
    positions: &[u32],
    line: &mut Octets,
) -> Result<(), NoMemory>
    ensures { PrintsLine result line.new projection.now view.now positions.now }
{
    line.truncate(0);
    for position in positions {
        let datum = view.datum(projection, *position);
        row_datum(alloc, line, &datum)?;
    }
    row_end(line)
}
