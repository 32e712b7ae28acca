//! The columns of a table among the fields of a data file.
ghost use Rattle.std.specs.Prelude.{◌≡◌, ◌≤◌, length, IfOk, IfErr};
ghost use Rattle.icb_schema.specs.Nodes.{tree_of};
ghost use Rattle.icb_reader.specs.Answers.{IsOfFile};
ghost use Rattle.icb_rows.specs.Records.{file_fields};
ghost use Rattle.icb_rows.specs.Views.{chosen};
ghost use Rattle.icb_datafile.specs.Answers.{FindsColumns};
ghost use Rattle.icb_datafile.specs.Plans.{ArePositions};

use icb_reader::RecordsFault;
use icb_rows::{Projection, ProjectionFault};
use icb_schema::{AvroSchema, NoMemory};
use icb_types::{Column, TableSchema};
use sqlite_items::Items;
use std::alloc::Global;

/// All columns of a table among the fields of a file, or the first that the file doesn't have with its
/// type: it is refused at the file's first byte.
pub(crate) fn all_columns<F>(
    alloc: Global,
    file: &AvroSchema,
    schema: &TableSchema,
) -> Result<Projection, RecordsFault<F>>
    requires { length schema.now.columns ≤ 1000 }
    ensures finds { FindsColumns result schema.now.columns (file_fields (tree_of file.now)) }
    ensures answers { IfErr result IsOfFile }
{
    let positions = all_positions(alloc, schema.columns.as_slice())?;
    match Projection::new(alloc, file, schema, positions.as_slice()) {
        Ok(projection) => Ok(projection),
        Err(ProjectionFault::Field { id }) => Err(RecordsFault::Field { place: 0, id }),
        Err(ProjectionFault::NoMemory) => Err(RecordsFault::NoMemory),
    }
}

/// The positions of all columns.
pub fn all_positions(alloc: Global, columns: &[Column]) -> Result<Items<u32>, NoMemory>
    requires { length columns.now ≤ 1000 }
    ensures { IfOk result (λ positions. (chosen columns.now positions ≡ columns.now)
        × ArePositions columns.now positions) }
{
    let mut positions = Items::new(alloc);
    for at in 0..columns.len() as u32 {
        positions.push(at)?;
    }
    Ok(positions)
}
