//! The positions of columns by their names.
ghost use Rattle.std.specs.Prelude.{◌≡◌, ◌≤◌, bytes_eq, length};
ghost use Rattle.icb_table.specs.Selection.{columns_named, columns_shown};
ghost use Rattle.icb_scan.specs.Planning.{FindsColumns, IsNoColumn, IsPosition};

use icb_datafile::all_positions;
use icb_rows::RangeFault;
use icb_schema::{Names, Text};
use icb_types::Column;
use sqlite_items::Items;
use std::alloc::Global;

/// The position of the first column of this name.
pub(crate) fn position_of(columns: &[Column], name: &Text) -> Option<u32>
    requires { length columns.now ≤ 1000 }
    ensures { IsPosition name.now columns.now result }
{
    for at in 0..columns.len() as u32 {
        if is_named(&columns[at as usize], name) {
            return Some(at);
        }
    }
    None
}

/// Whether a column has this name.
fn is_named(column: &Column, name: &Text) -> bool
    ensures { result ≡ bytes_eq column.now.name name.now }
{
    column.name.as_slice() == name.as_slice()
}

/// The positions of the columns that are named, or of all.
pub(crate) fn positions_shown(
    alloc: Global,
    columns: &[Column],
    names: &Option<Names>,
) -> Result<Items<u32>, RangeFault>
    requires { length columns.now ≤ 1000 }
    ensures { FindsColumns columns.now (columns_shown columns.now names.now) result }
{
    match names {
        Some(names) => positions_named(alloc, columns, names.as_slice()),
        None => match all_positions(alloc, columns) {
            Ok(positions) => Ok(positions),
            Err(_) => Err(RangeFault::NoMemory),
        },
    }
}

/// The positions of the columns of these names, in their order.
fn positions_named(
    alloc: Global,
    columns: &[Column],
    names: &[Text],
) -> Result<Items<u32>, RangeFault>
    requires { length columns.now ≤ 1000 }
    ensures { FindsColumns columns.now (columns_named columns.now names.now) result }
{
    let mut positions = Items::new(alloc);
    for name in names {
        let Some(at) = position_of(columns, name) else {
            return Err(no_column(alloc, name));
        };
        if positions.push(at).is_err() {
            return Err(RangeFault::NoMemory);
        }
    }
    Ok(positions)
}

/// No column has this name, or no memory was left to say so.
pub(crate) fn no_column(alloc: Global, name: &Text) -> RangeFault
    ensures { IsNoColumn name.now result }
{
    match name.copy(alloc) {
        Ok(name) => RangeFault::NoColumn { name },
        Err(_) => RangeFault::NoMemory,
    }
}
