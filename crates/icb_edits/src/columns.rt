//! The greatest column id of a table.
ghost use Rattle.std.specs.Prelude.{◌≡◌, OnOk, Some, codes};
ghost use Rattle.serde_json.specs.Data as json;
ghost use Rattle.serde_json.specs.View.{members_view};
ghost use Rattle.icb_types.specs.Lines.{int_in, number_json};
ghost use Rattle.icb_edits.specs.Tables.{greater_id, last_id};

use crate::values::put_small;
use icb_base::NoMemory;
use icb_types::Column;
use serde_json::{Map, Value};
use std::alloc::Global;

/// Sets the greatest column id.
pub(crate) fn put_last_id(
    alloc: Global,
    members: &mut Map<String, Value>,
    columns: &[Column],
) -> Result<(), NoMemory>
    ensures reads { int_in (number_json (last_id columns.now)) ≡ Some (last_id columns.now) }
    ensures sets { OnOk result (members_view members.new.entries ≡ json.put
        (codes "last-column-id") (number_json (last_id columns.now))
        (members_view members.old.entries)) }
{
    put_small(alloc, members, "last-column-id", last_id(columns))
}

/// The greatest column id.
#[tactic(auto, unfolding(crate::specs::Tables::last_id))]
fn last_id(columns: &[Column]) -> i32
    ensures { result ≡ last_id columns.now }
{
    let mut last = 0;
    for column in columns {
        last = greater_id(last, column);
    }
    last
}

/// The greater of a number and a column's id.
fn greater_id(last: i32, column: &Column) -> i32
    ensures { result ≡ greater_id last column.now }
{
    if last < column.id { column.id } else { last }
}
