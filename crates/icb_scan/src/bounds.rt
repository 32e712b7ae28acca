//! Whether the recorded bounds of a data file leave it open that it has a row in a range.
ghost use Rattle.std.specs.Prelude.{◌≡◌, option_map, slice_get};
ghost use Rattle.icb_rows.specs.Ranges.{may_hold};
ghost use Rattle.icb_datafile.specs.Plans.{range_at};
ghost use Rattle.icb_table.specs.Visited.{bound_of, may_match};

use icb_datafile::PlanRange;
use icb_manifest::DataFile;
use icb_rows::Range;
use icb_schema::Octets;
use icb_types::{Column, TableSchema};

/// Whether the bounds of a data file leave it open that it has a row in the range.
pub(crate) fn may_match(range: &Option<PlanRange>, schema: &TableSchema, file: &DataFile) -> bool
    ensures { result ≡ may_match (range_at schema.now.columns range.now) file.now }
{
    let Some(asked) = range else {
        return true;
    };
    match id_at(schema.columns.as_slice(), asked.place) {
        Some(id) => may_hold(&asked.range, id, file),
        None => true,
    }
}

/// The id of the column at a position.
fn id_at(columns: &[Column], place: u32) -> Option<i32>
    ensures { result ≡ option_map (λ column. column.id) (slice_get columns.now place) }
{
    match columns.get(place as usize) {
        Some(column) => Some(column.id),
        None => None,
    }
}

/// Whether a data file whose bounds of the column of this id are as recorded may hold a datum of a range.
fn may_hold(range: &Range, id: i32, file: &DataFile) -> bool
    ensures { result ≡ may_hold range.now (bound_of id file.now.lower)
        (bound_of id file.now.upper) }
{
    let lower = bound_of(id, file.lower.as_slice());
    let upper = bound_of(id, file.upper.as_slice());
    range.may_hold(lower, upper)
}

/// The bound of a column: the first with its id.
#[tactic(auto, unfolding(icb_table::specs::Visited::bound_of))]
fn bound_of(id: i32, bounds: &[(i32, Octets)]) -> Option<&[u8]>
    ensures { option_map (λ bytes. bytes.now) result ≡ bound_of id bounds.now }
{
    for bound in bounds {
        if bound.0 == id {
            return Some(bound.1.as_slice());
        }
    }
    None
}
