//! What a query's words mean under a table's schema.
ghost use Rattle.icb_types.specs.Columns.{AreColumns};
ghost use Rattle.icb_table.specs.Selection.{range_meant, selection_of};
ghost use Rattle.icb_scan.specs.Planning.{FindsPlan, FindsRange};
ghost use Rattle.icb_scan.specs.Words.{meant, range_words};
ghost use Rattle.std.specs.Prelude.{option_map};

use crate::columns::{no_column, position_of, positions_shown};
use crate::query::{Query, RangeWords};
use icb_datafile::{Plan, PlanRange};
use icb_rows::{Range, RangeFault};
use icb_schema::Octets;
use icb_types::TableSchema;
use std::alloc::Global;

/// What a query chooses of the rows that come, or the first refusal of its words: of its columns in
/// their order, and then of its range.
pub(crate) fn plan_of(
    alloc: Global,
    schema: &TableSchema,
    query: &Query,
) -> Result<Plan, RangeFault>
    requires { AreColumns schema.now.columns }
    ensures { FindsPlan schema.now.columns
        (selection_of schema.now.columns (meant query.now)) result }
{
    let columns = match positions_shown(alloc, schema.columns.as_slice(), &query.columns) {
        Ok(columns) => columns,
        Err(fault) => return Err(fault),
    };
    let range = match range_meant(alloc, schema, &query.range) {
        Ok(range) => range,
        Err(fault) => return Err(fault),
    };
    Ok(Plan {
        columns,
        range,
        skip: query.skip,
        most: query.take,
        shown: 0,
        line: Octets::new(alloc),
        text: Octets::new(alloc),
    })
}

/// The range of a query, by its column's position.
fn range_meant(
    alloc: Global,
    schema: &TableSchema,
    words: &Option<RangeWords>,
) -> Result<Option<PlanRange>, RangeFault>
    requires { AreColumns schema.now.columns }
    ensures { FindsRange schema.now.columns
        (range_meant schema.now.columns (option_map range_words words.now)) result }
{
    let Some(words) = words else {
        return Ok(None);
    };
    let Some(place) = position_of(schema.columns.as_slice(), &words.column) else {
        return Err(no_column(alloc, &words.column));
    };
    let range = Range::new(
        alloc,
        schema,
        &words.column,
        words.low.as_ref(),
        words.high.as_ref(),
    )?;
    Ok(Some(PlanRange { place, range }))
}
