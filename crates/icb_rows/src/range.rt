//! Ranges of a column's data.
ghost use Rattle.std.specs.Prelude.{◌≡◌, IfOk, option_map};
ghost use Rattle.icb_types.specs.Data.{seen};
ghost use Rattle.icb_rows.specs.Ranges.{GivesRange, column_named, end_of, holds, is_above, is_below, is_single, is_uuid, may_hold, range_of};

use crate::fault::RangeFault;
use crate::order::{compare, is_null};
use icb_schema::Text;
use icb_types::{ColType, Column, Datum, DatumRef, TableSchema, from_single, read_datum};
use std::alloc::Global;

/// A range of a column's data, both ends included; an absent end is open.
#[derive(Debug, Drop)]
pub struct Range {
    kind: ColType,
    low: Option<Datum>,
    high: Option<Datum>,
}

impl Range {
    /// The range of the column of this name. An end is a JSON value as a row line has for that
    /// column, other than null.
    pub fn new(
        alloc: Global,
        schema: &TableSchema,
        column: &Text,
        low: Option<&Text>,
        high: Option<&Text>,
    ) -> Result<Range, RangeFault>
        ensures { GivesRange result (range_of schema.now.columns column.now
            (option_map (λ text. text.now) low.entry) (option_map (λ text. text.now) high.entry)) }
    {
        let Some(found) = column_named(schema.columns.as_slice(), column) else {
            return Err(RangeFault::NoColumn {
                name: column.copy(alloc)?,
            });
        };
        let kind = found.kind;
        let low = end_of(alloc, column, kind, low)?;
        let high = end_of(alloc, column, kind, high)?;
        Ok(Range { kind, low, high })
    }

    /// Whether a datum of the column is in the range. Null is in none.
    pub fn holds(&self, datum: &DatumRef) -> bool
        ensures { result ≡ holds self.now (seen datum.now) }
    {
        !is_null(datum) && !is_below(&self.low, datum) && !is_above(&self.high, datum)
    }

    /// Whether a file with these bounds may hold a datum of the range. Bounds of identifiers aren't
    /// looked at.
    pub fn may_hold(&self, lower: Option<&[u8]>, upper: Option<&[u8]>) -> bool
        ensures { result ≡ may_hold self.now
            (option_map (λ bytes. bytes.now) lower.entry)
            (option_map (λ bytes. bytes.now) upper.entry) }
    {
        self.kind == ColType::Uuid || !(self.ends_before(lower) || self.begins_behind(upper))
    }

    /// Whether a lower bound is above the high end.
    fn ends_before(&self, lower: Option<&[u8]>) -> bool
        ensures { result ≡ is_single self.now.kind (is_above self.now.high)
            (option_map (λ bytes. bytes.now) lower.entry) }
    {
        match lower {
            Some(bytes) => match from_single(&self.kind, bytes) {
                Some(datum) => is_above(&self.high, &datum),
                None => false,
            },
            None => false,
        }
    }

    /// Whether an upper bound is below the low end.
    fn begins_behind(&self, upper: Option<&[u8]>) -> bool
        ensures { result ≡ is_single self.now.kind (is_below self.now.low)
            (option_map (λ bytes. bytes.now) upper.entry) }
    {
        match upper {
            Some(bytes) => match from_single(&self.kind, bytes) {
                Some(datum) => is_below(&self.low, &datum),
                None => false,
            },
            None => false,
        }
    }
}

/// The first column of this name.
fn column_named<'a>(columns: &'a [Column], name: &Text) -> Option<&'a Column>
    ensures { option_map (λ column. column.now) result ≡ column_named name.now columns.now }
{
    for column in columns {
        if column.name.as_slice() == name.as_slice() {
            return Some(column);
        }
    }
    None
}

/// An end of a range of the column of this name.
fn end_of(
    alloc: Global,
    name: &Text,
    kind: ColType,
    text: Option<&Text>,
) -> Result<Option<Datum>, RangeFault>
    ensures { GivesRange result (end_of name.now kind (option_map (λ text. text.now) text.entry)) }
{
    let Some(text) = text else {
        return Ok(None);
    };
    match read_datum(alloc, kind, text.as_slice())? {
        Some(datum) => Ok(Some(datum)),
        None => Err(RangeFault::BadRange {
            name: name.copy(alloc)?,
        }),
    }
}

/// Whether a datum is below the low end.
fn is_below(low: &Option<Datum>, datum: &DatumRef) -> bool
    ensures { result ≡ is_below low.now (seen datum.now) }
{
    match low {
        Some(low) => compare(datum, &low.borrowed()).is_lt(),
        None => false,
    }
}

/// Whether a datum is above the high end.
fn is_above(high: &Option<Datum>, datum: &DatumRef) -> bool
    ensures { result ≡ is_above high.now (seen datum.now) }
{
    match high {
        Some(high) => compare(datum, &high.borrowed()).is_gt(),
        None => false,
    }
}
