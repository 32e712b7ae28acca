//! The counts and bounds of rows (Apache Iceberg Table Spec, "Manifests").
ghost use Rattle.std.specs.Prelude.{◌≡◌, ◌≤◌, length, IfOk, OnOk, ◌++◌, map, option_and_then, option_map};
ghost use Rattle.std.specs.List.{list_all};
ghost use Rattle.icb_types.specs.Single.{single_of};
ghost use Rattle.icb_rows.specs.Order.{above, below};
ghost use Rattle.icb_rows.specs.Bounds.{bounds_of, column_bounds, column_data, count_nulls, datum_at, entry_of, first_by, greatest, is_short, least, present, then_bounds};

use crate::order::{bytes_of, compare, is_null};
use icb_schema::{NoMemory, Octets};
use icb_types::{Datum, Rows, TableSchema, to_single};
use sqlite_items::Items;
use std::alloc::Global;

/// The longest single value of a column with bounds, in bytes.
const MAX_BOUND: usize = 256;

/// The counts and bounds of a file's columns, each with its column's id.
#[derive(Debug, Drop)]
pub struct Bounds {
    /// How many values each column has, nulls among them.
    pub values: Items<(i32, i64)>,
    /// How many nulls each column has.
    pub nulls: Items<(i32, i64)>,
    /// The single value of the least datum of each column that has bounds.
    pub lower: Items<(i32, Octets)>,
    /// The single value of the greatest one.
    pub upper: Items<(i32, Octets)>,
}

/// The counts and bounds of the columns of rows. A column has no bounds where all of its data are
/// null, or one is longer than 256 bytes.
pub fn bounds_of(alloc: Global, schema: &TableSchema, rows: &Rows) -> Result<Bounds, NoMemory>
    ensures { IfOk result (λ bounds. bounds ≡ bounds_of schema.now.columns rows.now) }
{
    bounds_in(alloc, schema, rows.as_slice())
}

/// The same of rows that stand one behind the other.
pub fn bounds_in(
    alloc: Global,
    schema: &TableSchema,
    rows: &[Vec<Datum>],
) -> Result<Bounds, NoMemory>
    ensures { IfOk result (λ bounds. bounds
        ≡ bounds_of schema.now.columns (map (λ row. row.items) rows.now)) }
{
    let mut bounds = Bounds {
        values: Items::new(alloc),
        nulls: Items::new(alloc),
        lower: Items::new(alloc),
        upper: Items::new(alloc),
    };
    for (at, column) in schema.columns.as_slice().iter().enumerate() {
        add_column(alloc, &mut bounds, column.id, at, rows)?;
    }
    Ok(bounds)
}

/// Adds the counts and bounds of the column at this position.
fn add_column(
    alloc: Global,
    bounds: &mut Bounds,
    id: i32,
    at: usize,
    rows: &[Vec<Datum>],
) -> Result<(), NoMemory>
    ensures { OnOk result (bounds.new ≡ then_bounds bounds.old
        (column_bounds id (column_data at (map (λ row. row.items) rows.now)))) }
{
    bounds.values.push((id, rows.len() as i64))?;
    bounds.nulls.push((id, count_nulls(at, rows) as i64))?;
    if are_short(at, rows) {
        push_bound(alloc, &mut bounds.lower, id, least(at, rows))?;
        push_bound(alloc, &mut bounds.upper, id, greatest(at, rows))?;
    }
    Ok(())
}

/// Adds the single value of a datum, where one is.
fn push_bound(
    alloc: Global,
    list: &mut Items<(i32, Octets)>,
    id: i32,
    found: Option<&Datum>,
) -> Result<(), NoMemory>
    ensures { OnOk result (list.new
        ≡ list.old
        ++ entry_of id (option_and_then single_of (option_map (λ d. d.now) found.entry))) }
{
    match found {
        Some(datum) if !is_null(&datum.borrowed()) => {
            list.push((id, to_single(alloc, datum)?))?;
            Ok(())
        }
        _ => Ok(()),
    }
}

/// How many data of the column are null.
fn count_nulls(at: usize, rows: &[Vec<Datum>]) -> usize
    ensures few { result ≤ length rows.now }
    ensures count { result ≡ count_nulls (column_data at (map (λ row. row.items) rows.now)) }
{
    let mut nulls = 0;
    for row in rows {
        if present(at, row.as_slice()).is_none() {
            nulls += 1;
        }
    }
    nulls
}

/// Whether no datum of the column is longer than 256 bytes.
fn are_short(at: usize, rows: &[Vec<Datum>]) -> bool
    ensures { result ≡ list_all is_short (column_data at (map (λ row. row.items) rows.now)) }
{
    for row in rows {
        if !is_short(at, row.as_slice()) {
            return false;
        }
    }
    true
}

/// Whether the datum of a row has at most 256 bytes.
fn is_short(at: usize, row: &[Datum]) -> bool
    ensures { result ≡ is_short (datum_at at row.now) }
{
    match present(at, row) {
        Some(datum) => bytes_of(&datum.borrowed()).len() <= MAX_BOUND,
        None => true,
    }
}

/// The least datum of the column that isn't null.
fn least(at: usize, rows: &[Vec<Datum>]) -> Option<&Datum>
    ensures { option_map (λ d. d.now) result
        ≡ least (column_data at (map (λ row. row.items) rows.now)) }
{
    let mut least = None;
    for row in rows {
        least = lesser(least, present(at, row.as_slice()));
    }
    least
}

/// The greatest datum of the column that isn't null.
fn greatest(at: usize, rows: &[Vec<Datum>]) -> Option<&Datum>
    ensures { option_map (λ d. d.now) result
        ≡ greatest (column_data at (map (λ row. row.items) rows.now)) }
{
    let mut greatest = None;
    for row in rows {
        greatest = greater(greatest, present(at, row.as_slice()));
    }
    greatest
}

/// The lesser of two data, where they are there; the first of equal ones.
fn lesser<'a>(found: Option<&'a Datum>, next: Option<&'a Datum>) -> Option<&'a Datum>
    ensures { option_map (λ d. d.now) result
        ≡ first_by below (option_map (λ d. d.now) found.entry)
        (option_map (λ d. d.now) next.entry) }
{
    let Some(next) = next else {
        return found;
    };
    match found {
        Some(least) => if compare(&next.borrowed(), &least.borrowed()).is_lt() {
            Some(next)
        } else {
            Some(least)
        },
        None => Some(next),
    }
}

/// The greater of two data, where they are there; the first of equal ones.
fn greater<'a>(found: Option<&'a Datum>, next: Option<&'a Datum>) -> Option<&'a Datum>
    ensures { option_map (λ d. d.now) result
        ≡ first_by above (option_map (λ d. d.now) found.entry)
        (option_map (λ d. d.now) next.entry) }
{
    let Some(next) = next else {
        return found;
    };
    match found {
        Some(greatest) => if compare(&next.borrowed(), &greatest.borrowed()).is_gt() {
            Some(next)
        } else {
            Some(greatest)
        },
        None => Some(next),
    }
}

/// The datum of a row at a position, where it isn't null.
fn present(at: usize, row: &[Datum]) -> Option<&Datum>
    ensures { option_map (λ d. d.now) result ≡ present (datum_at at row.now) }
{
    match row.get(at) {
        Some(datum) if !is_null(&datum.borrowed()) => Some(datum),
        _ => None,
    }
}
