//! What a query chooses of the rows that come, one after another.
ghost use Rattle.std.specs.Prelude.{◌≡◌, ◌-◌, OnErr, option_map};
ghost use Rattle.icb_datafile.specs.Plans.{KeepsWords, PassesRow, StaysPut, TestsRange, asks_none};

use crate::line::print_line;
use icb_rows::{Projection, Range, RowView};
use icb_schema::{NoMemory, Octets};
use sqlite_items::Items;
use std::alloc::Global;

/// A range of the data of the column at this position.
#[derive(Debug, Drop)]
pub struct PlanRange {
    /// The column's position in the table's schema.
    pub place: u32,
    /// The range.
    pub range: Range,
}

/// What a query still chooses of a table's rows, and the text of those that were chosen last.
#[derive(Debug, Drop)]
pub struct Plan {
    /// The positions in the table's schema of the columns that are shown, in order.
    pub columns: Items<u32>,
    /// The range that the rows are in.
    pub range: Option<PlanRange>,
    /// How many of the rows in it are still left out.
    pub skip: u64,
    /// How many are still shown behind those at most.
    pub most: Option<u64>,
    /// How many were chosen so far.
    pub shown: u64,
    /// The line of the row that was chosen last.
    pub line: Octets,
    /// The lines of the rows that were chosen since the text was emptied.
    pub text: Octets,
}

impl Plan {
    /// Whether no further row is chosen.
    pub fn is_done(&self) -> bool
        ensures { result ≡ asks_none self.now.most }
    {
        match self.most {
            Some(most) => most == 0,
            None => false,
        }
    }

    /// Passes a row, and puts its line behind the text where it is chosen. After the refusal the plan
    /// chooses as before.
    pub(crate) fn pass_row(
        &mut self,
        alloc: Global,
        projection: &Projection,
        view: &RowView<'_>,
    ) -> Result<(), NoMemory>
        ensures passes { PassesRow result self.old self.new projection.now view.now }
        ensures words { KeepsWords self.old self.new }
        ensures stays { OnErr result (StaysPut self.old self.new) }
    {
        if !is_within(&self.range, projection, view) {
            return Ok(());
        }
        if self.skip > 0 {
            self.skip -= 1;
            return Ok(());
        }
        if self.is_done() {
            return Ok(());
        }
        print_line(
            alloc,
            projection,
            view,
            self.columns.as_slice(),
            &mut self.line,
        )?;
        self.text.extend_from_slice(self.line.as_slice())?;
        self.shown = self.shown.saturating_add(1);
        self.most = one_less(self.most);
        Ok(())
    }
}

/// Whether a row is in a range, where one is asked.
fn is_within(range: &Option<PlanRange>, projection: &Projection, view: &RowView<'_>) -> bool
    ensures { TestsRange result range.now projection.now view.now }
{
    match range {
        Some(asked) => asked.range.holds(&view.datum(projection, asked.place)),
        None => true,
    }
}

/// One row less, where a number is said.
fn one_less(most: Option<u64>) -> Option<u64>
    ensures { result ≡ option_map (λ n. n - 1) most }
{
    match most {
        Some(n) => Some(n.saturating_sub(1)),
        None => None,
    }
}
