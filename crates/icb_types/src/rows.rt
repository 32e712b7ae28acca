//! Lists of rows.
ghost use Rattle.std.specs.Prelude.{◌≡◌, [], ◌∷◌, ◌++◌, map, IfOk, OnErr, OnOk};

use crate::datum::Datum;
use icb_schema::NoMemory;
use std::alloc::Global;
use std::marker::Model;

/// Rows, seen as the list of their lists of data.
#[derive(Debug, Drop)]
pub struct Rows {
    rows: Vec<Vec<Datum>>,
}

impl Model for Rows {
    ghost use Rattle.std.specs.Prelude.{List, map};
    ghost use Rattle.icb_types.specs.declared.datum.Datum.{Datum};

    ghost Value = { List (List Datum) };

    ghost view = { λ all. map (λ row. row.items) all.rows.items };
}

impl Rows {
    /// No rows. It takes no memory and keeps the allocator for when it grows.
    pub fn new(alloc: Global) -> Self
        ensures { result ≡ [] }
    {
        Rows {
            rows: Vec::new(alloc),
        }
    }

    /// The rows.
    pub fn as_slice(&self) -> &[Vec<Datum>]
        ensures { map (λ row. row.items) result.now ≡ self.now }
    {
        self.rows.as_slice()
    }

    /// Adds a row at the end; after the refusal the list is as before.
    pub fn push(&mut self, row: Vec<Datum>) -> Result<(), NoMemory>
        ensures ok { OnOk result (self.new ≡ self.old ++ row.items ∷ []) }
        ensures err { OnErr result (self.new ≡ self.old) }
    {
        self.rows.push(row)?;
        Ok(())
    }

    /// A second list of the same rows.
    pub fn copy(&self, alloc: Global) -> Result<Self, NoMemory>
        ensures { IfOk result (λ rows. rows ≡ self.now) }
    {
        let mut copies = Rows::new(alloc);
        for row in self.as_slice() {
            copies.push(copy_row(alloc, row)?)?;
        }
        Ok(copies)
    }
}

/// A second row of the same data.
fn copy_row(alloc: Global, row: &[Datum]) -> Result<Vec<Datum>, NoMemory>
    ensures { IfOk result (λ copy. copy.items ≡ row.now) }
{
    let mut copies = Vec::new(alloc);
    for datum in row {
        copies.push(datum.copy(alloc)?)?;
    }
    Ok(copies)
}
