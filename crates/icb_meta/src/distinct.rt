//! Which elements have ids and names that no other has.
ghost use Rattle.std.specs.Prelude.{◌≡◌, IfOk, List, map, ℕ, ℤ};
ghost use Rattle.icb_schema.specs.Names.{are_distinct};
ghost use Rattle.icb_types.specs.Columns.{are_distinct_ids};

use crate::orders::Order;
use crate::records::{KeyEntry, Snapshot};
use icb_base::NoMemory;
use icb_types::{Column, TableSchema};
use std::alloc::Global;
use std::collections::BTreeSet;

/// What has a number for its id.
pub(crate) trait Numbered {
    ghost number: { Self → ℤ };

    /// The id.
    fn number(&self) -> i64
        ensures { result ≡ number self.now };
}

/// What has a text for its name.
pub(crate) trait Named {
    ghost name: { Self → List ℕ };

    /// The name.
    fn name(&self) -> &str
        ensures { result.now ≡ name self.now };
}

impl Numbered for Column {
    ghost number = { λ c. c.id };

    fn number(&self) -> i64 {
        i64::from(self.id)
    }
}

impl Numbered for TableSchema {
    ghost number = { λ s. s.id };

    fn number(&self) -> i64 {
        i64::from(self.id)
    }
}

impl Numbered for Order {
    ghost number = { λ o. o.id };

    fn number(&self) -> i64 {
        i64::from(self.id)
    }
}

impl Numbered for Snapshot {
    ghost number = { λ s. s.id };

    fn number(&self) -> i64 {
        self.id
    }
}

impl Named for Column {
    ghost name = { λ c. c.name };

    fn name(&self) -> &str {
        self.name.as_str()
    }
}

impl Named for KeyEntry {
    ghost name = { λ e. e.id };

    fn name(&self) -> &str {
        self.id.as_str()
    }
}

/// Whether no two ids are equal. Each is looked up among those before it, which are held in order.
pub(crate) fn have_distinct_ids<T: Numbered>(alloc: Global, items: &[T]) -> Result<bool, NoMemory>
    ensures { IfOk result (λ distinct. distinct
        ≡ are_distinct_ids (map T.Numbered.number items.now)) }
{
    let mut before = BTreeSet::new(alloc);
    for item in items {
        if !before.insert(item.number())? {
            return Ok(false);
        }
    }
    Ok(true)
}

/// Whether no two names are equal. Each is looked up among those before it, which are held in order.
pub(crate) fn have_distinct_names<T: Named>(alloc: Global, items: &[T]) -> Result<bool, NoMemory>
    ensures { IfOk result (λ distinct. distinct ≡ are_distinct (map T.Named.name items.now)) }
{
    let mut before = BTreeSet::new(alloc);
    for item in items {
        if !before.insert(item.name())? {
            return Ok(false);
        }
    }
    Ok(true)
}
