//! A list of versions.
ghost use Rattle.std.specs.Prelude.{◌≡◌, [], ◌∷◌, ◌++◌, IfOk, OnErr, OnOk};

use icb_base::NoMemory;
use std::alloc::Global;
use std::marker::Model;

/// Versions of a table, seen as their list.
#[derive(Debug, Drop)]
pub struct Versions {
    items: Vec<u64>,
}

impl Model for Versions {
    ghost use Rattle.std.specs.Prelude.{List, ℕ};

    ghost Value = { List ℕ };

    ghost view = { λ versions. versions.items.items };
}

impl Versions {
    /// No versions. It takes no memory and keeps the allocator for when it grows.
    pub fn new(alloc: Global) -> Self
        ensures { result ≡ [] }
    {
        Versions {
            items: Vec::new(alloc),
        }
    }

    /// The versions.
    pub fn as_slice(&self) -> &[u64]
        ensures { result.now ≡ self.now }
    {
        self.items.as_slice()
    }

    /// Adds a version at the end; after the refusal the list is as before.
    pub fn push(&mut self, version: u64) -> Result<(), NoMemory>
        ensures ok { OnOk result (self.new ≡ self.old ++ version ∷ []) }
        ensures err { OnErr result (self.new ≡ self.old) }
    {
        self.items.push(version)?;
        Ok(())
    }

    /// A second list of the same versions.
    pub fn copy(&self, alloc: Global) -> Result<Self, NoMemory>
        ensures { IfOk result (λ copy. copy ≡ self.now) }
    {
        let items = self.items.as_slice().to_vec(alloc)?;
        Ok(Versions { items })
    }

    /// These versions and one behind them, in a list of their own.
    pub fn with(&self, alloc: Global, version: u64) -> Result<Self, NoMemory>
        ensures { IfOk result (λ more. more ≡ self.now ++ version ∷ []) }
    {
        let mut more = self.copy(alloc)?;
        more.push(version)?;
        Ok(more)
    }
}
