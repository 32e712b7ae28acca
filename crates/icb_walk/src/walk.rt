//! A walk over the live data files below a manifest list. It has a list and a manifest open, of each of
//! which it holds one block.

ghost use Rattle.std.specs.Prelude.{◌≡◌, Err, IfErr, IfSome, None};
ghost use Rattle.icb_meta.specs.Answers.{shown_of};
ghost use Rattle.icb_table.specs.Snapshots.{list_of};
ghost use Rattle.icb_walk.specs.Answers.{Answers, StepsOn};
ghost use Rattle.icb_walk.specs.Entries.{IsFileFault};
ghost use Rattle.icb_walk.specs.Start.{Starts};
ghost use Rattle.icb_walk.specs.Steps.{ReadsStore};
ghost use Rattle.icb_walk.specs.Walks.{FitsStore};

use crate::fault::TreeFault;
use crate::leaf::Leaf;
use crate::listing::Listing;
use crate::open_list::{Rows, open_list};
use crate::open_manifest::{Found, OpenManifest};
use crate::snapshot_list::list_of;
use icb_base::Store;
use icb_chain::Keyring;
use icb_meta::TableMeta;
use icb_schema::Text;
use std::alloc::Global;

/// A walk, which stands before a live data file or at the end.
#[derive(Drop)]
pub struct Walk {
    /// Where the table is.
    pub(crate) location: Text,
    /// The list.
    pub(crate) list: Listing,
    /// The rows of the list that weren't passed yet.
    pub(crate) rows: Rows,
    /// The manifest that is open, and its entries that weren't passed yet.
    pub(crate) manifest: Option<OpenManifest>,
}

impl Walk {
    /// A walk below the list of a snapshot. It has opened nothing.
    pub fn new(
        alloc: Global,
        meta: &TableMeta,
        ring: &Keyring,
        snapshot: i64,
    ) -> Result<Walk, TreeFault>
        ensures starts { Starts (shown_of meta.now).heading.location
            (list_of (shown_of meta.now) ring.now snapshot) result }
    {
        let list = list_of(alloc, meta, ring, snapshot)?;
        let location = meta.location().copy(alloc)?;
        Ok(Walk {
            location,
            list,
            rows: Rows::Before,
            manifest: None,
        })
    }

    /// The next live data file, or none behind the last one. After a refusal the walk stands before the
    /// file that is refused.
    pub fn next<S: Store>(
        &mut self,
        alloc: Global,
        store: &mut S,
    ) -> Result<Option<Leaf>, TreeFault>
        ensures answers { IfSome (S.held store.old) (λ files. FitsStore files self.old
            → Answers S.Store files self.old self.new store.old store.new result) }
        ensures fits { IfSome (S.held store.old) (λ files. FitsStore files self.old
            → FitsStore files self.new) }
        ensures same_list { (self.new.location ≡ self.old.location)
            × (self.new.list ≡ self.old.list) }
        ensures fault { IfErr result IsFileFault }
        ensures reads { ReadsStore S.Store (result ≡ Err TreeFault.Store) store.old store.new }
    {
        'steps: for _ in 0..u64::MAX {
            match self.step(alloc, store) {
                Ok(None) => {}
                Ok(Some(found)) => return Ok(found),
                Err(fault) => return Err(fault),
            }
        }
        Err(TreeFault::NoMemory)
    }

    /// Goes over one row of the list, one entry of the open manifest, or opens one of both; and says what is
    /// next where that is found.
    fn step<S: Store>(
        &mut self,
        alloc: Global,
        store: &mut S,
    ) -> Result<Option<Option<Leaf>>, TreeFault>
        ensures answers { IfSome (S.held store.old) (λ files. FitsStore files self.old
            → StepsOn S.Store files self.old self.new store.old store.new result) }
        ensures fits { IfSome (S.held store.old) (λ files. FitsStore files self.old
            → FitsStore files self.new) }
        ensures same_list { (self.new.location ≡ self.old.location)
            × (self.new.list ≡ self.old.list) }
        ensures fault { IfErr result IsFileFault }
        ensures reads { ReadsStore S.Store (result ≡ Err TreeFault.Store) store.old store.new }
    {
        if self.manifest.is_some() {
            self.in_manifest(alloc, store)
        } else {
            self.in_list(alloc, store)
        }
    }

    /// Goes on in the manifest that is open.
    fn in_manifest<S: Store>(
        &mut self,
        alloc: Global,
        store: &mut S,
    ) -> Result<Option<Option<Leaf>>, TreeFault>
        ensures answers { IfSome (S.held store.old) (λ files. FitsStore files self.old
            → StepsOn S.Store files self.old self.new store.old store.new result) }
        ensures fits { IfSome (S.held store.old) (λ files. FitsStore files self.old
            → FitsStore files self.new) }
        ensures same_list { (self.new.location ≡ self.old.location)
            × (self.new.list ≡ self.old.list) }
        ensures fault { IfErr result IsFileFault }
        ensures reads { ReadsStore S.Store (result ≡ Err TreeFault.Store) store.old store.new }
    {
        let Some(manifest) = &mut self.manifest else {
            return Ok(None);
        };
        match manifest.step(alloc, &self.location, store) {
            Ok(Found::More) => Ok(None),
            Ok(Found::End) => {
                self.manifest = None;
                Ok(None)
            }
            Ok(Found::File(leaf)) => Ok(Some(Some(leaf))),
            Err(fault) => Err(fault),
        }
    }

    /// Goes on in the list.
    fn in_list<S: Store>(
        &mut self,
        alloc: Global,
        store: &mut S,
    ) -> Result<Option<Option<Leaf>>, TreeFault>
        requires { self.old.manifest ≡ None }
        ensures answers { IfSome (S.held store.old) (λ files. FitsStore files self.old
            → StepsOn S.Store files self.old self.new store.old store.new result) }
        ensures fits { IfSome (S.held store.old) (λ files. FitsStore files self.old
            → FitsStore files self.new) }
        ensures same_list { (self.new.location ≡ self.old.location)
            × (self.new.list ≡ self.old.list) }
        ensures fault { IfErr result IsFileFault }
        ensures reads { ReadsStore S.Store (result ≡ Err TreeFault.Store) store.old store.new }
    {
        match &mut self.rows {
            Rows::Before => match open_list(alloc, &self.list, store) {
                Ok(list) => {
                    self.rows = Rows::Open(list);
                    Ok(None)
                }
                Err(fault) => Err(fault),
            },
            Rows::Open(list) => {
                if list.row.is_some() {
                    return match list.enter_row(alloc, &self.location, &self.list, store) {
                        Ok(manifest) => {
                            self.manifest = manifest;
                            Ok(None)
                        }
                        Err(fault) => Err(fault),
                    };
                }
                match list.read_row(alloc, &self.list, store) {
                    Ok(true) => Ok(None),
                    Ok(false) => {
                        self.rows = Rows::Behind;
                        Ok(None)
                    }
                    Err(fault) => Err(fault),
                }
            }
            Rows::Behind => Ok(Some(None)),
        }
    }
}
