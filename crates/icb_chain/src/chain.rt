//! A chain of keys: a table's keys, opened from the master down, of which the last used are kept.
ghost use Rattle.std.specs.Prelude.{◌≡◌, ◌≤◌, [], MatchOption, IfOk, OnErr, OnOk, IsOk, IsSome};
ghost use Rattle.icb_chain.specs.ChainCalls.{Opens};
ghost use Rattle.icb_chain.specs.Kept.{IsSound, Keeps, kept_key, sealer_key, sealer_used, used};
ghost use Rattle.icb_chain.specs.Opening.{KeyTable, kek_of, keys_of, list_key_of};
ghost use Rattle.icb_chain.specs.Ring.{Ring};

use crate::fault::ChainFault;
use crate::keyring::Keyring;
use crate::opening::{Refusal, list_entry, open_kek, opened_metadata};
use icb_aes::AesKey;
use icb_base::{KeyMeta, NoMemory};
use icb_meta::TableMeta;
use icb_schema::Text;
use lru::LruCache;
use std::alloc::Global;
use std::marker::Model;
use std::num::NonZeroUsize;

/// Opened key-encryption keys by their ids, the most recently used first. What is kept never changes an
/// answer.
#[derive(Drop)]
pub struct Chain {
    keys: LruCache<String, AesKey>,
}

impl Model for Chain {
    ghost use Rattle.std.specs.Prelude.{string_bytes};
    ghost use Rattle.icb_chain.specs.ChainCalls.{kept_of};
    ghost use Rattle.icb_chain.specs.Kept.{Kept};
    ghost use Rattle.icb_chain.specs.KeptCode.{kept_code};

    ghost Value = { Kept };

    ghost coded = { kept_code };

    ghost view = { λ chain. kept_of string_bytes chain.keys };
}

impl Chain {
    /// A chain that keeps at most so many keys, of which there is at least one.
    pub fn new(alloc: Global, capacity: usize) -> Result<Chain, NoMemory>
        requires { 1 ≤ capacity }
        ensures { IfOk result (λ chain. chain ≡ record { pairs = []; capacity = capacity }) }
    {
        let Some(capacity) = NonZeroUsize::new(capacity) else {
            return Err(NoMemory);
        };
        let keys = LruCache::sparse(alloc, capacity)?;
        Ok(Chain { keys })
    }

    /// The kept key of an id, which becomes the most recently used.
    pub fn cached(&mut self, id: &Text) -> Option<AesKey>
        ensures key { result ≡ kept_key id.now self.old }
        ensures kept { MatchOption result (self.new ≡ self.old)
            (λ key. self.new ≡ used id.now key self.old) }
        ensures sound { (table : KeyTable) (ring : Ring) → IsSound table ring self.old
            → IsSound table ring self.new }
    {
        let _count = self.keys.len();
        if !self.keys.promote(id.as_str()) {
            return None;
        }
        self.keys.peek(id.as_str()).copied()
    }

    /// The key-encryption key of an id, or the first refusal of its look-ups, after which the kept keys are
    /// as before. Of a kept key no memory is wanted.
    pub fn kek(
        &mut self,
        alloc: Global,
        meta: &TableMeta,
        ring: &Keyring,
        id: &Text,
    ) -> Result<AesKey, ChainFault>
        requires { IsSound (keys_of meta.now) ring.now self.old }
        ensures opens { Opens result (kek_of (keys_of meta.now) ring.now id.now) }
        ensures kept { IfOk result (λ key. self.new ≡ used id.now key self.old) }
        ensures stays { OnErr result (self.new ≡ self.old) }
        ensures sound { IsSound (keys_of meta.now) ring.now self.new }
        ensures kept_is_ok { IsSome (kept_key id.now self.old) → IsOk result }
    {
        if let Some(key) = self.cached(id) {
            return Ok(key);
        }
        let key = match open_kek(alloc, meta, ring, id) {
            Ok(key) => key,
            Err(refusal) => return Err(refusal.fault(alloc)),
        };
        match self.keep(alloc, id, key) {
            Ok(()) => Ok(key),
            Err(NoMemory) => Err(ChainFault::NoMemory),
        }
    }

    /// The key metadata that the list entry of an id holds, or the first refusal of its look-ups. The key
    /// of the entry's sealer becomes the most recently used, also where the entry doesn't open under it;
    /// where there is no such key the kept keys are as before. Where memory is refused they are either.
    pub fn list_key(
        &mut self,
        alloc: Global,
        meta: &TableMeta,
        ring: &Keyring,
        entry: &Text,
    ) -> Result<KeyMeta, ChainFault>
        requires { IsSound (keys_of meta.now) ring.now self.old }
        ensures opens { Opens result (list_key_of (keys_of meta.now) ring.now entry.now) }
        ensures kept { Keeps result (sealer_used
            (sealer_key (keys_of meta.now) ring.now entry.now) self.old) self.old self.new }
        ensures sound { IsSound (keys_of meta.now) ring.now self.new }
    {
        let Some(sealed) = list_entry(meta, entry) else {
            return Err(Refusal::NoKey(entry).fault(alloc));
        };
        let Some(by) = &sealed.by else {
            return Err(Refusal::KeyRefused(entry).fault(alloc));
        };
        let key = match self.kek(alloc, meta, ring, by) {
            Ok(key) => key,
            Err(fault) => return Err(fault),
        };
        match opened_metadata(alloc, &key, sealed) {
            Ok(Some(opened)) => Ok(opened),
            Ok(None) => Err(Refusal::KeyRefused(entry).fault(alloc)),
            Err(NoMemory) => Err(ChainFault::NoMemory),
        }
    }

    /// Keeps a key as the most recently used one; where memory is refused the keys stay.
    fn keep(&mut self, alloc: Global, id: &Text, key: AesKey) -> Result<(), NoMemory>
        ensures kept { OnOk result (self.new ≡ used id.now key self.old) }
        ensures same { OnErr result (self.new ≡ self.old) }
    {
        let Ok(id) = String::from_str(alloc, id.as_str()) else {
            return Err(NoMemory);
        };
        let _count = self.keys.len();
        match self.keys.put(id, key) {
            Ok(_) => Ok(()),
            Err(_) => Err(NoMemory),
        }
    }
}
