//! A table's metadata: the JSON value, and the record that it shows.
ghost use Rattle.std.specs.Prelude.{◌≡◌, ◌≤◌, Ok};
ghost use Rattle.serde_json.specs.Data.{depth};
ghost use Rattle.serde_json.specs.View.{view};
ghost use Rattle.icb_meta.specs.Shown.{fields_of};

use crate::fault::{MetaFault, Refusal};
use crate::fields::Fields;
use crate::ids::{next_key_id, resolved};
use crate::lookup::{entry_named, snapshot_named, text_named};
use crate::reading::{fields_in, json_in};
use crate::records::{KeyEntry, Snapshot};
use icb_base::{NoMemory, ObjPath};
use icb_schema::{Octets, Text};
use icb_types::TableSchema;
use serde_json::{Map, Value};
use std::alloc::Global;

/// A table's metadata. All members and elements of its text are kept, also those that aren't known.
#[derive(Drop)]
pub struct TableMeta {
    json: Value,
    fields: Fields,
    ghost shown: { fields_of (view json) ≡ Ok fields },
    ghost shallow: { depth (view json) ≤ 127 },
}

impl TableMeta {
    ghost use Rattle.std.specs.Prelude.{◌≡◌, IfOk, codes, option_map};
    ghost use Rattle.icb_meta.specs.Answers.{IsNextKeyId, ReadsJson, ReadsMeta, Shows, json_of, members_of, shown_of};
    ghost use Rattle.icb_meta.specs.Forms.{entry_named, snapshot_named, text_named};
    ghost use Rattle.icb_meta.specs.Ids.{resolved};
    ghost use Rattle.icb_meta.specs.Shown.{meta_of};
    ghost use Rattle.icb_types.specs.Columns.{AreColumns};
    ghost use Rattle.serde_json.specs.View.{members_view};
    ghost use Rattle.serde_json.specs.Written.{compact_text};

    /// The metadata that a text shows, or the first field in the format's order that isn't there in its
    /// form.
    pub fn read(alloc: Global, bytes: &[u8]) -> Result<TableMeta, MetaFault>
        ensures { ReadsMeta result (meta_of bytes.now) }
    {
        match TableMeta::read_text(alloc, bytes) {
            Ok(meta) => Ok(meta),
            Err(Refusal::NoMemory) => Err(MetaFault::NoMemory),
            Err(Refusal::Field(name)) => match Text::from_str(alloc, name) {
                Ok(field) => Err(MetaFault::BadMeta { field }),
                Err(_) => Err(MetaFault::NoMemory),
            },
        }
    }

    /// The metadata that a JSON value shows, or its first such field.
    pub fn from_json(alloc: Global, json: Value) -> Result<TableMeta, MetaFault>
        requires { depth (view json) ≤ 127 }
        ensures { ReadsJson result (view json) }
    {
        match fields_in(alloc, &json) {
            Ok(fields) => Ok(TableMeta { json, fields }),
            Err(Refusal::NoMemory) => Err(MetaFault::NoMemory),
            Err(Refusal::Field(name)) => match Text::from_str(alloc, name) {
                Ok(field) => Err(MetaFault::BadMeta { field }),
                Err(_) => Err(MetaFault::NoMemory),
            },
        }
    }

    /// The text of the metadata: compact JSON with all its members, in the order of their names' bytes. It
    /// reads as the metadata.
    pub fn to_bytes(&self, alloc: Global) -> Result<Octets, NoMemory>
        ensures text { IfOk result (λ bytes. bytes ≡ compact_text (json_of self.now)) }
        ensures reads_back { IfOk result (λ bytes. meta_of bytes
            ≡ Ok (json_of self.now, shown_of self.now)) }
    {
        let bytes = self.json.to_vec(alloc)?;
        Ok(Octets::from_vec(bytes))
    }

    /// Its JSON value.
    pub fn json(&self) -> &Value
        ensures { view result.now ≡ json_of self.now }
    {
        &self.json
    }

    /// A copy of the members of its JSON object.
    pub fn members(&self, alloc: Global) -> Result<Map<String, Value>, NoMemory>
        ensures { IfOk result (λ members. members_view members.entries ≡ members_of self.now) }
    {
        match self.json.clone()? {
            Value::Object(members) => Ok(members),
            _ => Ok(Map::new(alloc)),
        }
    }

    /// When it was last changed, in milliseconds since 1970-01-01 in UTC.
    pub fn last_updated(&self) -> i64
        ensures { result ≡ (shown_of self.now).heading.updated }
    {
        self.fields.heading.updated
    }

    /// The object path behind the location and `/`, where there is one.
    pub fn resolve(&self, alloc: Global, full: &Text) -> Result<Option<ObjPath>, NoMemory>
        ensures { IfOk result (λ path. path
            ≡ resolved (shown_of self.now).heading.location full.now) }
    {
        resolved(alloc, self.location().as_slice(), full.as_slice())
    }

    /// `key-N` with the least N from 1 up that is neither a key's id, nor that of one that sealed another,
    /// nor the master key's.
    pub fn next_key_id(&self, alloc: Global) -> Result<Text, NoMemory>
        ensures { IfOk result (λ id. IsNextKeyId (shown_of self.now).state id) }
    {
        next_key_id(alloc, self.entries(), self.master())
    }

    /// The metadata that a text shows, or its first refused field.
    #[tactic(auto, unfolding(crate::specs::Shown::meta_of))]
    fn read_text(alloc: Global, bytes: &[u8]) -> Result<TableMeta, Refusal>
        ensures { Shows (λ meta. (json_of meta, shown_of meta)) result (meta_of bytes.now) }
    {
        let json = json_in(alloc, bytes)?;
        let fields = fields_in(alloc, &json)?;
        Ok(TableMeta { json, fields })
    }

    /// Its identifier, as the number that its 16 bytes are, high byte first.
    pub fn uuid(&self) -> u128
        ensures { result ≡ (shown_of self.now).heading.uuid }
    {
        self.fields.heading.uuid
    }

    /// Where it is.
    pub fn location(&self) -> &Text
        ensures { result.now ≡ (shown_of self.now).heading.location }
    {
        &self.fields.heading.location
    }

    /// The greatest sequence number.
    pub fn last_sequence(&self) -> i64
        ensures { result ≡ (shown_of self.now).heading.last_sequence }
    {
        self.fields.heading.last_sequence
    }

    /// The id of the next row.
    pub fn next_row_id(&self) -> i64
        ensures { result ≡ (shown_of self.now).state.next_row }
    {
        self.fields.state.next_row
    }

    /// The current schema.
    pub fn schema(&self) -> &TableSchema
        ensures shown { result.now ≡ (shown_of self.now).layout.schema }
        ensures columns { AreColumns result.now.columns }
    {
        &self.fields.layout.schema
    }

    /// The default partition spec's id.
    pub fn default_spec(&self) -> i32
        ensures { result ≡ (shown_of self.now).layout.spec }
    {
        self.fields.layout.spec
    }

    /// Whether the default partition spec has fields.
    pub fn partitioned(&self) -> bool
        ensures { result ≡ (shown_of self.now).layout.partitioned }
    {
        self.fields.layout.partitioned
    }

    /// Whether the default sort order has fields.
    pub fn sorted(&self) -> bool
        ensures { result ≡ (shown_of self.now).layout.sorted }
    {
        self.fields.layout.sorted
    }

    /// The snapshots, in order.
    pub fn snapshots(&self) -> &[Snapshot]
        ensures { result.now ≡ (shown_of self.now).state.snapshots }
    {
        self.fields.state.snapshots.as_slice()
    }

    /// The snapshot of an id.
    pub fn snapshot(&self, id: i64) -> Option<&Snapshot>
        ensures { option_map (λ s. s.now) result
            ≡ snapshot_named id (shown_of self.now).state.snapshots }
    {
        snapshot_named(self.snapshots(), id)
    }

    /// The current snapshot's id.
    pub fn current(&self) -> Option<i64>
        ensures { result ≡ (shown_of self.now).state.current }
    {
        self.fields.state.current
    }

    /// The sealed keys, in order.
    pub fn entries(&self) -> &[KeyEntry]
        ensures { result.now ≡ (shown_of self.now).state.entries }
    {
        self.fields.state.entries.as_slice()
    }

    /// The sealed key of an id.
    pub fn entry(&self, id: &Text) -> Option<&KeyEntry>
        ensures { option_map (λ e. e.now) result
            ≡ entry_named id.now (shown_of self.now).state.entries }
    {
        entry_named(self.entries(), id.as_slice())
    }

    /// The id of the master key, the property `encryption.key-id`.
    pub fn master(&self) -> Option<&Text>
        ensures { option_map (λ text. text.now) result
            ≡ text_named (codes "encryption.key-id") (shown_of self.now).state.properties }
    {
        self.property("encryption.key-id")
    }

    /// The text of a property.
    pub fn property(&self, name: &str) -> Option<&Text>
        ensures { option_map (λ text. text.now) result
            ≡ text_named name.now (shown_of self.now).state.properties }
    {
        text_named(self.fields.state.properties.as_slice(), name.as_bytes())
    }
}
