//! Metadata with one more snapshot, and with other keys. The expected texts follow from the format by hand.
ghost use Rattle.std.specs.Prelude.{◌≡◌, Some, codes, map, pos, true};
ghost use Rattle.icb_schema.specs.Names.{are_distinct};
ghost use Rattle.icb_meta.specs.Answers.{shown_of};
ghost use Rattle.icb_meta.specs.declared.records.KeyEntry.{KeyEntry};
ghost use Rattle.icb_meta.specs.declared.records.Snapshot.{Snapshot};
ghost use Rattle.icb_edits.specs.Snapshots.{IsNext};

use crate::new_tables::{entry, table, text};
use icb_edits::{new_table, with_keys, with_snapshot};
use icb_meta::{KeyEntries, KeyEntry, Snapshot, TableMeta};
use icb_schema::Octets;
use sqlite_items::Items;
use std::process::Abort;
use std::test::*;

/// The key of the snapshot's list.
fn list_key(rt: &(impl Abort + AllocGlobal)) -> KeyEntry
    ensures { result.id ≡ codes "key-2" }
{
    KeyEntry {
        id: text(rt, "key-2"),
        sealed: Octets::from_slice(rt.alloc(), &[255]).expect(rt, "room"),
        by: Some(text(rt, "key-1")),
        properties: Items::new(rt.alloc()),
    }
}

/// A first snapshot of three rows.
fn snapshot(rt: &(impl Abort + AllocGlobal)) -> Snapshot
    ensures id { result.id ≡ pos 1 }
    ensures sequence { result.sequence ≡ pos 1 }
    ensures added { result.added ≡ Some (pos 3) }
{
    Snapshot {
        id: 1,
        parent: None,
        sequence: 1,
        ms: 7,
        list: text(rt, "file:///table/l"),
        operation: text(rt, "append"),
        schema: Some(0),
        first_row: Some(0),
        added: Some(3),
        key: Some(text(rt, "key-2")),
    }
}

/// The text of the metadata with it.
const WITH_SNAPSHOT: &[u8] =
    b"{\"current-schema-id\":0,\"current-snapshot-id\":1,\"default-sort-order-id\":0,\"default-spec-id\":0,\"encryption-keys\":[{\"encrypted-by-id\":\"m1\",\"encrypted-key-metadata\":\"AQID\",\"key-id\":\"key-1\"},{\"encrypted-by-id\":\"key-1\",\"encrypted-key-metadata\":\"/w==\",\"key-id\":\"key-2\"}],\"format-version\":3,\"last-column-id\":1,\"last-partition-id\":999,\"last-sequence-number\":1,\"last-updated-ms\":7,\"location\":\"file:///table\",\"metadata-log\":[{\"metadata-file\":\"file:///table/v1\",\"timestamp-ms\":5}],\"next-row-id\":3,\"partition-specs\":[{\"fields\":[],\"spec-id\":0}],\"properties\":{\"b\":\"\\\"x\\\"\",\"encryption.key-id\":\"m1\"},\"refs\":{\"main\":{\"snapshot-id\":1,\"type\":\"branch\"}},\"schemas\":[{\"fields\":[{\"id\":1,\"name\":\"n\",\"required\":true,\"type\":\"long\"}],\"schema-id\":0,\"type\":\"struct\"}],\"snapshot-log\":[{\"snapshot-id\":1,\"timestamp-ms\":7}],\"snapshots\":[{\"added-rows\":3,\"first-row-id\":0,\"key-id\":\"key-2\",\"manifest-list\":\"file:///table/l\",\"schema-id\":0,\"sequence-number\":1,\"snapshot-id\":1,\"summary\":{\"operation\":\"append\"},\"timestamp-ms\":7}],\"sort-orders\":[{\"fields\":[],\"order-id\":0}],\"table-uuid\":\"00000000-0000-4000-8000-00000000000a\"}";

/// The text with one other key, and another master key.
const WITH_KEYS: &[u8] =
    b"{\"current-schema-id\":0,\"current-snapshot-id\":1,\"default-sort-order-id\":0,\"default-spec-id\":0,\"encryption-keys\":[{\"encrypted-by-id\":\"key-1\",\"encrypted-key-metadata\":\"/w==\",\"key-id\":\"key-2\"}],\"format-version\":3,\"last-column-id\":1,\"last-partition-id\":999,\"last-sequence-number\":1,\"last-updated-ms\":9,\"location\":\"file:///table\",\"metadata-log\":[{\"metadata-file\":\"file:///table/v1\",\"timestamp-ms\":5},{\"metadata-file\":\"file:///table/v2\",\"timestamp-ms\":7}],\"next-row-id\":3,\"partition-specs\":[{\"fields\":[],\"spec-id\":0}],\"properties\":{\"b\":\"\\\"x\\\"\",\"encryption.key-id\":\"m2\"},\"refs\":{\"main\":{\"snapshot-id\":1,\"type\":\"branch\"}},\"schemas\":[{\"fields\":[{\"id\":1,\"name\":\"n\",\"required\":true,\"type\":\"long\"}],\"schema-id\":0,\"type\":\"struct\"}],\"snapshot-log\":[{\"snapshot-id\":1,\"timestamp-ms\":7}],\"snapshots\":[{\"added-rows\":3,\"first-row-id\":0,\"key-id\":\"key-2\",\"manifest-list\":\"file:///table/l\",\"schema-id\":0,\"sequence-number\":1,\"snapshot-id\":1,\"summary\":{\"operation\":\"append\"},\"timestamp-ms\":7}],\"sort-orders\":[{\"fields\":[],\"order-id\":0}],\"table-uuid\":\"00000000-0000-4000-8000-00000000000a\"}";

/// The metadata of the table before it.
fn begun(rt: &(impl Abort + AllocGlobal)) -> TableMeta
    ensures { (s : Snapshot) (e : KeyEntry) → s.id ≡ pos 1 → s.sequence ≡ pos 1
        → s.added ≡ Some (pos 3) → e.id ≡ codes "key-2" → IsNext (shown_of result) s e }
{
    let uuid = 0x0000_0000_0000_4000_8000_0000_0000_000a;
    new_table(rt.alloc(), &table(rt), uuid, entry(rt), 5).expect(rt, "room")
}

/// The metadata with it.
fn with_first(rt: &(impl Abort + AllocGlobal)) -> TableMeta {
    let meta = begun(rt);
    let path = text(rt, "file:///table/v1");
    let first = snapshot(rt);
    let key = list_key(rt);
    with_snapshot(rt.alloc(), &meta, first, key, &path, 7).expect(rt, "room")
}

/// The list of its key alone.
fn one_key(rt: &(impl Abort + AllocGlobal)) -> KeyEntries
    ensures { are_distinct (map (λ e. e.id) result) ≡ true }
{
    let mut entries = KeyEntries::new(rt.alloc());
    entries.push(list_key(rt)).expect(rt, "room");
    entries
}

#[test]
fn one_snapshot_and_then_other_keys(rt: HostRuntime) {
    let meta = with_first(&rt);
    let bytes = meta.to_bytes(rt.alloc()).expect(&rt, "room");
    assert!(rt; bytes.as_slice() == WITH_SNAPSHOT);
    let path = text(&rt, "file:///table/v2");
    let master = text(&rt, "m2");
    let meta = with_keys(rt.alloc(), &meta, one_key(&rt), &master, &path, 9).expect(&rt, "room");
    let bytes = meta.to_bytes(rt.alloc()).expect(&rt, "room");
    assert!(rt; bytes.as_slice() == WITH_KEYS);
    assert!(rt; meta.current() == Some(1) && meta.next_row_id() == 3);
}
