//! The metadata of a new table. The expected text follows from the format by hand.
ghost use Rattle.std.specs.Prelude.{◌≡◌, codes};
ghost use Rattle.icb_edits.specs.Tables.{IsNewTable};

use icb_edits::new_table;
use icb_meta::{KeyEntry, NewTable};
use icb_schema::{Octets, Text};
use icb_types::TableSchema;
use sqlite_items::Items;
use std::process::Abort;
use std::test::*;

/// A text.
pub(crate) fn text(rt: &(impl Abort + AllocGlobal), text: &str) -> Text
    ensures { result ≡ text.now }
{
    Text::from_str(rt.alloc(), text).expect(rt, "room")
}

/// A key that the master key `m1` sealed, as three bytes.
pub(crate) fn entry(rt: &(impl Abort + AllocGlobal)) -> KeyEntry
    ensures { result.id ≡ codes "key-1" }
{
    KeyEntry {
        id: text(rt, "key-1"),
        sealed: Octets::from_slice(rt.alloc(), &[1, 2, 3]).expect(rt, "room"),
        by: Some(text(rt, "m1")),
        properties: Items::new(rt.alloc()),
    }
}

/// A table with the column `n` and two properties, not in the order of their names.
pub(crate) fn table(rt: &(impl Abort + AllocGlobal)) -> NewTable
    ensures { IsNewTable result }
{
    let schema = TableSchema::read_words(rt.alloc(), "n:long!").expect(rt, "schema words");
    let mut properties = Items::new(rt.alloc());
    properties
        .push((text(rt, "encryption.key-id"), text(rt, "m1")))
        .expect(rt, "room");
    properties
        .push((text(rt, "b"), text(rt, "\"x\"")))
        .expect(rt, "room");
    NewTable {
        schema,
        location: text(rt, "file:///table"),
        properties,
    }
}

/// The text of its metadata.
const TEXT: &[u8] =
    b"{\"current-schema-id\":0,\"default-sort-order-id\":0,\"default-spec-id\":0,\"encryption-keys\":[{\"encrypted-by-id\":\"m1\",\"encrypted-key-metadata\":\"AQID\",\"key-id\":\"key-1\"}],\"format-version\":3,\"last-column-id\":1,\"last-partition-id\":999,\"last-sequence-number\":0,\"last-updated-ms\":5,\"location\":\"file:///table\",\"metadata-log\":[],\"next-row-id\":0,\"partition-specs\":[{\"fields\":[],\"spec-id\":0}],\"properties\":{\"b\":\"\\\"x\\\"\",\"encryption.key-id\":\"m1\"},\"refs\":{},\"schemas\":[{\"fields\":[{\"id\":1,\"name\":\"n\",\"required\":true,\"type\":\"long\"}],\"schema-id\":0,\"type\":\"struct\"}],\"snapshot-log\":[],\"snapshots\":[],\"sort-orders\":[{\"fields\":[],\"order-id\":0}],\"table-uuid\":\"00000000-0000-4000-8000-00000000000a\"}";

#[test]
fn the_text_of_a_new_table(rt: HostRuntime) {
    let uuid = 0x0000_0000_0000_4000_8000_0000_0000_000a;
    let meta = new_table(rt.alloc(), &table(&rt), uuid, entry(&rt), 5).expect(&rt, "room");
    let bytes = meta.to_bytes(rt.alloc()).expect(&rt, "room");
    assert!(rt; bytes.as_slice() == TEXT);
    assert!(rt; meta.uuid() == uuid);
    assert!(rt;
        meta.master()
            .is_some_and(|id| id.as_slice() == b"m1".as_slice())
    );
    assert!(rt; meta.entries().len() == 1 && meta.snapshots().is_empty());
    assert!(rt; meta.current().is_none() && meta.last_updated() == 5);
}
