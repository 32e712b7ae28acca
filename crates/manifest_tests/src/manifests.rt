//! Entries of manifests that other writers may have made, and what is written of entries.
use crate::made::{Change, add, block_of, bytes, field, file_of, file_of_one, record_text, text};
use icb_avro::Value;
use icb_base::SliceReader;
use icb_manifest::{DataFile, Entry, Manifest, ManifestFault, write_manifest};
use icb_schema::{AvroSchema, Octets};
use icb_types::{ColType, Column, TableSchema};
use sqlite_items::{Boxed, Items};
use std::process::Abort;
use std::test::*;

/// The fields of an entry before its file, of a writer that lets none be null.
const NUMBERS: [(i32, &str); 4] = [
    (0, "\"int\""),
    (1, "\"long\""),
    (3, "[\"long\",\"null\"]"),
    (4, "\"long\""),
];

/// The fields of a file that are no maps.
const PLAIN: [(i32, &str); 7] = [
    (134, "\"int\""),
    (100, "\"string\""),
    (101, "\"string\""),
    (103, "\"long\""),
    (104, "\"long\""),
    (131, "\"bytes\""),
    (142, "\"long\""),
];

/// The maps of a file: their ids, those of their keys and their values, and whether they map to bytes.
const MAPS: [(i32, i32, i32, bool); 4] = [
    (109, 119, 120, false),
    (110, 121, 122, false),
    (125, 126, 127, true),
    (128, 129, 130, true),
];

/// All of them, and the file's own.
const IDS: [i32; 16] = [
    0, 1, 3, 4, 2, 134, 100, 101, 103, 104, 109, 110, 125, 128, 131, 142,
];

/// The value of the field of an id that is no map. The numbers tell the fields apart.
fn value(rt: &(impl Abort + AllocGlobal), id: i32, status: i32) -> Value {
    match id {
        0 => Value::Int(status),
        3 => Value::Union(0, Boxed::new(rt.alloc(), Value::Long(3)).expect(rt, "room")),
        100 => Value::Text(text(rt, "a path")),
        101 => Value::Text(text(rt, "orc")),
        131 => Value::Bytes(bytes(rt, &[1, 31])),
        134 => Value::Int(134),
        _ => Value::Long(i64::from(id)),
    }
}

/// The type of a map of another writer: values before keys, under other names, without the attribute.
fn map_type(rt: &(impl Abort + AllocGlobal), key: i32, value: i32, to_bytes: bool) -> String {
    let name = format!(in rt.alloc(); "m{key}").expect(rt, "room");
    let kind = if to_bytes { "\"bytes\"" } else { "\"long\"" };
    let fields = [field(rt, value, kind), field(rt, key, "[\"null\",\"int\"]")];
    let mut text = String::from_str(rt.alloc(), "{\"type\":\"array\",\"items\":").expect(
        rt, "room",
    );
    let items = record_text(rt, name.as_str(), &fields);
    text.push_str(items.as_str()).expect(rt, "room");
    text.push_str("}").expect(rt, "room");
    text
}

/// A map of two equal keys.
fn map_value(rt: &(impl Abort + AllocGlobal), id: i32, to_bytes: bool) -> Value {
    let alloc = rt.alloc();
    let mut items = Items::new(alloc);
    for first in [1, 2] {
        let mut pair = Items::new(alloc);
        let value = if to_bytes {
            Value::Bytes(bytes(rt, &[first]))
        } else {
            Value::Long(i64::from(id) + i64::from(first))
        };
        pair.push(value).expect(rt, "room");
        let key = Boxed::new(alloc, Value::Int(8)).expect(rt, "room");
        pair.push(Value::Union(1, key)).expect(rt, "room");
        items.push(Value::Record(pair)).expect(rt, "room");
    }
    Value::Array(items)
}

/// A field that is changed, and how.
type Changed = (i32, Change);

/// What is done to the field of an id.
fn change_of(changed: Changed, id: i32) -> Option<Change> {
    if id == changed.0 {
        Some(changed.1)
    } else {
        None
    }
}

/// The type and the value of a file.
fn file_parts(rt: &(impl Abort + AllocGlobal), changed: Changed) -> (String, Value) {
    let alloc = rt.alloc();
    let mut fields = Vec::new(alloc);
    let mut values = Items::new(alloc);
    for (id, key, value, to_bytes) in MAPS {
        let kind = map_type(rt, key, value, to_bytes);
        let map = map_value(rt, id, to_bytes);
        add(
            rt,
            change_of(changed, id),
            id,
            kind.as_str(),
            map,
            &mut fields,
            &mut values,
        );
    }
    for (id, kind) in PLAIN {
        add(
            rt,
            change_of(changed, id),
            id,
            kind,
            value(rt, id, 0),
            &mut fields,
            &mut values,
        );
    }
    let kind = record_text(rt, "file", fields.as_slice());
    (kind, Value::Record(values))
}

/// The fields and the values of an entry of this status, in which the field of an id is changed.
fn entry_parts(
    rt: &(impl Abort + AllocGlobal),
    status: i32,
    changed: Changed,
) -> (Vec<String>, Items<Value>) {
    let alloc = rt.alloc();
    let mut fields = Vec::new(alloc);
    let mut values = Items::new(alloc);
    let (kind, file) = file_parts(rt, changed);
    add(
        rt,
        change_of(changed, 2),
        2,
        kind.as_str(),
        file,
        &mut fields,
        &mut values,
    );
    for (id, kind) in NUMBERS {
        add(
            rt,
            change_of(changed, id),
            id,
            kind,
            value(rt, id, status),
            &mut fields,
            &mut values,
        );
    }
    (fields, values)
}

/// A manifest of one such entry, and the entry's place.
fn manifest(rt: &(impl Abort + AllocGlobal), status: i32, changed: Changed) -> (Octets, u64) {
    let (fields, values) = entry_parts(rt, status, changed);
    file_of_one(rt, fields.as_slice(), values)
}

/// The first entry of a file, or the place and the id of the field that is refused.
fn first_entry(rt: &(impl Abort + AllocGlobal), file: &Octets) -> Result<Entry, (u64, i32)> {
    let alloc = rt.alloc();
    let mut reader = SliceReader::new(file.as_slice());
    let mut manifest = Manifest::open(alloc, &mut reader).expect(rt, "a manifest");
    match manifest.next(alloc, &mut reader) {
        Ok(Some(entry)) => Ok(entry),
        Err(ManifestFault::Field { place, id }) => Err((place, id)),
        _ => Err((0, -1)),
    }
}

#[test]
fn the_first_field_that_is_not_in_its_form_is_named(rt: HostRuntime) {
    let needed = [0, 2, 134, 100, 101, 103, 104];
    for id in IDS {
        let (file, place) = manifest(&rt, 0, (id, Change::OfAnotherType));
        assert!(rt; first_entry(&rt, &file).err() == Some((place, id)));
        let (file, place) = manifest(&rt, 0, (id, Change::LeftOut));
        let refused = first_entry(&rt, &file).err();
        if needed.contains(&id) {
            assert!(rt; refused == Some((place, id)));
        } else {
            assert!(rt; refused.is_none());
        }
    }
}

/// The type and the value of a file in which the map of an id is one of Avro, whose keys are texts.
fn file_with_avro_map(rt: &(impl Abort + AllocGlobal), id: i32) -> (String, Value) {
    let alloc = rt.alloc();
    let (_, file) = file_parts(rt, (id, Change::LeftOut));
    let mut entries = Items::new(alloc);
    let mut fields = Vec::new(alloc);
    for (other, key, value, to_bytes) in MAPS {
        if other != id {
            let kind = map_type(rt, key, value, to_bytes);
            fields
                .push(field(rt, other, kind.as_str()))
                .expect(rt, "room");
        } else if to_bytes {
            entries
                .push((text(rt, "1"), Value::Bytes(bytes(rt, &[1]))))
                .expect(rt, "room");
        } else {
            entries
                .push((text(rt, "1"), Value::Long(1)))
                .expect(rt, "room");
        }
    }
    for (other, kind) in PLAIN {
        fields.push(field(rt, other, kind)).expect(rt, "room");
    }
    let to_bytes = id == 125 || id == 128;
    let kind = if to_bytes { "bytes" } else { "long" };
    let kind = format!(in alloc; "{{\"type\":\"map\",\"values\":\"{kind}\"}}").expect(rt, "room");
    fields.push(field(rt, id, kind.as_str())).expect(rt, "room");
    let mut values = match file {
        Value::Record(values) => values,
        _ => Items::new(alloc),
    };
    values.push(Value::Map(entries)).expect(rt, "room");
    let kind = record_text(rt, "file", fields.as_slice());
    (kind, Value::Record(values))
}

#[test]
fn a_map_of_avro_is_no_map_of_columns(rt: HostRuntime) {
    let alloc = rt.alloc();
    for (id, _, _, _) in MAPS {
        let (kind, file) = file_with_avro_map(&rt, id);
        let mut fields = Vec::new(alloc);
        let mut values = Items::new(alloc);
        fields
            .push(field(&rt, 2, kind.as_str()))
            .expect(&rt, "room");
        values.push(file).expect(&rt, "room");
        for (number, kind) in NUMBERS {
            fields.push(field(&rt, number, kind)).expect(&rt, "room");
            values.push(value(&rt, number, 0)).expect(&rt, "room");
        }
        let (file, place) = file_of_one(&rt, fields.as_slice(), values);
        assert!(rt; first_entry(&rt, &file).err() == Some((place, id)));
    }
}

#[test]
fn a_status_is_0_1_or_2(rt: HostRuntime) {
    for (status, known) in [(0, true), (1, true), (2, true), (3, false), (-1, false)] {
        let (file, place) = manifest(&rt, status, (-1, Change::LeftOut));
        match first_entry(&rt, &file) {
            Ok(entry) => assert!(rt; known && entry.status == status),
            Err(refused) => assert!(rt; !known && refused == (place, 0)),
        }
    }
}

/// All that an entry of another writer says is as its numbers tell.
fn assert_given(rt: &impl Abort, entry: Entry) {
    assert!(rt; entry.status == 1 && entry.snapshot == Some(1) && entry.sequence == Some(3));
    assert!(rt; entry.file_sequence == Some(4));
    let file = entry.file;
    assert!(rt; file.content == 134 && file.path.as_str() == "a path");
    assert!(rt; file.format.as_str() == "orc" && file.records == 103 && file.size == 104);
    assert!(rt; file.values.as_slice() == [(8, 110), (8, 111)].as_slice());
    assert!(rt; file.nulls.as_slice() == [(8, 111), (8, 112)].as_slice());
    assert!(rt; file.lower.len() == 2 && file.upper.len() == 2);
    assert!(rt;
        file.key
            .is_some_and(|key| key.as_slice() == [1, 31].as_slice())
    );
    assert!(rt; file.first_row == Some(142));
}

#[test]
fn an_entry_of_another_writer(rt: HostRuntime) {
    let (file, _) = manifest(&rt, 1, (-1, Change::LeftOut));
    let entry = first_entry(&rt, &file).expect(&rt, "an entry");
    assert_given(&rt, entry);
}

#[test]
fn fields_that_are_not_known_stand_around_one(rt: HostRuntime) {
    for id in IDS {
        let (file, _) = manifest(&rt, 1, (id, Change::AmongOthers));
        let entry = first_entry(&rt, &file).expect(&rt, "an entry");
        assert_given(&rt, entry);
    }
}

#[test]
fn several_blocks_and_a_refused_entry(rt: HostRuntime) {
    let alloc = rt.alloc();
    let (fields, _) = entry_parts(&rt, 0, (-1, Change::LeftOut));
    let text = record_text(&rt, "any", fields.as_slice());
    let schema = AvroSchema::read(alloc, text.as_bytes()).expect(&rt, "a schema");
    let entry = |status| Value::Record(entry_parts(&rt, status, (-1, Change::LeftOut)).1);
    let none = block_of(&rt, &schema, &[]);
    let two = block_of(&rt, &schema, &[entry(0), entry(1)]);
    let more = block_of(&rt, &schema, &[]);
    let last = block_of(&rt, &schema, &[entry(2), entry(3), entry(0)]);
    let file = file_of(&rt, &schema, &[none, two, more, last]);
    let mut reader = SliceReader::new(file.as_slice());
    let mut manifest = Manifest::open(alloc, &mut reader).expect(&rt, "a manifest");
    assert!(rt; manifest.place() == 0);
    let mut places = [0; 3];
    for (place, status) in places.iter_mut().zip([0, 1, 2]) {
        let entry = manifest.next(alloc, &mut reader).expect(&rt, "an entry");
        assert!(rt; entry.is_some_and(|entry| entry.status == status));
        *place = manifest.place();
    }
    let [first, second, third] = places;
    assert!(rt; 0 < first && first < second && second < third);
    for _ in 0..2 {
        let refused = manifest.next(alloc, &mut reader).err();
        let at = third.saturating_add(second.saturating_sub(first));
        assert!(rt; matches!(refused, Some(ManifestFault::Field { place, id: 0 }) if place == at));
        assert!(rt; manifest.place() == third);
    }
}

#[test]
fn what_is_written_is_read(rt: HostRuntime) {
    let alloc = rt.alloc();
    let mut columns = Items::new(alloc);
    columns
        .push(Column {
            id: 1,
            name: text(&rt, "n"),
            kind: ColType::Fixed(16),
            required: true,
        })
        .expect(&rt, "room");
    let schema = TableSchema { id: 4, columns };
    let mut entries = Vec::new(alloc);
    for status in [0, 1, 2] {
        let mut lower = Items::new(alloc);
        lower.push((1, bytes(&rt, &[7; 16]))).expect(&rt, "room");
        let mut values = Items::new(alloc);
        values.push((1, 5)).expect(&rt, "room");
        let file = DataFile {
            content: status,
            path: text(&rt, "p"),
            format: text(&rt, "avro"),
            records: 5,
            size: 1 << 40,
            values,
            nulls: Items::new(alloc),
            lower,
            upper: Items::new(alloc),
            key: None,
            first_row: Some(9),
        };
        entries
            .push(Entry {
                status,
                snapshot: None,
                sequence: Some(-1),
                file_sequence: None,
                file,
            })
            .expect(&rt, "room");
    }
    let written = write_manifest(alloc, &schema, 2, entries.as_slice(), &[3; 16]);
    let written = written.expect(&rt, "room");
    let mut reader = SliceReader::new(written.as_slice());
    let mut manifest = Manifest::open(alloc, &mut reader).expect(&rt, "a manifest");
    for status in [0, 1, 2] {
        let read = manifest.next(alloc, &mut reader).expect(&rt, "an entry");
        let read = read.expect(&rt, "not the end");
        assert!(rt; read.status == status && read.snapshot.is_none());
        assert!(rt; read.sequence == Some(-1) && read.file_sequence.is_none());
        let file = read.file;
        assert!(rt; file.content == status && file.path.as_str() == "p");
        assert!(rt; file.records == 5 && file.size == 1 << 40 && file.first_row == Some(9));
        assert!(rt; file.values.as_slice() == [(1, 5)].as_slice() && file.nulls.is_empty());
        assert!(rt; file.lower.len() == 1 && file.upper.is_empty() && file.key.is_none());
    }
    let end = manifest.next(alloc, &mut reader).expect(&rt, "the end");
    assert!(rt; end.is_none());
}
