//! Rows of manifest lists that other writers may have made, and reading them one by one.
use crate::made::{Change, add, block_of, field, file_of, file_of_one, record_text};
use icb_avro::Value;
use icb_base::SliceReader;
use icb_list::{List, ListFault, ListRow, write_list};
use icb_schema::{AvroSchema, Octets, Text};
use sqlite_items::{Boxed, Items};
use std::process::Abort;
use std::test::*;

/// The fields of a row in the order of the format's table, each with a type of another writer.
const FIELDS: [(i32, &str); 15] = [
    (500, "\"string\""),
    (501, "\"long\""),
    (502, "\"int\""),
    (517, "\"int\""),
    (515, "\"long\""),
    (516, "\"long\""),
    (503, "\"long\""),
    (504, "\"int\""),
    (505, "\"int\""),
    (506, "\"int\""),
    (512, "\"long\""),
    (513, "\"long\""),
    (514, "\"long\""),
    (519, "\"bytes\""),
    (520, "[\"long\",\"null\"]"),
];

/// The value of the field of an id. The numbers tell the fields apart.
fn value(rt: &(impl Abort + AllocGlobal), id: i32, content: i32) -> Value {
    let alloc = rt.alloc();
    match id {
        500 => Value::Text(Text::from_str(alloc, "a path").expect(rt, "room")),
        517 => Value::Int(content),
        502 | 504 | 505 | 506 => Value::Int(id),
        519 => Value::Bytes(Octets::from_slice(alloc, &[5, 19]).expect(rt, "room")),
        520 => Value::Union(0, Boxed::new(alloc, Value::Long(520)).expect(rt, "room")),
        _ => Value::Long(i64::from(id)),
    }
}

/// The first row of a file, or the place and the id of the field that is refused.
fn first_row(rt: &(impl Abort + AllocGlobal), file: &Octets) -> Result<ListRow, (u64, i32)> {
    let alloc = rt.alloc();
    let mut reader = SliceReader::new(file.as_slice());
    let mut list = List::open(alloc, &mut reader).expect(rt, "a list");
    match list.next(alloc, &mut reader) {
        Ok(Some(row)) => Ok(row),
        Err(ListFault::Field { place, id }) => Err((place, id)),
        _ => Err((0, -1)),
    }
}

/// A file of one row, in which the field of an id is changed.
fn changed(rt: &(impl Abort + AllocGlobal), changed: i32, change: Change) -> (Octets, u64) {
    let alloc = rt.alloc();
    let mut fields = Vec::new(alloc);
    let mut values = Items::new(alloc);
    for (id, kind) in FIELDS {
        let change = if id == changed { Some(change) } else { None };
        add(
            rt,
            change,
            id,
            kind,
            value(rt, id, 0),
            &mut fields,
            &mut values,
        );
    }
    file_of_one(rt, fields.as_slice(), values)
}

#[test]
fn the_first_field_that_is_not_in_its_form_is_named(rt: HostRuntime) {
    for (id, _) in FIELDS {
        let (file, place) = changed(&rt, id, Change::OfAnotherType);
        assert!(rt; first_row(&rt, &file).err() == Some((place, id)));
        let (file, place) = changed(&rt, id, Change::LeftOut);
        match first_row(&rt, &file) {
            Ok(row) => {
                assert!(rt; row.key.is_none() == (id == 519));
                assert!(rt; row.first_row.is_none() == (id == 520));
                assert!(rt; id == 519 || id == 520);
            }
            Err(refused) => assert!(rt; refused == (place, id) && id != 519 && id != 520),
        }
    }
}

#[test]
fn contents_are_data_and_deletes(rt: HostRuntime) {
    for (content, refused) in [(0, false), (1, false), (7, true), (-1, true)] {
        let alloc = rt.alloc();
        let mut fields = Vec::new(alloc);
        let mut values = Items::new(alloc);
        // From the last to the first.
        for (id, kind) in FIELDS.iter().rev() {
            fields.push(field(&rt, *id, kind)).expect(&rt, "room");
            values.push(value(&rt, *id, content)).expect(&rt, "room");
        }
        let (file, place) = file_of_one(&rt, fields.as_slice(), values);
        match first_row(&rt, &file) {
            Ok(row) => assert!(rt; row.content == content && !refused),
            Err(at) => assert!(rt; at == (place, 517) && refused),
        }
    }
}

#[test]
fn fields_that_are_not_known_stand_around_one(rt: HostRuntime) {
    for (id, _) in FIELDS {
        let (file, _) = changed(&rt, id, Change::AmongOthers);
        let row = first_row(&rt, &file).expect(&rt, "a row");
        assert!(rt; row.path.as_str() == "a path" && row.length == 501 && row.spec == 502);
        assert!(rt; row.content == 0 && row.sequence == 515 && row.min_sequence == 516);
        assert!(rt; row.snapshot == 503 && row.files == [504, 505, 506]);
        assert!(rt; row.rows == [512, 513, 514] && row.first_row == Some(520));
        assert!(rt;
            row.key
                .is_some_and(|key| key.as_slice() == [5, 19].as_slice())
        );
    }
}

#[test]
fn several_blocks_and_a_refused_row(rt: HostRuntime) {
    let alloc = rt.alloc();
    let schema = any_schema(&rt);
    let none = block_of(&rt, &schema, &[]);
    let two = block_of(&rt, &schema, &[any_row(&rt, 0), any_row(&rt, 1)]);
    let more = block_of(&rt, &schema, &[]);
    let last = block_of(
        &rt,
        &schema,
        &[any_row(&rt, 1), any_row(&rt, 7), any_row(&rt, 0)],
    );
    let end = block_of(&rt, &schema, &[]);
    let file = file_of(&rt, &schema, &[none, two, more, last, end]);
    let mut reader = SliceReader::new(file.as_slice());
    let mut list = List::open(alloc, &mut reader).expect(&rt, "a list");
    assert!(rt; list.place() == 0);
    let mut places = [0; 3];
    for (place, content) in places.iter_mut().zip([0, 1, 1]) {
        let row = list.next(alloc, &mut reader).expect(&rt, "a row");
        assert!(rt; row.is_some_and(|row| row.content == content));
        *place = list.place();
    }
    let [first, second, third] = places;
    assert!(rt; 0 < first && first < second && second < third);
    for _ in 0..2 {
        let refused = list.next(alloc, &mut reader).err();
        let at = third.saturating_add(second.saturating_sub(first));
        assert!(rt; matches!(refused, Some(ListFault::Field { place, id: 517 }) if place == at));
        assert!(rt; list.place() == third);
    }
}

/// The schema of the fields.
pub(crate) fn any_schema(rt: &(impl Abort + AllocGlobal)) -> AvroSchema {
    let mut fields = Vec::new(rt.alloc());
    for (id, kind) in FIELDS {
        fields.push(field(rt, id, kind)).expect(rt, "room");
    }
    let text = record_text(rt, "any", fields.as_slice());
    AvroSchema::read(rt.alloc(), text.as_bytes()).expect(rt, "a schema")
}

/// A row of this content.
pub(crate) fn any_row(rt: &(impl Abort + AllocGlobal), content: i32) -> Value {
    let mut values = Items::new(rt.alloc());
    for (id, _) in FIELDS {
        values.push(value(rt, id, content)).expect(rt, "room");
    }
    Value::Record(values)
}

/// A row whose numbers tell its fields apart, with this key metadata.
fn given(rt: &(impl Abort + AllocGlobal), content: i32, key: Option<Octets>) -> ListRow {
    ListRow {
        path: Text::from_str(rt.alloc(), "a path").expect(rt, "room"),
        length: 501,
        spec: 502,
        content,
        sequence: 515,
        min_sequence: 516,
        snapshot: -1,
        files: [504, 505, 506],
        rows: [512, 513, 1 << 40],
        key,
        first_row: None,
    }
}

#[test]
fn what_is_written_is_read(rt: HostRuntime) {
    let alloc = rt.alloc();
    let key = Octets::from_slice(alloc, &[5, 19]).expect(&rt, "room");
    let mut rows = Vec::new(alloc);
    rows.push(given(&rt, 0, Some(key))).expect(&rt, "room");
    rows.push(given(&rt, 1, None)).expect(&rt, "room");
    let written = write_list(alloc, rows.as_slice(), &[3; 16]).expect(&rt, "room");
    let mut reader = SliceReader::new(written.as_slice());
    let mut list = List::open(alloc, &mut reader).expect(&rt, "a list");
    for content in [0, 1] {
        let read = list.next(alloc, &mut reader).expect(&rt, "a row");
        let read = read.expect(&rt, "not the end");
        assert!(rt; read.path.as_str() == "a path" && read.content == content);
        assert!(rt; read.length == 501 && read.spec == 502 && read.snapshot == -1);
        assert!(rt; read.sequence == 515 && read.min_sequence == 516);
        assert!(rt; read.files == [504, 505, 506] && read.rows == [512, 513, 1 << 40]);
        assert!(rt; read.key.is_some() == (content == 0) && read.first_row.is_none());
    }
    let end = list.next(alloc, &mut reader).expect(&rt, "the end");
    assert!(rt; end.is_none());
}
