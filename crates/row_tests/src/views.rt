//! Records under schemas of other writers, read through views: schema words, the file's schema, the bytes of one record,
//! and its row line, or the refusal with the id of the column or the place. The bytes were made by a few lines of Python
//! from Apache Avro's section on the binary encoding.
use crate::helpers::{schema, text};
use icb_avro::{AvroCause, Cursor};
use icb_rows::{Projection, ProjectionFault, RowView};
use icb_schema::{AvroSchema, Octets};
use icb_types::{row_datum, row_end};
use std::process::Abort;
use std::rt::HostRuntime;

/// Schemas in the table's types, in another order, with unions turned round and with more fields.
const FILES: [(&str, &str, &[u8], &str); 14] = [
    (
        "n:long!,s:string,d:date",
        r#"{"type":"record","name":"t","fields":[{"name":"n","type":"long","field-id":1},{"name":"s","type":["null","string"],"field-id":2},{"name":"d","type":["null",{"type":"int","logicalType":"date"}],"field-id":3}]}"#,
        b"\x0a\x02\x02b\x02\xf0\xa8\x02",
        r#"[5,"b",19000]"#,
    ),
    (
        "n:long!,s:string,d:date",
        r#"{"type":"record","name":"t","fields":[{"name":"n","type":"long","field-id":1},{"name":"s","type":["null","string"],"field-id":2},{"name":"d","type":["null",{"type":"int","logicalType":"date"}],"field-id":3}]}"#,
        b"\x05\x00\x00",
        "[-3,null,null]",
    ),
    (
        "n:long!,s:string,d:date",
        r#"{"type":"record","name":"t","fields":[{"name":"d","type":["null",{"type":"int","logicalType":"date"}],"field-id":3},{"name":"s","type":["null","string"],"field-id":2},{"name":"n","type":"long","field-id":1}]}"#,
        b"\x02\x01\x02\x02b\x0a",
        r#"[5,"b",-1]"#,
    ),
    (
        "n:long!,s:string,d:date",
        r#"{"type":"record","name":"t","fields":[{"name":"n","type":"long","field-id":1},{"name":"s","type":["string","null"],"field-id":2},{"name":"d","type":["int","null"],"field-id":3}]}"#,
        b"\x0a\x00\x04\xc3\xa9\x02",
        r#"[5,"é",null]"#,
    ),
    (
        "n:long!,s:string,d:date",
        r#"{"type":"record","name":"t","fields":[{"name":"n","type":["null","long"],"field-id":1},{"name":"s","type":["null","string"],"field-id":2},{"name":"d","type":["null",{"type":"int","logicalType":"date"}],"field-id":3}]}"#,
        b"\x02\xfe\xff\xff\xff\xff\xff\xff\xff\xff\x01\x00\x00",
        "[9223372036854775807,null,null]",
    ),
    (
        "n:long!,s:string,d:date",
        r#"{"type":"record","name":"t","fields":[{"name":"n","type":["long","null"],"field-id":1},{"name":"s","type":["null","string"],"field-id":2},{"name":"d","type":["null",{"type":"int","logicalType":"date"}],"field-id":3}]}"#,
        b"\x00\xff\xff\xff\xff\xff\xff\xff\xff\xff\x01\x00\x00",
        "[-9223372036854775808,null,null]",
    ),
    (
        "n:long!,s:string,d:date",
        r#"{"type":"record","name":"t","fields":[{"name":"s","type":["null","string"],"field-id":2},{"name":"n","type":["null","long"],"field-id":1},{"name":"d","type":["null",{"type":"int","logicalType":"date"}],"field-id":3}]}"#,
        b"\x02\x04ab\x00\x00",
        "Index 4",
    ),
    (
        "n:long!,s:string,d:date",
        r#"{"type":"record","name":"t","fields":[{"name":"n","type":["long","null"],"field-id":1},{"name":"s","type":["null","string"],"field-id":2},{"name":"d","type":["null",{"type":"int","logicalType":"date"}],"field-id":3}]}"#,
        b"\x02\x02\x04ab\x00",
        "Index 0",
    ),
    (
        "n:long!,s:string,d:date",
        r#"{"type":"record","name":"t","fields":[{"name":"n","type":"long","field-id":1},{"name":"s","type":"string","field-id":2},{"name":"d","type":"int","field-id":3}]}"#,
        b"\x0a\x00\x0e",
        r#"[5,"",7]"#,
    ),
    (
        "n:long!,s:string,d:date",
        r#"{"type":"record","name":"t","fields":[{"name":"d","type":["null",{"type":"int","logicalType":"date"}],"field-id":3},{"name":"n","type":"long","field-id":1}]}"#,
        b"\x02\x02\x0a",
        "[5,null,1]",
    ),
    (
        "n:long!,s:string,d:date",
        r#"{"type":"record","name":"t","fields":[{"name":"s","type":["null","string"],"field-id":2},{"name":"d","type":["null",{"type":"int","logicalType":"date"}],"field-id":3}]}"#,
        b"\x00\x02\x02",
        "Field 1",
    ),
    (
        "n:long!,s:string,d:date",
        r#"{"type":"record","name":"t","fields":[{"name":"a","type":{"type":"array","items":"int"},"field-id":10},{"name":"m","type":{"type":"map","values":["null","bytes"]},"field-id":11},{"name":"n","type":"long","field-id":1},{"name":"r","type":{"type":"record","name":"q.inner","fields":[{"name":"n","type":"long","field-id":1},{"name":"s","type":"string","field-id":2},{"name":"x","type":["null","double"]}]},"field-id":12},{"name":"e","type":{"type":"enum","name":"e","symbols":["A","B"]},"field-id":13},{"name":"s","type":["null","string"],"field-id":2},{"name":"g","type":{"type":"fixed","name":"g","size":3}},{"name":"h","type":"double"},{"name":"b","type":"boolean"},{"name":"d","type":["null",{"type":"int","logicalType":"date"}],"field-id":3},{"name":"z","type":"float"}]}"#,
        b"\x05\x08\x02\x04\xd8\x04\x00\x04\x02k\x02\x06xyz\x02l\x00\x00\x0a\x0c\x04no\x02\x00\x00\x00\x00\x00\x00\x04@\x02\x02\x02b\x01\x02\x03\x00\x00\x00\x00\x00\x00\xf8?\x01\x02\xf0\xa8\x02\x00\x00\x00?",
        r#"[5,"b",19000]"#,
    ),
    (
        "n:long!,s:string,d:date",
        r#"{"type":"record","name":"t","fields":[{"name":"r","type":{"type":"record","name":"q.inner","fields":[{"name":"n","type":"long","field-id":1},{"name":"s","type":"string","field-id":2},{"name":"x","type":["null","double"]}]},"field-id":12},{"name":"n","type":"long","field-id":1},{"name":"d","type":["null",{"type":"int","logicalType":"date"}],"field-id":3},{"name":"again","type":"q.inner","field-id":14}]}"#,
        b"\x0c\x04no\x00\x0a\x00\x0e\x02x\x02\x00\x00\x00\x00\x00\x00\x00\x00",
        "[5,null,null]",
    ),
    (
        "n:long!,s:string,d:date",
        r#"{"type":"record","name":"t","fields":[{"name":"s1","type":["null","string"],"field-id":2},{"name":"n","type":"long","field-id":1},{"name":"s2","type":"long","field-id":2},{"name":"n2","type":["null","long"],"field-id":1},{"name":"d","type":["null",{"type":"int","logicalType":"date"}],"field-id":3}]}"#,
        b"\x02\x0afirst\x0a\x10\x00\x00",
        r#"[5,"first",null]"#,
    ),
];

/// Equal and missing ids, other types, and all kinds.
const OTHERS: [(&str, &str, &[u8], &str); 14] = [
    (
        "n:long!,s:string,d:date",
        r#"{"type":"record","name":"t","fields":[{"name":"n","type":"long"},{"name":"s","type":["null","string"],"field-id":2},{"name":"d","type":["null",{"type":"int","logicalType":"date"}],"field-id":3}]}"#,
        b"\x0a\x00\x00",
        "Field 1",
    ),
    (
        "n:long!,s:string,d:date",
        r#"{"type":"record","name":"t","fields":[{"name":"n","type":"long","field-id":1},{"name":"s","type":["null","string"]},{"name":"d","type":["null",{"type":"int","logicalType":"date"}],"field-id":3}]}"#,
        b"\x0a\x02\x02b\x02\x02",
        "[5,null,1]",
    ),
    (
        "n:long!,s:string,d:date",
        r#"{"type":"record","name":"t","fields":[{"name":"n","type":"int","field-id":1},{"name":"s","type":["null","string"],"field-id":2},{"name":"d","type":["null",{"type":"int","logicalType":"date"}],"field-id":3}]}"#,
        b"\x0a\x00\x00",
        "Field 1",
    ),
    (
        "n:long!,s:string,d:date",
        r#"{"type":"record","name":"t","fields":[{"name":"n","type":"long","field-id":1},{"name":"s","type":["null","bytes"],"field-id":2},{"name":"d","type":["null",{"type":"int","logicalType":"date"}],"field-id":3}]}"#,
        b"\x0a\x00\x00",
        "Field 2",
    ),
    (
        "n:long!,s:string,d:date",
        r#"{"type":"record","name":"t","fields":[{"name":"n","type":"long","field-id":1},{"name":"s","type":["null","string"],"field-id":2},{"name":"d","type":"long","field-id":3}]}"#,
        b"\x0a\x00\x08",
        "Field 3",
    ),
    (
        "n:long!,s:string,d:date",
        r#"{"type":"record","name":"t","fields":[{"name":"n","type":"long","field-id":1},{"name":"s","type":["null","string","long"],"field-id":2},{"name":"d","type":["null",{"type":"int","logicalType":"date"}],"field-id":3}]}"#,
        b"\x0a\x00\x00",
        "Field 2",
    ),
    (
        "n:long!,s:string,d:date",
        r#"{"type":"record","name":"t","fields":[{"name":"n","type":"long","field-id":1},{"name":"s","type":["string"],"field-id":2},{"name":"d","type":["null",{"type":"int","logicalType":"date"}],"field-id":3}]}"#,
        b"\x0a\x00\x02b\x00",
        "Field 2",
    ),
    (
        "n:long!,s:string,d:date",
        r#"{"type":"record","name":"t","fields":[{"name":"n","type":"long","field-id":1},{"name":"s","type":"null","field-id":2},{"name":"d","type":["null",{"type":"int","logicalType":"date"}],"field-id":3}]}"#,
        b"\x0a\x00",
        "Field 2",
    ),
    (
        "n:long!,s:string,d:date",
        r#"{"type":"record","name":"t","fields":[{"name":"n","type":"long","field-id":1},{"name":"s","type":{"type":"enum","name":"e","symbols":["A"]},"field-id":2},{"name":"d","type":["null",{"type":"int","logicalType":"date"}],"field-id":3}]}"#,
        b"\x0a\x00\x00",
        "Field 2",
    ),
    (
        "n:long!,s:string,d:date",
        r#"{"type":"record","name":"t","fields":[{"name":"n","type":"string","field-id":1},{"name":"s","type":"long","field-id":2},{"name":"d","type":["null",{"type":"int","logicalType":"date"}],"field-id":3}]}"#,
        b"\x025\x0a\x00",
        "Field 1",
    ),
    (
        "n:long!,s:string,d:date",
        r#"{"type":"record","name":"t","fields":[{"name":"n","type":{"type":"long","logicalType":"timestamp-micros"},"field-id":1},{"name":"s","type":["null",{"type":"string","logicalType":"uuid"}],"field-id":2},{"name":"d","type":["null","int"],"field-id":3}]}"#,
        b"\x02\x02\x02u\x02\x04",
        r#"[1,"u",2]"#,
    ),
    (
        "u:uuid!,f:fixed[3],b:binary,t:time!,a:timestamp,z:timestamptz,i:int,o:boolean",
        r#"{"type":"record","name":"t","fields":[{"name":"o","type":"boolean","field-id":8},{"name":"u","type":{"type":"fixed","name":"u","size":16},"field-id":1},{"name":"f","type":[{"type":"fixed","name":"f","size":3},"null"],"field-id":2},{"name":"b","type":["null","bytes"],"field-id":3},{"name":"t","type":"long","field-id":4},{"name":"a","type":"long","field-id":5},{"name":"z","type":["long","null"],"field-id":6},{"name":"i","type":"int","field-id":7}]}"#,
        b"\x01\xf7\x9c>\x09g|K\xbd\xa4y?4\x9c\xb7\x85\xe7\x00\x00\xffz\x02\x04\xde\xad\x80\x80\xbb\xdd\x83\x05\x01\x02\xff\xff\xff\xff\x0f",
        r#"["f79c3e09-677c-4bbd-a479-3f349cb785e7","00ff7a","dead",86400000000,-1,null,-2147483648,true]"#,
    ),
    (
        "f:fixed[3]",
        r#"{"type":"record","name":"t","fields":[{"name":"f","type":{"type":"fixed","name":"f","size":4},"field-id":1}]}"#,
        b"abcd",
        "Field 1",
    ),
    (
        "u:uuid",
        r#"{"type":"record","name":"t","fields":[{"name":"u","type":"string","field-id":1}]}"#,
        b"\x02x",
        "Field 1",
    ),
];

/// What a view of all columns of schema words shows of a record.
fn shown(rt: &(impl Abort + AllocGlobal), words: &str, file: &str, bytes: &[u8]) -> String {
    let columns = schema(rt, words);
    let file = AvroSchema::read(rt.alloc(), file.as_bytes()).expect(rt, "a schema");
    let positions: [u32; 8] = [0, 1, 2, 3, 4, 5, 6, 7];
    let count = columns.columns.as_slice().len().min(8);
    match Projection::new(rt.alloc(), &file, &columns, &positions[..count]) {
        Ok(projection) => line_of(rt, &projection, count as u32, bytes),
        Err(ProjectionFault::Field { id }) => {
            format!(in rt.alloc(); "Field {id}").expect(rt, "room")
        }
        Err(ProjectionFault::NoMemory) => text(rt, "NoMemory"),
    }
}

/// The line of a view's data, where it takes all bytes; else the place of the refusal.
fn line_of(
    rt: &(impl Abort + AllocGlobal),
    projection: &Projection,
    count: u32,
    bytes: &[u8],
) -> String {
    let mut cursor = Cursor::new(bytes);
    match RowView::take(&mut cursor, projection) {
        Ok(view) => {
            assert!(rt; cursor.place() == bytes.len());
            let mut line = Octets::new(rt.alloc());
            for index in 0..count {
                let datum = view.datum(projection, index);
                row_datum(rt.alloc(), &mut line, &datum).expect(rt, "room");
            }
            row_end(&mut line).expect(rt, "room");
            let all = std::str::from_utf8(line.as_slice()).expect(rt, "a text");
            text(rt, all.strip_suffix('\n').expect(rt, "a line feed"))
        }
        Err(fault) => {
            assert!(rt; cursor.place() == 0);
            assert!(rt; fault.cause == AvroCause::Index);
            let place = fault.place;
            format!(in rt.alloc(); "Index {place}").expect(rt, "room")
        }
    }
}

#[test]
fn reads_records_of_other_schemas(rt: HostRuntime) {
    for (words, file, bytes, expected) in &FILES {
        let found = shown(&rt, words, file, bytes);
        assert!(rt; found.as_str() == *expected, "{file}");
    }
}

#[test]
fn knows_fields_by_their_ids_and_types(rt: HostRuntime) {
    for (words, file, bytes, expected) in &OTHERS {
        let found = shown(&rt, words, file, bytes);
        assert!(rt; found.as_str() == *expected, "{file}");
    }
}

/// Two records, one behind the other, and the bytes of a third that ends too early.
#[test]
fn takes_one_record_after_another(rt: HostRuntime) {
    let columns = schema(&rt, "n:long!,s:string");
    let file = columns.avro_schema(rt.alloc()).expect(&rt, "room");
    let projection = Projection::new(rt.alloc(), &file, &columns, &[1]).expect(&rt, "a projection");
    let bytes: &[u8] = b"\x0a\x02\x02b\x06\x00\x06";
    let mut cursor = Cursor::new(bytes);
    let first = RowView::take(&mut cursor, &projection).expect(&rt, "a record");
    assert!(rt; matches!(first.datum(&projection, 0), icb_types::DatumRef::Text("b")));
    assert!(rt; cursor.place() == 4);
    let second = RowView::take(&mut cursor, &projection).expect(&rt, "a record");
    assert!(rt; matches!(second.datum(&projection, 0), icb_types::DatumRef::Null));
    assert!(rt; cursor.place() == 6);
    let third = RowView::take(&mut cursor, &projection);
    assert!(rt; matches!(third, Err(fault) if fault.place == 7 && fault.cause == AvroCause::End));
    assert!(rt; cursor.place() == 6);
}
