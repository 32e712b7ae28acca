//! Schema words as tables: the Avro schema of their columns, or the refused position. Expected texts were made by
//! Python's `re` and `json` from the table of Avro types.
use crate::helpers::{schema, text};
use icb_types::{ColType, TableSchema, WordsFault, kind_of_word};
use std::process::Abort;
use std::rt::HostRuntime;

/// Schema words, and the Avro schema of their columns.
const SCHEMAS: [(&str, &str); 10] = [
    (
        "n:long!,s:string,d:date",
        r#"{"fields":[{"field-id":1,"name":"n","type":"long"},{"default":null,"field-id":2,"name":"s","type":["null","string"]},{"default":null,"field-id":3,"name":"d","type":["null",{"logicalType":"date","type":"int"}]}],"name":"table","type":"record"}"#,
    ),
    (
        "a:boolean!,b:int!,c:long!",
        r#"{"fields":[{"field-id":1,"name":"a","type":"boolean"},{"field-id":2,"name":"b","type":"int"},{"field-id":3,"name":"c","type":"long"}],"name":"table","type":"record"}"#,
    ),
    (
        "a:time,b:timestamp!,c:timestamptz!",
        r#"{"fields":[{"default":null,"field-id":1,"name":"a","type":["null",{"logicalType":"time-micros","type":"long"}]},{"field-id":2,"name":"b","type":{"adjust-to-utc":false,"logicalType":"timestamp-micros","type":"long"}},{"field-id":3,"name":"c","type":{"adjust-to-utc":true,"logicalType":"timestamp-micros","type":"long"}}],"name":"table","type":"record"}"#,
    ),
    (
        "u:uuid!,v:uuid",
        r#"{"fields":[{"field-id":1,"name":"u","type":{"logicalType":"uuid","name":"uuid_fixed_1","size":16,"type":"fixed"}},{"default":null,"field-id":2,"name":"v","type":["null",{"logicalType":"uuid","name":"uuid_fixed_2","size":16,"type":"fixed"}]}],"name":"table","type":"record"}"#,
    ),
    (
        "f:fixed[1]!,g:fixed[1048576]",
        r#"{"fields":[{"field-id":1,"name":"f","type":{"name":"fixed_1","size":1,"type":"fixed"}},{"default":null,"field-id":2,"name":"g","type":["null",{"name":"fixed_2","size":1048576,"type":"fixed"}]}],"name":"table","type":"record"}"#,
    ),
    (
        "x:binary!,_y1:binary",
        r#"{"fields":[{"field-id":1,"name":"x","type":"bytes"},{"default":null,"field-id":2,"name":"_y1","type":["null","bytes"]}],"name":"table","type":"record"}"#,
    ),
    (
        "i:long!,name:string,day:date!",
        r#"{"fields":[{"field-id":1,"name":"i","type":"long"},{"default":null,"field-id":2,"name":"name","type":["null","string"]},{"field-id":3,"name":"day","type":{"logicalType":"date","type":"int"}}],"name":"table","type":"record"}"#,
    ),
    (
        "a:int",
        r#"{"fields":[{"default":null,"field-id":1,"name":"a","type":["null","int"]}],"name":"table","type":"record"}"#,
    ),
    (
        "A:int!,a:int!",
        r#"{"fields":[{"field-id":1,"name":"A","type":"int"},{"field-id":2,"name":"a","type":"int"}],"name":"table","type":"record"}"#,
    ),
    (
        "xxxxxxxxxxxxxxxxxxxxxxxxxxxxxxxxxxxxxxxxxxxxxxxxxxxxxxxxxxxxxxxxxxxxxxxxxxxxxxxxxxxxxxxxxxxxxxxxxxxxxxxxxxxxxxxxxxxxxxxxxxxxxxxx:int!",
        r#"{"fields":[{"field-id":1,"name":"xxxxxxxxxxxxxxxxxxxxxxxxxxxxxxxxxxxxxxxxxxxxxxxxxxxxxxxxxxxxxxxxxxxxxxxxxxxxxxxxxxxxxxxxxxxxxxxxxxxxxxxxxxxxxxxxxxxxxxxxxxxxxxxx","type":"int"}],"name":"table","type":"record"}"#,
    ),
];

/// Refused schema words, and the position of the column.
const REFUSED: [(&str, u32); 35] = [
    ("", 0),
    (",", 0),
    ("n", 0),
    ("n:", 0),
    (":long", 0),
    ("n:long!,n:int", 1),
    ("n:Long", 0),
    ("n:long!!", 0),
    ("n:long !", 0),
    ("n: long", 0),
    (" n:long", 0),
    ("1a:int", 0),
    ("a-b:int", 0),
    ("é:int", 0),
    (
        "xxxxxxxxxxxxxxxxxxxxxxxxxxxxxxxxxxxxxxxxxxxxxxxxxxxxxxxxxxxxxxxxxxxxxxxxxxxxxxxxxxxxxxxxxxxxxxxxxxxxxxxxxxxxxxxxxxxxxxxxxxxxxxxxx:int",
        0,
    ),
    ("a:int,", 1),
    ("a:int,,b:int", 1),
    ("a:int,b:float", 1),
    ("a:fixed", 0),
    ("a:fixed[]", 0),
    ("a:fixed[0]", 0),
    ("a:fixed[016]", 0),
    ("a:fixed[+5]", 0),
    ("a:fixed[1048577]", 0),
    ("a:fixed[99999999999999999999]", 0),
    ("a:fixed[1]x", 0),
    ("a:fixed[1", 0),
    ("a:int:b", 0),
    ("a:int,b:int,a:long", 2),
    ("a:!", 0),
    ("a:fixed[-1]", 0),
    ("a:decimal", 0),
    ("a:string,b:fixed[x]", 1),
    ("!:int", 0),
    ("a:uuid[16]", 0),
];

#[test]
fn reads_words_and_gives_the_avro_schema(rt: HostRuntime) {
    for (words, expected) in &SCHEMAS {
        let avro = schema(&rt, words)
            .avro_schema(rt.alloc())
            .expect(&rt, "room");
        let printed = avro.print(rt.alloc()).expect(&rt, "room");
        assert!(rt; printed.as_str() == *expected, "{words}");
    }
}

#[test]
fn names_the_first_column_that_is_not_in_the_form(rt: HostRuntime) {
    for (words, position) in &REFUSED {
        let expected = WordsFault::BadColumn {
            position: *position,
        };
        let found = TableSchema::read_words(rt.alloc(), words).err();
        assert!(rt; found == Some(expected), "{words}");
    }
}

/// Words of so many columns.
fn many(rt: &(impl Abort + AllocGlobal), count: usize) -> String {
    let mut words = text(rt, "c0:int");
    for i in 1..count {
        let column = format!(in rt.alloc(); ",c{i}:fixed[{i}]!").expect(rt, "room");
        words.push_str(column.as_str()).expect(rt, "room");
    }
    words
}

#[test]
fn takes_a_thousand_columns(rt: HostRuntime) {
    let read = schema(&rt, many(&rt, 1000).as_str());
    assert!(rt; read.columns.len() == 1000);
    assert!(rt; read.id == 0);
    let [.., last] = read.columns.as_slice() else {
        assert!(rt; false, "no column");
        return;
    };
    assert!(rt; last.id == 1000);
    assert!(rt; last.required);
    assert!(rt; last.kind == ColType::Fixed(999));
    let avro = read.avro_schema(rt.alloc());
    assert!(rt; avro.is_ok());
    let refused = TableSchema::read_words(rt.alloc(), many(&rt, 1001).as_str()).err();
    assert!(rt; refused == Some(WordsFault::BadColumn { position: 1000 }));
}

#[test]
fn names_kinds(rt: HostRuntime) {
    assert!(rt; kind_of_word(b"timestamptz") == Some(ColType::TimestampTz));
    assert!(rt; kind_of_word(b"fixed[16]") == Some(ColType::Fixed(16)));
    assert!(rt; kind_of_word(b"decimal(9,2)") == None);
}
