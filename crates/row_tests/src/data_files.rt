//! The bytes of data files. Expected bytes were made by a few lines of Python from Apache Avro's sections on container
//! files and on the binary encoding.
use crate::helpers::{rows_of, schema};
use icb_rows::write_data;
use std::rt::HostRuntime;

/// The marker of each file.
const MARKER: [u8; 16] = [0, 1, 2, 3, 4, 5, 6, 7, 8, 9, 10, 11, 12, 13, 14, 15];

/// Schema words, row lines, the size of blocks, and the file.
const FILES: [(&str, &str, u32, &[u8]); 5] = [
    (
        "n:long!,s:string",
        "[5,\"b\"]\n[3,null]",
        65536,
        b"Obj\x01\x04\x14avro.codec\x08null\x16avro.schema\xaa\x02{\"fields\":[{\"field-id\":1,\"name\":\"n\",\"type\":\"long\"},{\"default\":null,\"field-id\":2,\"name\":\"s\",\"type\":[\"null\",\"string\"]}],\"name\":\"table\",\"type\":\"record\"}\x00\x00\x01\x02\x03\x04\x05\x06\x07\x08\x09\x0a\x0b\x0c\x0d\x0e\x0f\x04\x0c\x0a\x02\x02b\x06\x00\x00\x01\x02\x03\x04\x05\x06\x07\x08\x09\x0a\x0b\x0c\x0d\x0e\x0f",
    ),
    (
        "n:long!,s:string",
        "",
        1,
        b"Obj\x01\x04\x14avro.codec\x08null\x16avro.schema\xaa\x02{\"fields\":[{\"field-id\":1,\"name\":\"n\",\"type\":\"long\"},{\"default\":null,\"field-id\":2,\"name\":\"s\",\"type\":[\"null\",\"string\"]}],\"name\":\"table\",\"type\":\"record\"}\x00\x00\x01\x02\x03\x04\x05\x06\x07\x08\x09\x0a\x0b\x0c\x0d\x0e\x0f",
    ),
    (
        "a:int",
        "[1]\n[null]\n[-1]\n[64]\n[2]\n[null]",
        3,
        b"Obj\x01\x04\x14avro.codec\x08null\x16avro.schema\xd4\x01{\"fields\":[{\"default\":null,\"field-id\":1,\"name\":\"a\",\"type\":[\"null\",\"int\"]}],\"name\":\"table\",\"type\":\"record\"}\x00\x00\x01\x02\x03\x04\x05\x06\x07\x08\x09\x0a\x0b\x0c\x0d\x0e\x0f\x04\x06\x02\x02\x00\x00\x01\x02\x03\x04\x05\x06\x07\x08\x09\x0a\x0b\x0c\x0d\x0e\x0f\x04\x0a\x02\x01\x02\x80\x01\x00\x01\x02\x03\x04\x05\x06\x07\x08\x09\x0a\x0b\x0c\x0d\x0e\x0f\x04\x06\x02\x04\x00\x00\x01\x02\x03\x04\x05\x06\x07\x08\x09\x0a\x0b\x0c\x0d\x0e\x0f",
    ),
    (
        "a:int",
        "[1]\n[2]",
        1,
        b"Obj\x01\x04\x14avro.codec\x08null\x16avro.schema\xd4\x01{\"fields\":[{\"default\":null,\"field-id\":1,\"name\":\"a\",\"type\":[\"null\",\"int\"]}],\"name\":\"table\",\"type\":\"record\"}\x00\x00\x01\x02\x03\x04\x05\x06\x07\x08\x09\x0a\x0b\x0c\x0d\x0e\x0f\x02\x04\x02\x02\x00\x01\x02\x03\x04\x05\x06\x07\x08\x09\x0a\x0b\x0c\x0d\x0e\x0f\x02\x04\x02\x04\x00\x01\x02\x03\x04\x05\x06\x07\x08\x09\x0a\x0b\x0c\x0d\x0e\x0f",
    ),
    (
        "u:uuid!,f:fixed[2],x:binary,b:boolean,d:date!,t:time,z:timestamptz",
        "[\"f79c3e09-677c-4bbd-a479-3f349cb785e7\",\"00ff\",\"dead\",true,-1,86399999999,-9223372036854775808]\n[\"00000000-0000-0000-0000-000000000001\",null,\"\",false,19000,null,9223372036854775807]",
        40,
        b"Obj\x01\x04\x14avro.codec\x08null\x16avro.schema\xc6\x0a{\"fields\":[{\"field-id\":1,\"name\":\"u\",\"type\":{\"logicalType\":\"uuid\",\"name\":\"uuid_fixed_1\",\"size\":16,\"type\":\"fixed\"}},{\"default\":null,\"field-id\":2,\"name\":\"f\",\"type\":[\"null\",{\"name\":\"fixed_2\",\"size\":2,\"type\":\"fixed\"}]},{\"default\":null,\"field-id\":3,\"name\":\"x\",\"type\":[\"null\",\"bytes\"]},{\"default\":null,\"field-id\":4,\"name\":\"b\",\"type\":[\"null\",\"boolean\"]},{\"field-id\":5,\"name\":\"d\",\"type\":{\"logicalType\":\"date\",\"type\":\"int\"}},{\"default\":null,\"field-id\":6,\"name\":\"t\",\"type\":[\"null\",{\"logicalType\":\"time-micros\",\"type\":\"long\"}]},{\"default\":null,\"field-id\":7,\"name\":\"z\",\"type\":[\"null\",{\"adjust-to-utc\":true,\"logicalType\":\"timestamp-micros\",\"type\":\"long\"}]}],\"name\":\"table\",\"type\":\"record\"}\x00\x00\x01\x02\x03\x04\x05\x06\x07\x08\x09\x0a\x0b\x0c\x0d\x0e\x0f\x02X\xf7\x9c>\x09g|K\xbd\xa4y?4\x9c\xb7\x85\xe7\x02\x00\xff\x02\x04\xde\xad\x02\x01\x01\x02\xfe\xff\xba\xdd\x83\x05\x02\xff\xff\xff\xff\xff\xff\xff\xff\xff\x01\x00\x01\x02\x03\x04\x05\x06\x07\x08\x09\x0a\x0b\x0c\x0d\x0e\x0f\x02H\x00\x00\x00\x00\x00\x00\x00\x00\x00\x00\x00\x00\x00\x00\x00\x01\x00\x02\x00\x02\x00\xf0\xa8\x02\x00\x02\xfe\xff\xff\xff\xff\xff\xff\xff\xff\x01\x00\x01\x02\x03\x04\x05\x06\x07\x08\x09\x0a\x0b\x0c\x0d\x0e\x0f",
    ),
];

#[test]
fn writes_data_files(rt: HostRuntime) {
    for (words, lines, block, expected) in &FILES {
        let columns = schema(&rt, words);
        let rows = rows_of(&rt, &columns, lines);
        let file = write_data(rt.alloc(), &columns, &rows, *block, &MARKER).expect(&rt, "room");
        assert!(rt; file.as_slice() == *expected, "{words} {block}");
    }
}
