//! Which texts are table metadata: each field absent, null, of another type and out of its range, numbers
//! that aren't whole, members of one name, and members that aren't known. The fields that are named follow
//! from the table in docs/FORMATS.md, by hand.
use crate::texts::{Member, text_with};
use icb_meta::{MetaFault, TableMeta};
use std::process::Abort;

/// A member and values with which its own field is named: those of an element name the array.
const REFUSED: &str = r#"table format-version ~ null 2 4 "3" true [3] 3,"format-version":2
table table-uuid ~ null 1 "" "00010203-0405-4607-8809-0a0b0c0d0e0" "00010203-0405-4607-8809-0a0b0c0d0e0g"
table location ~ null 1 "" "/" "a/"
table last-sequence-number ~ null -1 "0" 9223372036854775808
table last-updated-ms ~ null "0" 9223372036854775808 []
table last-column-id ~ null "1" 2147483648 -2147483649
table schemas ~ null {} 1 [1] [null] [@schema,@schema]
table current-schema-id ~ null "5" 1 4294967301
table partition-specs ~ null {} [1] [@spec,@spec]
table default-spec-id ~ null "4" 0 4294967300
table last-partition-id ~ null "999" 9223372036854775808
table sort-orders ~ null {} [{}] [@order,@order]
table default-sort-order-id ~ null "3" 0
table properties null [] 1 {"a":1} {"a":null} {"a":"b","c":[]}
table snapshots null {} 1 [1] [null] [@snapshot,@snapshot]
table current-snapshot-id "1" 0 2 true 9223372036854775808
table next-row-id ~ null -1 "0" 9223372036854775808
table encryption-keys null {} [1] [null] [@entry,@entry]
schema schema-id ~ null "5" 2147483648
schema fields ~ null [] {} [1] [@column,@column]
column id ~ null 0 -1 "1" 2147483648
column name ~ null 1
column required ~ null 1 "true"
column type ~ null 1 "int8" "LONG" "fixed[0]" "fixed[016]" "fixed[1048577]" {"type":"list"}
column initial-default 0 "" false
column write-default 0 [] {}
spec spec-id ~ null "4" -2147483649
spec fields ~ null {} 1
order order-id ~ null "3" 2147483648
order fields ~ null {} ""
snapshot snapshot-id ~ null "1" 9223372036854775808
snapshot sequence-number ~ null "2"
snapshot timestamp-ms ~ null "7"
snapshot manifest-list ~ null 1 []
snapshot summary ~ null {} 1 {"operation":1} {"operation":null}
snapshot parent-snapshot-id null "1" 9223372036854775808
snapshot schema-id null "5" 2147483648
snapshot first-row-id null "0"
snapshot added-rows null "0"
snapshot key-id null 1
entry key-id ~ null 1
entry encrypted-key-metadata ~ null 1 "A" "AA" "AA=" "AB==" "A-==" "AAEC/w==\n"
entry encrypted-by-id null 1
entry properties null [] {"a":1}"#;

/// A member and values with which no field is named.
const PLACELESS: &str =
    r#"table x 1.5 1.0 1e2 -0 18446744073709551616 -9223372036854775809 1e400 01 {"y":[0.0]} [[-0]] tru
table last-updated-ms 7.0 7e0 -0
schema x 0.5
column x [1.5] {"y":{"z":-0}}
spec fields [1.5]
order fields [{"x":1e1}]
snapshot summary {"operation":"append","n":1.5}
entry x 18446744073709551616"#;

/// A member and values with which the text is metadata.
const TAKEN: &str =
    r#"table format-version 2,"format-version":3 "x","format-version":3 1.5,"format-version":3
table table-uuid "000102030405460788090a0b0c0d0e0f" "000102030405460788090A0B0C0D0E0F" "{00010203-0405-4607-8809-0a0b0c0d0e0f}" "urn:uuid:00010203-0405-4607-8809-0a0b0c0d0e0f"
table location "a" "//a" "é"
table last-sequence-number 0 9223372036854775807
table last-updated-ms -9223372036854775808 9223372036854775807
table last-column-id -1 2147483647 -2147483648
table last-partition-id -1
table properties ~ {} {"encryption.key-id":"","":"a"}
table current-snapshot-id ~ null -1
table next-row-id 0 9223372036854775807
table encryption-keys ~ []
table x [1] null {} 18446744073709551615 -9223372036854775808 "\u0000" [{"y":[[]]}]
schema x {"y":1} null
column x [] null
column initial-default null
column write-default null
column type "fixed[1048576]" "timestamptz" "uuid"
column required false
column id 2147483647
column name "" "é"
spec fields [] [1,null,{}]
spec x [1]
order fields [] [[]]
order x [1]
snapshot sequence-number -1
snapshot timestamp-ms 9223372036854775807
snapshot manifest-list ""
snapshot parent-snapshot-id 9
snapshot schema-id -1
snapshot first-row-id -1
snapshot added-rows -1
snapshot key-id ""
snapshot x [1]
snapshot summary {"operation":"","x":null}
entry encrypted-by-id "key-1"
entry encrypted-key-metadata "" "AA=="
entry properties {} {"a":"b"}
entry x [1]"#;

/// Why a text isn't metadata: the field, or none where it is.
fn refused_field(rt: &(impl Abort + AllocGlobal), text: &str) -> Option<String> {
    match TableMeta::read(rt.alloc(), text.as_bytes()) {
        Ok(_) => None,
        Err(MetaFault::BadMeta { field }) => {
            Some(String::from_str(rt.alloc(), field.as_str()).expect(rt, "room"))
        }
        Err(MetaFault::NoMemory) => Some(String::from_str(rt.alloc(), "no memory").expect(
            rt, "room",
        )),
    }
}

/// Whether the field that is named is the member's own: that of an element is its array's.
fn is_own_field(found: &Option<String>, object: &str, name: &str) -> bool {
    match object {
        "schema" | "column" => is_field(found, "schemas"),
        "spec" => is_field(found, "partition-specs"),
        "order" => is_field(found, "sort-orders"),
        "snapshot" => is_field(found, "snapshots"),
        "entry" => is_field(found, "encryption-keys"),
        _ => is_field(found, name),
    }
}

/// Why the text with this member isn't metadata.
fn field_with(
    rt: &(impl Abort + AllocGlobal),
    object: &str,
    name: &str,
    value: &str,
) -> Option<String> {
    let member = Member {
        object,
        name,
        value,
    };
    refused_field(rt, text_with(rt, member).as_str())
}

/// Whether it is this field.
fn is_field(found: &Option<String>, name: &str) -> bool {
    found.as_ref().map(|field| field.as_str()) == Some(name)
}

/// What is expected of the texts of a row.
#[derive(Clone, Copy)]
enum Expected {
    /// The member's own field is named.
    Own,
    /// The empty name is given.
    Placeless,
    /// They are metadata.
    Taken,
}

/// Whether what is named is what is expected.
fn is_expected(found: &Option<String>, object: &str, name: &str, expected: Expected) -> bool {
    match expected {
        Expected::Own => is_own_field(found, object, name),
        Expected::Placeless => is_field(found, ""),
        Expected::Taken => found.is_none(),
    }
}

/// Reads the texts with each of the values of a row.
fn check_row(rt: &(impl Abort + AllocGlobal), row: &str, expected: Expected) {
    let (object, row) = row.split_once(' ').expect(rt, "an object");
    let (name, values) = row.split_once(' ').expect(rt, "a name");
    for value in values.split(' ') {
        let found = field_with(rt, object, name, value);
        assert!(rt;
            is_expected(&found, object, name, expected),
            "{object} {name} {value}"
        );
    }
}

#[test]
fn refused_members(rt: HostRuntime) {
    for row in REFUSED.lines() {
        check_row(&rt, row, Expected::Own);
    }
}

#[test]
fn numbers_that_are_not_whole(rt: HostRuntime) {
    for row in PLACELESS.lines() {
        check_row(&rt, row, Expected::Placeless);
    }
}

#[test]
fn members_that_may_be_there(rt: HostRuntime) {
    for row in TAKEN.lines() {
        check_row(&rt, row, Expected::Taken);
    }
}

/// A member with which another field is named.
const CHOICES: &str = "table schemas [] current-schema-id
table partition-specs [] default-spec-id
table sort-orders [] default-sort-order-id
table snapshots ~ current-snapshot-id
table snapshots [] current-snapshot-id
snapshot snapshot-id -1 current-snapshot-id
schema schema-id 6 current-schema-id
spec spec-id 0 default-spec-id
order order-id 0 default-sort-order-id";

#[test]
fn fields_that_name_others(rt: HostRuntime) {
    for row in CHOICES.lines() {
        let (member, field) = row.rsplit_once(' ').expect(&rt, "a field");
        let (object, member) = member.split_once(' ').expect(&rt, "an object");
        let (name, value) = member.split_once(' ').expect(&rt, "a name");
        assert!(rt;
            is_field(&field_with(&rt, object, name, value), field),
            "{row}"
        );
    }
}

#[test]
fn texts_that_are_no_objects(rt: HostRuntime) {
    let texts = [
        "",
        "[]",
        "null",
        "3",
        "{",
        "{}x",
        "\"a\"",
        "{\"a\":1,}",
        "{\"a\":\"\\ud800\"}",
    ];
    for text in texts {
        assert!(rt; is_field(&refused_field(&rt, text), ""), "{text}");
    }
    assert!(rt; is_field(&refused_field(&rt, "{}"), "format-version"));
}

/// A member that nests so deep that the text has so many levels.
fn nested(rt: &(impl Abort + AllocGlobal), levels: u32) -> String {
    let mut value = String::new(rt.alloc());
    for _ in 1..levels {
        value.push_str("[").expect(rt, "room");
    }
    for _ in 1..levels {
        value.push_str("]").expect(rt, "room");
    }
    value
}

#[test]
fn levels(rt: HostRuntime) {
    let value = nested(&rt, 127);
    assert!(rt; field_with(&rt, "table", "x", value.as_str()).is_none());
    let value = nested(&rt, 128);
    assert!(rt; is_field(&field_with(&rt, "table", "x", value.as_str()), ""));
    let value = nested(&rt, 126);
    assert!(rt; is_field(&field_with(&rt, "snapshot", "x", value.as_str()), ""));
    let value = nested(&rt, 125);
    assert!(rt; field_with(&rt, "snapshot", "x", value.as_str()).is_none());
}
