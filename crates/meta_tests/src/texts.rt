//! Texts of table metadata, each made of one text in which a member has another value.
use std::process::Abort;

/// The members of metadata: a name and a value in a line, where `@` and a word stands for an object of
/// its own.
const TABLE: &str = r#"format-version 3
table-uuid "00010203-0405-4607-8809-0a0b0c0d0e0f"
location "file:///table"
last-sequence-number 2
last-updated-ms 7
last-column-id 1
schemas [@schema]
current-schema-id 5
partition-specs [@spec]
default-spec-id 4
last-partition-id 999
sort-orders [@order]
default-sort-order-id 3
properties {"encryption.key-id":"m1"}
snapshots [@snapshot]
current-snapshot-id 1
next-row-id 9
encryption-keys [@entry]
x ~"#;

const SCHEMA: &str = "schema-id 5
fields [@column]
x ~";

const COLUMN: &str = r#"id 1
name "n"
required true
type "long"
initial-default ~
write-default ~
x ~"#;

const SPEC: &str = "spec-id 4
fields []
x ~";

const ORDER: &str = "order-id 3
fields [1]
x ~";

const SNAPSHOT: &str = r#"snapshot-id 1
sequence-number 2
timestamp-ms -3
manifest-list "file:///table/metadata/l"
summary {"operation":"append"}
parent-snapshot-id ~
schema-id ~
first-row-id ~
added-rows ~
key-id ~
x ~"#;

const ENTRY: &str = r#"key-id "key-1"
encrypted-key-metadata "AAEC/w=="
encrypted-by-id ~
properties ~
x ~"#;

/// A member of one of the objects, by the object's word, and its value; `~` where it is absent.
#[derive(Clone, Copy)]
pub(crate) struct Member<'t> {
    pub(crate) object: &'t str,
    pub(crate) name: &'t str,
    pub(crate) value: &'t str,
}

/// No member.
pub(crate) const NONE: Member<'static> = Member {
    object: "",
    name: "",
    value: "",
};

/// The text with this member.
pub(crate) fn text_with(rt: &(impl Abort + AllocGlobal), member: Member<'_>) -> String {
    let text = object(rt, "table", TABLE, member);
    let text = put(rt, text, "@schema", object(rt, "schema", SCHEMA, member));
    let text = put(rt, text, "@column", object(rt, "column", COLUMN, member));
    let text = put(rt, text, "@spec", object(rt, "spec", SPEC, member));
    let text = put(rt, text, "@order", object(rt, "order", ORDER, member));
    let text = put(
        rt,
        text,
        "@snapshot",
        object(rt, "snapshot", SNAPSHOT, member),
    );
    put(rt, text, "@entry", object(rt, "entry", ENTRY, member))
}

/// A text in which an object stands for its word.
fn put(rt: &(impl Abort + AllocGlobal), text: String, word: &str, object: String) -> String {
    text.replace(rt.alloc(), word, object.as_str())
        .expect(rt, "room")
}

/// An object of members, of which one may have another value.
fn object(
    rt: &(impl Abort + AllocGlobal),
    word: &str,
    members: &str,
    member: Member<'_>,
) -> String {
    let mut text = String::from_str(rt.alloc(), "{").expect(rt, "room");
    for line in members.lines() {
        let (name, value) = line.split_once(' ').expect(rt, "a name and a value");
        if word == member.object && name == member.name {
            put_member(rt, &mut text, name, member.value);
        } else {
            put_member(rt, &mut text, name, value);
        }
    }
    text.push_str("}").expect(rt, "room");
    text
}

/// Puts a member behind the others, unless its value says that it is absent.
fn put_member(rt: &(impl Abort + AllocGlobal), text: &mut String, name: &str, value: &str) {
    if value == "~" {
        return;
    }
    if text.len() > 1 {
        text.push_str(",").expect(rt, "room");
    }
    text.push_str("\"").expect(rt, "room");
    text.push_str(name).expect(rt, "room");
    text.push_str("\":").expect(rt, "room");
    text.push_str(value).expect(rt, "room");
}
