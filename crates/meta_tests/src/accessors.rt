//! What metadata says through its accessors, and that nothing is lost where it is written.
use crate::texts::{Member, NONE, text_with};
use icb_meta::TableMeta;
use icb_schema::Text;
use std::process::Abort;

/// The metadata with this member.
fn metadata(rt: &(impl Abort + AllocGlobal), member: Member<'_>) -> TableMeta {
    let text = text_with(rt, member);
    TableMeta::read(rt.alloc(), text.as_str().as_bytes()).expect(rt, "metadata")
}

/// A text.
fn text(rt: &(impl Abort + AllocGlobal), text: &str) -> Text {
    Text::from_str(rt.alloc(), text).expect(rt, "room")
}

#[test]
fn fields(rt: HostRuntime) {
    let meta = metadata(&rt, NONE);
    assert!(rt; meta.uuid() == 0x00010203_0405_4607_8809_0a0b0c0d0e0f);
    assert!(rt; meta.location().as_str() == "file:///table");
    assert!(rt; meta.last_sequence() == 2 && meta.last_updated() == 7);
    assert!(rt; meta.next_row_id() == 9 && meta.default_spec() == 4);
    assert!(rt; !meta.partitioned() && meta.sorted());
    assert!(rt; meta.schema().id == 5 && meta.schema().columns.as_slice().len() == 1);
    assert!(rt; meta.snapshots().len() == 1 && meta.current() == Some(1));
    assert!(rt; meta.snapshot(1).is_some_and(|snapshot| snapshot.ms == -3));
    assert!(rt; meta.snapshot(2).is_none());
    assert!(rt; meta.entries().len() == 1);
    let entry = meta.entry(&text(&rt, "key-1")).expect(&rt, "an entry");
    assert!(rt; entry.sealed.as_slice() == [0, 1, 2, 255].as_slice());
    assert!(rt; meta.entry(&text(&rt, "m1")).is_none());
    assert!(rt; meta.master().is_some_and(|id| id.as_str() == "m1"));
    assert!(rt; meta.property("encryption.key").is_none());
}

#[test]
fn paths_and_ids(rt: HostRuntime) {
    let meta = metadata(&rt, NONE);
    let path = meta.resolve(rt.alloc(), &text(&rt, "file:///table/data/x"));
    assert!(rt;
        path.expect(&rt, "room")
            .is_some_and(|path| path.as_str() == "data/x")
    );
    for full in [
        "file:///table",
        "file:///table/",
        "file:///tabledata/x",
        "file:///table//x",
        "data/x",
    ] {
        let path = meta.resolve(rt.alloc(), &text(&rt, full));
        assert!(rt; path.expect(&rt, "room").is_none(), "{full}");
    }
    let id = meta.next_key_id(rt.alloc()).expect(&rt, "room");
    assert!(rt; id.as_str() == "key-2");
    let sealed = Member {
        object: "entry",
        name: "encrypted-by-id",
        value: r#""key-2""#,
    };
    let id = metadata(&rt, sealed).next_key_id(rt.alloc());
    assert!(rt; id.expect(&rt, "room").as_str() == "key-3");
    let master = Member {
        object: "table",
        name: "properties",
        value: r#"{"encryption.key-id":"key-2"}"#,
    };
    let id = metadata(&rt, master).next_key_id(rt.alloc());
    assert!(rt; id.expect(&rt, "room").as_str() == "key-3");
}

/// What isn't known stands in the written text, at each level, and the text is read again.
#[test]
fn unknown_members_are_kept(rt: HostRuntime) {
    for object in [
        "table", "schema", "column", "spec", "order", "snapshot", "entry",
    ] {
        let member = Member {
            object,
            name: "x",
            value: r#"[1,{"y":[]}]"#,
        };
        let written = metadata(&rt, member)
            .to_bytes(rt.alloc())
            .expect(&rt, "room");
        let again = str::from_utf8(written.as_slice()).expect(&rt, "a text");
        assert!(rt; again.contains(r#""x":[1,{"y":[]}]"#), "{object}");
        assert!(rt;
            TableMeta::read(rt.alloc(), again.as_bytes()).is_ok(),
            "{object}"
        );
    }
}
