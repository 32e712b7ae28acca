//! The limits of schemas: 4,096 nodes, 32 deep.
use crate::schema_rows::{repeated, shown};

/// 4,096 nodes are read and 4,097 are not; 32 deep is read and 33 is not.
#[test]
fn limits(rt: HostRuntime) {
    let most = repeated(&rt, "[\"int\"", ",\"int\"", 4094, "]");
    assert!(rt; shown(&rt, most.as_bytes()).len() == most.len());
    let more = repeated(&rt, "[\"int\"", ",\"int\"", 4095, "]");
    assert!(rt; shown(&rt, more.as_bytes()).as_str() == "Nodes");
    let front = r#"{"items":"#;
    let deep = repeated(&rt, "", front, 31, "\"int\"");
    let deepest = repeated(&rt, deep.as_str(), r#","type":"array"}"#, 31, "");
    assert!(rt; shown(&rt, deepest.as_bytes()).as_str() == deepest.as_str());
    let deeper = repeated(&rt, "", front, 32, "\"int\"");
    let deeper = repeated(&rt, deeper.as_str(), r#","type":"array"}"#, 32, "");
    assert!(rt; shown(&rt, deeper.as_bytes()).as_str() == "Depth 32");
}

/// Each of twenty records names the one before it twice.
#[test]
fn copies_that_multiply(rt: HostRuntime) {
    let mut text = String::from_str(
        rt.alloc(),
        r#"[{"type":"record","name":"r0","fields":[{"name":"a","type":"int"}]}"#,
    )
    .expect(&rt, "room");
    for i in 1..21u32 {
        let before = i - 1;
        let record = format!(in rt.alloc();
            ",{{\"type\":\"record\",\"name\":\"r{i}\",\"fields\":[{{\"name\":\"a\",\"type\":\"r{before}\"}},{{\"name\":\"b\",\"type\":\"r{before}\"}}]}}"
        ).expect(&rt, "room");
        text.push_str(record.as_str()).expect(&rt, "room");
    }
    text.push_str("]").expect(&rt, "room");
    assert!(rt; shown(&rt, text.as_bytes()).as_str() == "Nodes");
}
