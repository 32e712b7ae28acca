//! What is refused before a file is opened, and why a snapshot isn't read.

use crate::outside::{NEVER, Seen, check_end, check_row, part, path, source};
use icb_base::Source;
use std::process::Abort;

/// Words, and why they are refused: the metadata's own snapshots and columns.
const REFUSED: &str = r#"scan t --keys k --snapshot 9;10;;NoSnapshot 9|
scan t --keys k --snapshot 9 --columns x;10;;NoSnapshot 9|
scan t --keys k --columns n,x --range y;11;;NoColumn "x"|
scan t --keys k --range y --low 1;11;;NoColumn "y"|
scan t --keys k --range n --low x;11;;BadRange "n"|
scan t --keys k --range n --high null;11;;BadRange "n"|
scan t --keys k --range s --low 1;11;;BadRange "s"|
scan t --keys k --snapshot 86 --columns x;11;;NoColumn "x"|
scan t --keys k --snapshot 86;17;;PlainList 86|
scan t --keys k --snapshot 87;17;;BadList 87 "s3://other/x"|
scan t --keys k --snapshot 88;8;;NoKey "none"|
scan t --keys k --snapshot 89;9;;KeyRefused "meta/list89"|"#;

/// Words, and why the snapshot isn't read further than the first manifest.
const UNREAD: &str =
    r#"scan t --columns n --keys k --snapshot 81;17;[1]|[2]|[3]|[4]|[10]|[11]|;PlainFile "meta/list81" "s3://bucket/db/t/meta/2"|
scan t --columns n --keys k --snapshot 82;17;[1]|[2]|[3]|[4]|[10]|[11]|;Codec "meta/deflate" "deflate"|
scan t --columns n --keys k --snapshot 83;17;[1]|[2]|[3]|[4]|[10]|[11]|;Unsupported "meta/parquet" "s3://bucket/db/t/data/a"|
scan t --columns n --keys k --snapshot 84;17;[1]|[2]|[3]|[4]|[10]|[11]|;Unsupported "meta/deletes" "s3://bucket/db/t/data/a"|
scan t --columns n --keys k --snapshot 85;17;[1]|[2]|[3]|[4]|[10]|[11]|;Unsupported "meta/list85" "s3://bucket/db/t/meta/2"|
scan t --columns n --keys k --snapshot 85 --take 6;0;[1]|[2]|[3]|[4]|[10]|[11]|;"#;

/// Keyrings and metadata, each with what comes of them. The keyring decides before the metadata.
const INPUTS: &str = r#"m1=00;{};3;;BadKeyring 1|
m1=000102030405060708090a0b0c0d0e0f;{};7;;BadMeta "format-version"|
m1=00;x;3;;BadKeyring 1|
m1=000102030405060708090a0b0c0d0e0f;[];7;;BadMeta ""|"#;

/// No file of the table was asked for.
fn none_asked(rt: &(impl Abort + AllocGlobal), seen: &Seen) -> bool {
    seen.table.asked_of(&path(rt, "meta/list76")) == 0
        && seen.table.asked_of(&path(rt, "meta/list77")) == 0
}

#[test]
fn queries_are_refused_before_a_file_is_opened(rt: HostRuntime) {
    for row in REFUSED.lines() {
        let mut seen = Seen::new(&rt);
        check_row(&rt, &mut seen, row);
        assert!(rt; none_asked(&rt, &seen), "{row}");
    }
}

#[test]
fn snapshots_that_are_not_read(rt: HostRuntime) {
    for row in UNREAD.lines() {
        check_row(&rt, &mut Seen::new(&rt), row);
    }
}

/// A master that the keyring hasn't.
#[test]
fn another_keyring(rt: HostRuntime) {
    let mut seen = Seen::new(&rt);
    seen.keys = source(&rt, "m1=000102030405060708090a0b0c0d0e0f", NEVER);
    check_row(&rt, &mut seen, "scan t --keys k;8;;NoKey \"m\"|");
    assert!(rt; none_asked(&rt, &seen));
}

#[test]
fn keyrings_and_metadata(rt: HostRuntime) {
    for row in INPUTS.lines() {
        let mut seen = Seen::new(&rt);
        seen.keys = source(&rt, part(&rt, row, 0), NEVER);
        seen.trusted = source(&rt, part(&rt, row, 1), NEVER);
        let ended = seen.run(&rt, "scan t --keys k --metadata m");
        check_end(&rt, &seen, ended, row, 2);
    }
}

/// A keyring that is refused leaves the metadata unread.
#[test]
fn metadata_behind_a_bad_keyring(rt: HostRuntime) {
    let mut seen = Seen::new(&rt);
    seen.keys = source(&rt, "m1=00", NEVER);
    check_row(
        &rt,
        &mut seen,
        "scan t --metadata m --keys k;3;;BadKeyring 1|",
    );
    let mut rest = [0; 1];
    assert!(rt; seen.trusted.read(&mut rest) == Ok(1) && rest == [123]);
}
