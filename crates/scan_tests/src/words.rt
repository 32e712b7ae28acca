//! Queries, refusals and stores in words, and a scan of them.

use crate::table::{META, OBJECTS, RING};
use icb_base::{Bytes, MemSink, MemStore, ObjPath, Store};
use icb_chain::Keyring;
use icb_meta::TableMeta;
use icb_scan::{Query, RangeWords, ScanFault, scan};
use icb_schema::{Names, Text};
use icb_walk::{Cause, TreeFault};
use std::process::Abort;

/// A text.
pub(crate) fn text(rt: &(impl Abort + AllocGlobal), text: &str) -> Text {
    Text::from_str(rt.alloc(), text).expect(rt, "room")
}

/// An object path.
pub(crate) fn path(rt: &(impl Abort + AllocGlobal), text: &str) -> ObjPath {
    ObjPath::read(rt.alloc(), text.as_bytes()).expect(rt, "a path")
}

/// The objects in a store. That at a path ends in another byte, or isn't there.
pub(crate) fn store(rt: &(impl Abort + AllocGlobal), changed: &str, missing: &str) -> MemStore {
    let mut store = MemStore::new(rt.alloc(), Vec::new(rt.alloc()));
    for line in OBJECTS.lines() {
        let (name, digits) = line.split_once(' ').expect(rt, "a path and digits");
        let mut bytes = hex::decode(rt.alloc(), digits).expect(rt, "hexadecimal digits");
        if name == changed {
            let last = bytes.pop().expect(rt, "a last byte");
            bytes.push(last ^ 1).expect(rt, "room");
        }
        if name != missing {
            store
                .set(path(rt, name), Bytes::from_vec(bytes))
                .expect(rt, "room");
        }
    }
    store
}

/// The number that a word is.
fn number(rt: &impl Abort, word: &str) -> u64 {
    word.parse::<u64>().ok().expect(rt, "a number")
}

/// The names in a word.
fn names(rt: &(impl Abort + AllocGlobal), word: &str) -> Names {
    let mut names = Names::new(rt.alloc());
    for name in word.split(',') {
        names.push(text(rt, name)).expect(rt, "room");
    }
    names
}

/// The end of a range that a word is, none where it is a dash.
fn end(rt: &(impl Abort + AllocGlobal), word: &str) -> Option<Text> {
    match word {
        "-" => None,
        word => Some(text(rt, word)),
    }
}

/// The range that a word is: a column and its ends.
fn range(rt: &(impl Abort + AllocGlobal), word: &str) -> RangeWords {
    let (column, ends) = word.split_once(':').expect(rt, "a column and ends");
    let (low, high) = ends.split_once(':').expect(rt, "two ends");
    RangeWords {
        column: text(rt, column),
        low: end(rt, low),
        high: end(rt, high),
    }
}

/// A query, a word for each of its parts.
pub(crate) fn query(rt: &(impl Abort + AllocGlobal), words: &str) -> Query {
    let mut query = Query {
        snapshot: None,
        columns: None,
        range: None,
        skip: 0,
        take: None,
    };
    for word in words.split(' ') {
        match word.split_once('=') {
            Some(("snapshot", id)) => query.snapshot = Some(
                id.parse::<i64>().ok().expect(rt, "an id"),
            ),
            Some(("columns", word)) => query.columns = Some(names(rt, word)),
            Some(("range", word)) => query.range = Some(range(rt, word)),
            Some(("skip", word)) => query.skip = number(rt, word),
            Some(("take", word)) => query.take = Some(number(rt, word)),
            _ => {}
        }
    }
    query
}

/// What a scan of a store answers, and what it writes.
pub(crate) fn answer<S: Store>(
    rt: &(impl Abort + AllocGlobal),
    store: &mut S,
    words: &str,
    sink: &mut MemSink,
) -> Result<u64, ScanFault> {
    let meta = TableMeta::read(rt.alloc(), META.as_bytes()).expect(rt, "metadata");
    let ring = Keyring::read(rt.alloc(), RING.as_bytes()).expect(rt, "a keyring");
    scan(rt.alloc(), store, &meta, &ring, &query(rt, words), sink)
}

/// A refusal in words.
pub(crate) fn refusal(rt: &(impl Abort + AllocGlobal), fault: &ScanFault) -> String {
    let words = match fault {
        ScanFault::Tree(TreeFault::NoSnapshot { id }) => format!(in rt.alloc(); "NoSnapshot {id}"),
        ScanFault::Tree(TreeFault::At { path, cause }) => return at(rt, path, cause),
        ScanFault::Tree(TreeFault::Store) => format!(in rt.alloc(); "Store"),
        ScanFault::NoColumn { name } => format!(in rt.alloc(); "NoColumn {}", name.as_str()),
        ScanFault::BadRange { name } => format!(in rt.alloc(); "BadRange {}", name.as_str()),
        ScanFault::Sink => format!(in rt.alloc(); "Sink"),
        _ => format!(in rt.alloc(); "another"),
    };
    words.expect(rt, "room")
}

/// The refusal of a file in words.
fn at(rt: &(impl Abort + AllocGlobal), path: &ObjPath, cause: &Cause) -> String {
    let path = path.as_str();
    let words = match cause {
        Cause::Missing => format!(in rt.alloc(); "Missing {path}"),
        Cause::Block { number } => format!(in rt.alloc(); "Block {path} {number}"),
        _ => format!(in rt.alloc(); "another of {path}"),
    };
    words.expect(rt, "room")
}
