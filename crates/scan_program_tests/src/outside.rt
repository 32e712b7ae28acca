//! The outside in memory that the tests run `scan` over, and rows: the words, the exit number, the output and
//! the line, with `;` between them. A `|` in an output stands for a line feed.

use crate::table::{META, OBJECTS, RING};
use icb_base::{ByteDraws, Bytes, MemSink, MemSource, MemStore, ObjPath};
use icb_run::run;
use std::process::Abort;

/// The number of a call that isn't made.
pub(crate) const NEVER: u64 = u64::MAX;

/// All that a command sees.
#[derive(Drop)]
pub(crate) struct Seen {
    pub(crate) table: MemStore,
    pub(crate) keys: MemSource,
    pub(crate) trusted: MemSource,
    pub(crate) out: MemSink,
    pub(crate) err: MemSink,
}

impl Seen {
    /// The objects of the table with its metadata as version 1, the keyring, and the metadata as what is handed in.
    pub(crate) fn new(rt: &(impl Abort + AllocGlobal)) -> Seen {
        Seen::with(rt, objects(rt, NEVER))
    }

    /// The same with another store, to which version 1 is added.
    pub(crate) fn with(rt: &(impl Abort + AllocGlobal), mut table: MemStore) -> Seen {
        table
            .set(path(rt, "metadata/v1.metadata.json"), bytes(rt, META))
            .expect(rt, "room");
        Seen {
            table,
            keys: source(rt, RING, NEVER),
            trusted: source(rt, META, NEVER),
            out: MemSink::new(rt.alloc(), Vec::new(rt.alloc())),
            err: MemSink::new(rt.alloc(), Vec::new(rt.alloc())),
        }
    }

    /// Runs the words of a text, and gives the exit number.
    pub(crate) fn run(&mut self, rt: &(impl Abort + AllocGlobal), text: &str) -> u8 {
        let status = run(
            rt.alloc(),
            words_of(rt, text).as_slice(),
            &mut self.table,
            &mut MemStore::new(rt.alloc(), Vec::new(rt.alloc())),
            &mut source(rt, "", NEVER),
            &mut self.keys,
            &mut self.trusted,
            &mut ByteDraws::new(bytes(rt, DRAWN), Vec::new(rt.alloc())),
            7,
            &mut self.out,
            &mut self.err,
        );
        status.number()
    }
}

/// What is drawn.
const DRAWN: &str = "a text of more than the sixty bytes that the command `create` draws";

/// The bytes of a text.
pub(crate) fn bytes(rt: &(impl Abort + AllocGlobal), text: &str) -> Bytes {
    Bytes::from_slice(rt.alloc(), text.as_bytes()).expect(rt, "room")
}

/// The bytes of a text as a source, of which a read gives at most 4,096 and one fails.
pub(crate) fn source(rt: &(impl Abort + AllocGlobal), text: &str, fails: u64) -> MemSource {
    MemSource::new(bytes(rt, text), 4096, one(rt, fails))
}

/// A list of one number.
pub(crate) fn one(rt: &(impl Abort + AllocGlobal), number: u64) -> Vec<u64> {
    [number].to_vec(rt.alloc()).expect(rt, "a number")
}

/// The object path of a text.
pub(crate) fn path(rt: &(impl Abort + AllocGlobal), text: &str) -> ObjPath {
    ObjPath::read(rt.alloc(), text.as_bytes()).expect(rt, "a path")
}

/// The words of a text.
fn words_of(rt: &(impl Abort + AllocGlobal), text: &str) -> Vec<String> {
    let mut words = Vec::new(rt.alloc());
    for word in text.split(' ') {
        let word = String::from_str(rt.alloc(), word).expect(rt, "a word");
        words.push(word).expect(rt, "words");
    }
    words
}

/// The table's objects, in a store of which a call fails.
pub(crate) fn objects(rt: &(impl Abort + AllocGlobal), fails: u64) -> MemStore {
    let plan = [(fails, false)].to_vec(rt.alloc()).expect(rt, "a plan");
    let mut table = MemStore::new(rt.alloc(), plan);
    for line in OBJECTS.lines() {
        let (name, digits) = line.split_once(' ').expect(rt, "a path and digits");
        let object = hex::decode(rt.alloc(), digits).expect(rt, "hexadecimal digits");
        table
            .set(path(rt, name), Bytes::from_vec(object))
            .expect(rt, "an object");
    }
    table
}

/// The part of a row at a place, from 0.
pub(crate) fn part<'t>(rt: &impl Abort, row: &'t str, place: usize) -> &'t str {
    for (at, part) in row.split(';').enumerate() {
        if at == place {
            return part;
        }
    }
    panic!(rt; "a part is missing: {row}")
}

/// Runs the words of a row, and compares the exit number, the output and the line that follow them.
pub(crate) fn check_row(rt: &(impl Abort + AllocGlobal), seen: &mut Seen, row: &str) {
    let ended = seen.run(rt, part(rt, row, 0));
    check_end(rt, seen, ended, row, 1);
}

/// Compares an exit number, an output and a line with those of a row, from a place on.
pub(crate) fn check_end(
    rt: &(impl Abort + AllocGlobal),
    seen: &Seen,
    ended: u8,
    row: &str,
    first: u8,
) {
    let number = part(rt, row, first as usize).parse::<u8>().ok();
    assert!(rt; number == Some(ended), "{row}: {ended}");
    let out = part(rt, row, first as usize + 1);
    assert!(rt; is_text(rt, seen.out.written(), out), "{row}: the output");
    let line = part(rt, row, first as usize + 2);
    assert!(rt; is_text(rt, seen.err.written(), line), "{row}: the line");
}

/// Whether these bytes are a text, with line feeds for `|`.
fn is_text(rt: &(impl Abort + AllocGlobal), bytes: &[u8], text: &str) -> bool {
    let text = text.replace(rt.alloc(), "|", "\n").expect(rt, "room");
    bytes == text.as_str().as_bytes()
}
