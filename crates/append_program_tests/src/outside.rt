//! The outside in memory that the tests run commands over, and rows: the words, the input, the exit number, the output,
//! the line, and how many objects are held then, with `;` between them. A `|` stands for a line feed.

use icb_base::{ByteDraws, Bytes, MemSink, MemSource, MemStore, ObjPath};
use icb_run::run;
use std::process::Abort;

/// The number of a call that isn't made.
pub(crate) const NEVER: u64 = u64::MAX;

/// A keyring with two masters.
pub(crate) const RING: &str =
    "m1=000102030405060708090a0b0c0d0e0f|m2=101112131415161718191a1b1c1d1e1f";

/// All that a command sees. The table and the draws go on from one command to the next.
#[derive(Drop)]
pub(crate) struct Seen {
    pub(crate) table: MemStore,
    pub(crate) input: MemSource,
    pub(crate) keys: MemSource,
    pub(crate) trusted: MemSource,
    pub(crate) draws: ByteDraws,
    pub(crate) out: MemSink,
    pub(crate) err: MemSink,
}

impl Seen {
    /// No object, in a store that does this, a keyring, and draws of which a fill fails.
    pub(crate) fn new(rt: &(impl Abort + AllocGlobal), table: MemStore, draws: u64) -> Seen {
        Seen {
            table,
            input: source(rt, "", NEVER),
            keys: source(rt, RING, NEVER),
            trusted: source(rt, "", NEVER),
            draws: ByteDraws::new(drawn(rt), one(rt, draws)),
            out: sink(rt, NEVER),
            err: sink(rt, NEVER),
        }
    }

    /// No object, and nothing fails.
    pub(crate) fn empty(rt: &(impl Abort + AllocGlobal)) -> Seen {
        Seen::new(rt, store(rt, NEVER, false), NEVER)
    }

    /// Other lines of a keyring and of an input, and nothing written.
    pub(crate) fn next(&mut self, rt: &(impl Abort + AllocGlobal), ring: &str, input: &str) {
        self.keys = source(rt, ring, NEVER);
        self.input = source(rt, input, NEVER);
        self.out = sink(rt, NEVER);
        self.err = sink(rt, NEVER);
    }

    /// Runs the words of a text, and gives the exit number.
    pub(crate) fn run(&mut self, rt: &(impl Abort + AllocGlobal), text: &str) -> u8 {
        let status = run(
            rt.alloc(),
            words_of(rt, text).as_slice(),
            &mut self.table,
            &mut MemStore::new(rt.alloc(), Vec::new(rt.alloc())),
            &mut self.input,
            &mut self.keys,
            &mut self.trusted,
            &mut self.draws,
            7,
            &mut self.out,
            &mut self.err,
        );
        status.number()
    }
}

/// The bytes that are drawn.
pub(crate) fn drawn(rt: &(impl Abort + AllocGlobal)) -> Bytes {
    let mut drawn = Bytes::new(rt.alloc());
    for at in 0..4096u32 {
        let byte = (at * 7 + at / 256 * 13 + 3) % 256;
        drawn.push(byte as u8).expect(rt, "room");
    }
    drawn
}

/// An empty store of which a call fails, where it is told after a put.
pub(crate) fn store(rt: &(impl Abort + AllocGlobal), fails: u64, puts: bool) -> MemStore {
    let plan = [(fails, puts)].to_vec(rt.alloc()).expect(rt, "a plan");
    MemStore::new(rt.alloc(), plan)
}

/// A sink of which a write fails.
pub(crate) fn sink(rt: &(impl Abort + AllocGlobal), fails: u64) -> MemSink {
    MemSink::new(rt.alloc(), one(rt, fails))
}

/// The lines of a text as a source, of which a read gives at most 20 bytes and one fails.
pub(crate) fn source(rt: &(impl Abort + AllocGlobal), text: &str, fails: u64) -> MemSource {
    let lines = lines(rt, text);
    let bytes = Bytes::from_slice(rt.alloc(), lines.as_str().as_bytes()).expect(rt, "room");
    MemSource::new(bytes, 20, one(rt, fails))
}

/// A text with line feeds for `|`.
fn lines(rt: &(impl Abort + AllocGlobal), text: &str) -> String {
    text.replace(rt.alloc(), "|", "\n").expect(rt, "room")
}

/// A list of one number.
fn one(rt: &(impl Abort + AllocGlobal), number: u64) -> Vec<u64> {
    [number].to_vec(rt.alloc()).expect(rt, "a number")
}

/// The object path of a text.
pub(crate) fn path(rt: &(impl Abort + AllocGlobal), text: &str) -> ObjPath {
    ObjPath::read(rt.alloc(), text.as_bytes()).expect(rt, "a path")
}

/// The words of a text.
fn words_of(rt: &(impl Abort + AllocGlobal), text: &str) -> Vec<String> {
    let mut words = Vec::new(rt.alloc());
    for word in text.split(' ') {
        let word = String::from_str(rt.alloc(), word).expect(rt, "a word");
        words.push(word).expect(rt, "words");
    }
    words
}

/// The part of a row at a place, from 0.
fn part<'t>(rt: &impl Abort, row: &'t str, place: usize) -> &'t str {
    row.split(';').nth(place).expect(rt, "a part")
}

/// The number that a part of a row is.
fn number(rt: &impl Abort, row: &str, place: usize) -> u64 {
    let digits = part(rt, row, place);
    digits.parse::<u64>().ok().expect(rt, "a number")
}

/// Runs each row behind the one before.
pub(crate) fn check_rows(rt: &(impl Abort + AllocGlobal), seen: &mut Seen, ring: &str, rows: &str) {
    for row in rows.lines() {
        seen.next(rt, ring, part(rt, row, 1));
        check_row(rt, seen, row);
    }
}

/// Runs the words of a row, and compares the exit number, the output, the line and the number of objects with it.
pub(crate) fn check_row(rt: &(impl Abort + AllocGlobal), seen: &mut Seen, row: &str) {
    let ended = seen.run(rt, part(rt, row, 0));
    assert!(rt; u64::from(ended) == number(rt, row, 2), "{row}: {ended}");
    let out = lines(rt, part(rt, row, 3));
    assert!(rt;
        seen.out.written() == out.as_str().as_bytes(),
        "{row}: the output"
    );
    let line = lines(rt, part(rt, row, 4));
    assert!(rt;
        seen.err.written() == line.as_str().as_bytes(),
        "{row}: the line"
    );
    assert!(rt;
        seen.table.objects() == number(rt, row, 5),
        "{row}: the objects"
    );
}
