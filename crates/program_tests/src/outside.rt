//! The outside in memory that the tests run commands over, and rows: the words, the exit number, the
//! output and the line, with `;` between them. `KEY` stands for the key 00 to 0f, `$` at the end of the
//! output for a line feed, and `^` at the end of the line says that it is cut there.

use crate::files::FILES;
use icb_base::{ByteDraws, Bytes, Draws, MemSink, MemSource, MemStore, ObjPath};
use icb_run::{Status, run};
use std::process::Abort;

/// The key 00 to 0f.
const KEY: &str = "000102030405060708090a0b0c0d0e0f";

/// The number of a call that isn't made.
pub(crate) const NEVER: u64 = u64::MAX;

/// Which call of each part of the outside fails, by its number from 0.
#[derive(Clone, Copy)]
pub(crate) struct Fails {
    pub(crate) table: u64,
    pub(crate) input: u64,
    pub(crate) draws: u64,
    pub(crate) out: u64,
    pub(crate) err: u64,
}

/// Nothing fails.
pub(crate) const NO_FAILS: Fails = Fails {
    table: NEVER,
    input: NEVER,
    draws: NEVER,
    out: NEVER,
    err: NEVER,
};

/// All that a command sees.
#[derive(Drop)]
pub(crate) struct Seen {
    pub(crate) table: MemStore,
    pub(crate) genuine: MemStore,
    pub(crate) input: MemSource,
    pub(crate) keys: MemSource,
    pub(crate) trusted: MemSource,
    pub(crate) draws: ByteDraws,
    pub(crate) out: MemSink,
    pub(crate) err: MemSink,
}

impl Seen {
    /// A table of all the files, and the input and the draws of the rows.
    pub(crate) fn new(rt: &(impl Abort + AllocGlobal), fails: Fails) -> Seen {
        Seen {
            table: table(rt, fails.table),
            genuine: MemStore::new(rt.alloc(), Vec::new(rt.alloc())),
            input: input(rt, fails.input),
            keys: no_input(rt),
            trusted: no_input(rt),
            draws: draws(rt, fails.draws),
            out: MemSink::new(rt.alloc(), one(rt, fails.out)),
            err: MemSink::new(rt.alloc(), one(rt, fails.err)),
        }
    }

    /// An output of which nothing was written.
    pub(crate) fn clear_output(&mut self, rt: &(impl Abort + AllocGlobal)) {
        self.out = MemSink::new(rt.alloc(), Vec::new(rt.alloc()));
    }

    /// Runs the words of a text, and gives the exit number.
    pub(crate) fn run(&mut self, rt: &(impl Abort + AllocGlobal), text: &str) -> u8 {
        let status = run(
            rt.alloc(),
            words_of(rt, text).as_slice(),
            &mut self.table,
            &mut self.genuine,
            &mut self.input,
            &mut self.keys,
            &mut self.trusted,
            &mut self.draws,
            7,
            &mut self.out,
            &mut self.err,
        );
        status.number()
    }

    /// Runs the words of a text over other random bytes.
    pub(crate) fn run_with<D: Draws>(
        &mut self,
        rt: &(impl Abort + AllocGlobal),
        text: &str,
        draws: &mut D,
    ) -> Status {
        run(
            rt.alloc(),
            words_of(rt, text).as_slice(),
            &mut self.table,
            &mut self.genuine,
            &mut self.input,
            &mut self.keys,
            &mut self.trusted,
            draws,
            7,
            &mut self.out,
            &mut self.err,
        )
    }
}

/// The words of a text, with the key in the place of `KEY`.
pub(crate) fn words_of(rt: &(impl Abort + AllocGlobal), text: &str) -> Vec<String> {
    let mut words = Vec::new(rt.alloc());
    for word in text.split(' ') {
        let word = if word == "KEY" { KEY } else { word };
        let word = String::from_str(rt.alloc(), word).expect(rt, "a word");
        words.push(word).expect(rt, "words");
    }
    words
}

/// The object path of a text.
pub(crate) fn path(rt: &(impl Abort + AllocGlobal), text: &str) -> ObjPath {
    ObjPath::read(rt.alloc(), text.as_bytes()).expect(rt, "a path")
}

/// A list of one number.
fn one(rt: &(impl Abort + AllocGlobal), number: u64) -> Vec<u64> {
    [number].to_vec(rt.alloc()).expect(rt, "a number")
}

/// A table of all the files, of which one call fails.
fn table(rt: &(impl Abort + AllocGlobal), fails: u64) -> MemStore {
    let plan = [(fails, false)].to_vec(rt.alloc()).expect(rt, "a plan");
    let mut table = MemStore::new(rt.alloc(), plan);
    for line in FILES.lines() {
        let (name, digits) = line.split_once(' ').expect(rt, "a path and digits");
        let bytes = hex::decode(rt.alloc(), digits).expect(rt, "hexadecimal digits");
        table
            .set(path(rt, name), Bytes::from_vec(bytes))
            .expect(rt, "an object");
    }
    table
}

/// An input without a byte.
fn no_input(rt: &impl AllocGlobal) -> MemSource {
    MemSource::new(Bytes::new(rt.alloc()), 1, Vec::new(rt.alloc()))
}

/// The bytes 00 to 7f, of which a read gives at most 50.
fn input(rt: &(impl Abort + AllocGlobal), fails: u64) -> MemSource {
    let mut bytes = Bytes::new(rt.alloc());
    for byte in 0..128u8 {
        bytes.push(byte).expect(rt, "the input");
    }
    MemSource::new(bytes, 50, one(rt, fails))
}

/// The bytes 00 to 0f and then 00 to 17.
pub(crate) fn draws(rt: &(impl Abort + AllocGlobal), fails: u64) -> ByteDraws {
    let mut bytes = Bytes::new(rt.alloc());
    for byte in 0..40u8 {
        let byte = if byte < 16 { byte } else { byte - 16 };
        bytes.push(byte).expect(rt, "random bytes");
    }
    ByteDraws::new(bytes, one(rt, fails))
}

/// Runs each row over an outside of its own.
pub(crate) fn check_rows<F: Fn() -> Seen>(rt: &(impl Abort + AllocGlobal), rows: &str, outside: F)
    requires { F.IsAlwaysCallable outside }
{
    for row in rows.lines() {
        check_row(rt, &mut outside(), row);
    }
}

/// Runs a row, and compares the exit number, the output and the line.
pub(crate) fn check_row(rt: &(impl Abort + AllocGlobal), seen: &mut Seen, row: &str) {
    let mut fields = row.split(';');
    let words = fields.next().expect(rt, "words");
    let number = fields.next().expect(rt, "a number");
    let out = fields.next().expect(rt, "the output");
    let line = fields.next().expect(rt, "the line");
    let ended = seen.run(rt, words);
    assert!(rt; number.parse::<u8>().ok() == Some(ended), "{row}: {ended}");
    let is_output = match out.strip_suffix('$') {
        Some(text) => is_line(seen.out.written(), text),
        None => seen.out.written() == out.as_bytes(),
    };
    assert!(rt; is_output, "{row}: the output");
    let is_told = match line.strip_suffix('^') {
        Some(text) => seen.err.written() == text.as_bytes(),
        None if line.is_empty() => seen.err.written().is_empty(),
        None => is_line(seen.err.written(), line),
    };
    assert!(rt; is_told, "{row}: the line");
}

/// Whether these bytes are a text and a line feed.
fn is_line(bytes: &[u8], text: &str) -> bool {
    bytes.strip_suffix(b"\n".as_slice()) == Some(text.as_bytes())
}
