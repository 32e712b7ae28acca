//! How a command ended: the exit number, and the line that names the cause.
ghost use Rattle.std.specs.Prelude.{◌≡◌, IfOk, string_bytes};
ghost use Rattle.icb_run.specs.Lines.{line_of};
ghost use Rattle.icb_run.specs.Numbers.{number_of_status};

use crate::status_words::{status_name, status_values};
use icb_base::{Limited, ObjPath};
use icb_schema::Text;
use icb_turns::{CannotWhat, Versions};
use std::alloc::{AllocError, Global};

/// Why the first 8 bytes or the length of an encrypted file are refused.
#[derive(Clone, Copy, Debug, PartialEq, Eq)]
pub enum HeaderFault {
    /// The file doesn't begin with the magic.
    Magic {
        /// The first four bytes.
        found: [u8; 4],
    },
    /// The block length isn't 1 to 16,777,216.
    BlockLength {
        /// The block length in the header.
        found: u32,
    },
    /// No division into blocks has this length.
    BadLength {
        /// The recorded length in bytes.
        length: u64,
    },
}

/// How a command ended.
#[derive(Debug, Drop)]
pub enum Status {
    /// The command did all of its work.
    Ok,
    /// The words are no command.
    Usage {
        /// The position of the first word that has no place; the number of words where one is missing.
        word: u32,
    },
    /// A line of the keyring isn't in its form.
    BadKeyring {
        /// The first such line's number, from 1.
        line: u64,
    },
    /// A line of the input isn't in its form.
    BadInput {
        /// The first such line's number, from 1.
        line: u64,
    },
    /// The table has a version 1 already.
    TableExists,
    /// The table has no version 1.
    NoTable,
    /// The table's metadata isn't in its form.
    BadMeta {
        /// The first field that isn't; empty where the text is no JSON object or has a number that isn't a
        /// whole one of 64 bits.
        field: Text,
    },
    /// The keyring has no key of this id, or the table no entry of it.
    NoKey {
        /// The id.
        id: Text,
    },
    /// The key of this id isn't opened.
    KeyRefused {
        /// The id of its entry.
        id: Text,
    },
    /// The metadata has no snapshot of this id.
    NoSnapshot {
        /// The id.
        id: i64,
    },
    /// The table has no column of this name.
    NoColumn {
        /// The name.
        name: Text,
    },
    /// An end of the range is null or no value of the column.
    BadRange {
        /// The column's name.
        name: Text,
    },
    /// No file is held at the path.
    Missing {
        /// The file.
        path: ObjPath,
    },
    /// The file is shorter than its recorded length.
    Short {
        /// The file.
        path: ObjPath,
        /// How many bytes it has.
        size: u64,
    },
    /// The file's header or its length is refused.
    Header {
        /// The file.
        path: ObjPath,
        /// What is wrong.
        fault: HeaderFault,
    },
    /// A block doesn't open under the key.
    Block {
        /// The file.
        path: ObjPath,
        /// The block, counted from 0.
        number: u32,
    },
    /// The opened bytes of a file aren't in their form.
    Malformed {
        /// The file.
        path: ObjPath,
        /// Where the item or the record begins, from the first byte of the plaintext.
        place: u64,
    },
    /// A file names another one that isn't read, though it may be whole.
    Unsupported {
        /// The file.
        path: ObjPath,
        /// The other one, as it is named.
        file: Text,
    },
    /// A container's codec isn't `null`.
    Codec {
        /// The file.
        path: ObjPath,
        /// The codec.
        name: Text,
    },
    /// A file names another one that has no key metadata.
    PlainFile {
        /// The file.
        path: ObjPath,
        /// The other one, as it is named.
        file: Text,
    },
    /// The list of a snapshot has no key.
    PlainList {
        /// The snapshot's id.
        snapshot: i64,
    },
    /// The list of a snapshot isn't read.
    BadList {
        /// The snapshot's id.
        snapshot: i64,
        /// The list, as the snapshot names it.
        file: Text,
    },
    /// Others put the versions that the command tried to put.
    Contended {
        /// The versions, in the order in which they were found.
        versions: Versions,
    },
    /// A file is held at the path already.
    NameTaken {
        /// The path.
        path: ObjPath,
    },
    /// The new master key is the table's own.
    SameKey {
        /// Its id.
        id: Text,
    },
    /// The new master key's id is that of one of the table's keys.
    KeyName {
        /// The id.
        id: Text,
    },
    /// One more would pass a limit.
    Limit {
        /// Which limit.
        what: Limited,
        /// The limit.
        number: u64,
    },
    /// The table has a form for which there is no such command.
    Cannot {
        /// Which form.
        what: CannotWhat,
    },
    /// A call of the table failed.
    StoreFault,
    /// A read of the input failed.
    InputFault,
    /// A write of the output failed.
    OutputFault,
    /// No random bytes were given.
    RandomFault,
    /// No memory was left.
    NoMemory,
}

impl Status {
    /// The exit number.
    pub fn number(&self) -> u8
        ensures { result ≡ number_of_status self.now }
    {
        match self {
            Status::Ok => 0,
            Status::Usage { word: _ } => 2,
            Status::BadKeyring { line: _ } => 3,
            Status::BadInput { line: _ } => 4,
            Status::TableExists => 5,
            Status::NoTable => 6,
            Status::BadMeta { field: _ } => 7,
            Status::NoKey { id: _ } => 8,
            Status::KeyRefused { id: _ } => 9,
            Status::NoSnapshot { id: _ } => 10,
            Status::NoColumn { name: _ } => 11,
            Status::BadRange { name: _ } => 11,
            Status::Missing { path: _ } => 12,
            Status::Short { path: _, size: _ } => 13,
            Status::Header { path: _, fault: _ } => 14,
            Status::Block { path: _, number: _ } => 15,
            Status::Malformed { path: _, place: _ } => 16,
            Status::Unsupported { path: _, file: _ } => 17,
            Status::Codec { path: _, name: _ } => 17,
            Status::PlainFile { path: _, file: _ } => 17,
            Status::PlainList { snapshot: _ } => 17,
            Status::BadList {
                snapshot: _,
                file: _,
            } => 17,
            Status::Contended { versions: _ } => 18,
            Status::NameTaken { path: _ } => 19,
            Status::SameKey { id: _ } => 20,
            Status::KeyName { id: _ } => 20,
            Status::Limit { what: _, number: _ } => 21,
            Status::Cannot { what: _ } => 22,
            Status::StoreFault => 30,
            Status::InputFault => 31,
            Status::OutputFault => 32,
            Status::RandomFault => 33,
            Status::NoMemory => 40,
        }
    }

    /// The status's line, with its line feed.
    pub fn line(&self, alloc: Global) -> Result<String, AllocError>
        ensures { IfOk result (λ line. string_bytes line ≡ line_of self.now) }
    {
        let name = status_name(self);
        let values = status_values(alloc, self)?;
        format!(in alloc; "{name}{values}\n")
    }
}
