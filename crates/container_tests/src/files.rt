//! Files that the tests are made of, and what reading them answers.
use icb_avro::AvroCause;
use icb_base::{Limited, SliceReader};
use icb_container::{Container, ContainerFault};
use icb_schema::SchemaFault;
use std::process::Abort;

/// The text of a record of one number.
pub(crate) const SCHEMA_TEXT: &[u8] =
    b"{\"fields\":[{\"name\":\"a\",\"type\":\"long\"}],\"name\":\"r\",\"type\":\"record\"}";

/// Two records of that schema, 1 and -1, in one block, and no property but those that each file has.
pub(crate) const SMALL: [u8; 138] = [
    79, 98, 106, 1, 4, 20, 97, 118, 114, 111, 46, 99, 111, 100, 101, 99, 8, 110, 117, 108, 108, 22,
    97, 118, 114, 111, 46, 115, 99, 104, 101, 109, 97, 132, 1, 123, 34, 102, 105, 101, 108, 100,
    115, 34, 58, 91, 123, 34, 110, 97, 109, 101, 34, 58, 34, 97, 34, 44, 34, 116, 121, 112, 101,
    34, 58, 34, 108, 111, 110, 103, 34, 125, 93, 44, 34, 110, 97, 109, 101, 34, 58, 34, 114, 34,
    44, 34, 116, 121, 112, 101, 34, 58, 34, 114, 101, 99, 111, 114, 100, 34, 125, 0, 17, 17, 17,
    17, 17, 17, 17, 17, 17, 17, 17, 17, 17, 17, 17, 17, 4, 4, 2, 1, 17, 17, 17, 17, 17, 17, 17, 17,
    17, 17, 17, 17, 17, 17, 17, 17,
];

// The parts of the files of tables, as numbers below those of bytes.

/// The magic.
pub(crate) const MAGIC: i16 = -1;
/// The key `avro.codec`, behind its length.
pub(crate) const CODEC: i16 = -2;
/// The codec `null`, behind its length.
pub(crate) const NULL: i16 = -3;
/// The key `avro.schema`, behind its length.
pub(crate) const SCHEMA: i16 = -4;
/// The schema's text, behind its length.
pub(crate) const TEXT: i16 = -5;
/// The marker, 16 times 17.
pub(crate) const MARK: i16 = -6;
/// The header of `SMALL`, 118 bytes.
pub(crate) const HEADER: i16 = -7;

/// A row of a table: the parts of a file, how many blocks and records are read, and how reading ends.
pub(crate) type Row = (&'static [i16], u64, u64, Answer);

/// How reading a file ends.
#[derive(Clone, Copy, Debug, PartialEq, Eq)]
pub(crate) enum Answer {
    /// At the end.
    End,
    /// The reader refused.
    Reader,
    /// The magic or the schema isn't there.
    NotAvro,
    /// The item at this place is refused.
    Avro(u64, AvroCause),
    /// The item at this place, of so many bytes, goes beyond a limit.
    Large(Limited, u64, u64),
    /// The codec is one of so many bytes.
    Codec(usize),
    /// The schema is refused.
    Schema(SchemaFault),
    /// The marker behind this block isn't the header's.
    Sync(u64),
    /// No memory was left.
    NoMemory,
}

/// How many blocks and records were read, and how reading ended.
#[derive(Clone, Copy, Debug, PartialEq, Eq)]
pub(crate) struct Walk {
    pub(crate) blocks: u64,
    pub(crate) records: u64,
    pub(crate) answer: Answer,
}

/// The answer that a fault is.
pub(crate) fn answer_of<F>(fault: &ContainerFault<F>) -> Answer {
    match fault {
        ContainerFault::Reader(_) => Answer::Reader,
        ContainerFault::NotAvro => Answer::NotAvro,
        ContainerFault::Avro(fault) => Answer::Avro(fault.place, fault.cause),
        ContainerFault::Large { what, place, size } => Answer::Large(*what, *place, *size),
        ContainerFault::Codec { name } => Answer::Codec(name.as_slice().len()),
        ContainerFault::Schema(fault) => Answer::Schema(*fault),
        ContainerFault::Sync { block } => Answer::Sync(*block),
        ContainerFault::NoMemory => Answer::NoMemory,
    }
}

/// Adds bytes.
fn add(rt: &(impl Abort + AllocGlobal), bytes: &mut Vec<u8>, more: &[u8]) {
    bytes.extend_from_slice(more).expect(rt, "room");
}

/// The file of these parts.
pub(crate) fn file_of(rt: &(impl Abort + AllocGlobal), parts: &[i16]) -> Vec<u8> {
    let mut bytes = Vec::new(rt.alloc());
    for part in parts {
        match *part {
            MAGIC => add(rt, &mut bytes, b"Obj\x01"),
            CODEC => add(rt, &mut bytes, b"\x14avro.codec"),
            NULL => add(rt, &mut bytes, b"\x08null"),
            SCHEMA => add(rt, &mut bytes, b"\x16avro.schema"),
            TEXT => add(rt, &mut bytes, &SMALL[33..101]),
            MARK => add(rt, &mut bytes, &[17; 16]),
            HEADER => add(rt, &mut bytes, &SMALL[..118]),
            byte => bytes
                .push(u8::try_from(byte).expect(rt, "a byte"))
                .expect(rt, "room"),
        }
    }
    bytes
}

/// Reads a file's blocks, at most four. A refused call is made twice, and answers the same.
pub(crate) fn read_all(rt: &(impl Abort + AllocGlobal), file: &[u8]) -> Walk {
    let mut reader = SliceReader::new(file);
    let (mut blocks, mut records) = (0u64, 0u64);
    let mut container = match Container::open(rt.alloc(), &mut reader) {
        Ok(container) => container,
        Err(fault) => return ended(blocks, records, answer_of(&fault)),
    };
    for _ in 0..4u32 {
        match container.next_block(rt.alloc(), &mut reader) {
            Ok(Some(block)) => {
                assert!(rt; block.first == records);
                blocks = blocks.saturating_add(1);
                records = records.saturating_add(block.count);
            }
            Ok(None) => return ended(blocks, records, Answer::End),
            Err(fault) => {
                let answer = answer_of(&fault);
                assert!(rt; again(rt, &mut container, &mut reader) == answer);
                return ended(blocks, records, answer);
            }
        }
    }
    ended(blocks, records, Answer::NoMemory)
}

/// Where reading ended.
fn ended(blocks: u64, records: u64, answer: Answer) -> Walk {
    Walk {
        blocks,
        records,
        answer,
    }
}

/// What the next block answers, where it is refused.
fn again(rt: &impl AllocGlobal, container: &mut Container, reader: &mut SliceReader<'_>) -> Answer {
    match container.next_block(rt.alloc(), reader) {
        Ok(_) => Answer::End,
        Err(fault) => answer_of(&fault),
    }
}

/// Passes over a file's blocks, at most four, and asks for the count before each.
pub(crate) fn pass_all(rt: &(impl Abort + AllocGlobal), file: &[u8]) -> Walk {
    let mut reader = SliceReader::new(file);
    let (mut blocks, mut records) = (0u64, 0u64);
    let mut container = match Container::open(rt.alloc(), &mut reader) {
        Ok(container) => container,
        Err(fault) => return ended(blocks, records, answer_of(&fault)),
    };
    for _ in 0..4u32 {
        let told = container.next_count(&mut reader).ok();
        match container.skip_block(&mut reader) {
            Ok(Some(count)) => {
                assert!(rt; told == Some(Some(count)));
                blocks = blocks.saturating_add(1);
                records = records.saturating_add(count);
            }
            Ok(None) => {
                assert!(rt; told == Some(None));
                return ended(blocks, records, Answer::End);
            }
            Err(fault) => return ended(blocks, records, answer_of(&fault)),
        }
    }
    ended(blocks, records, Answer::NoMemory)
}
