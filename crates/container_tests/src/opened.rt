//! A container of 138 bytes, opened and read: in memory, and sealed with blocks of 64 bytes through a stream
//! over a store.
use crate::files::{Answer, SCHEMA_TEXT, SMALL, Walk, answer_of, read_all};
use icb_avro::{AvroCause, Cursor};
use icb_base::{ByteDraws, Bytes, KeyMeta, MemStore, ObjPath, SliceReader};
use icb_container::{Container, ContainerFault};
use icb_seal::{FileKey, KeySize};
use icb_stream::{Attached, Stream, StreamFault, seal_stream};
use std::process::Abort;
use std::test::*;

#[test]
fn two_records(rt: HostRuntime) {
    let alloc = rt.alloc();
    let mut reader = SliceReader::new(SMALL.as_slice());
    let mut container = Container::open(alloc, &mut reader).expect(&rt, "a container");
    let text = container.schema().print(alloc).expect(&rt, "room");
    assert!(rt; text.as_slice() == SCHEMA_TEXT);
    assert!(rt; container.next_count(&mut reader).ok() == Some(Some(2)));
    let block = container
        .next_block(alloc, &mut reader)
        .expect(&rt, "a block");
    let block = block.expect(&rt, "not the end");
    assert!(rt; block.first == 0 && block.count == 2 && block.place == 120);
    let mut cursor = Cursor::new(block.bytes.as_slice());
    assert!(rt; cursor.long() == Ok(1) && cursor.long() == Ok(-1) && cursor.place() == 2);
    assert!(rt; container.next_count(&mut reader).ok() == Some(None));
    assert!(rt; container.skip_block(&mut reader).ok() == Some(None));
    let end = container
        .next_block(alloc, &mut reader)
        .expect(&rt, "the end");
    assert!(rt; end.is_none());
}

#[test]
fn another_codec_is_named(rt: HostRuntime) {
    let mut file = SMALL;
    file[17] = b's';
    file[18] = b'n';
    file[19] = b'a';
    file[20] = b'p';
    let mut reader = SliceReader::new(file.as_slice());
    match Container::open(rt.alloc(), &mut reader) {
        Err(ContainerFault::Codec { name }) => assert!(rt; name.as_str() == "snap"),
        _ => assert!(rt; false),
    }
}

#[test]
fn cut_and_changed(rt: HostRuntime) {
    let no_blocks = Walk {
        blocks: 0,
        records: 0,
        answer: Answer::End,
    };
    assert!(rt; read_all(&rt, &SMALL[..118]) == no_blocks);
    let cut = Walk {
        answer: Answer::Avro(119, AvroCause::End),
        ..no_blocks
    };
    assert!(rt; read_all(&rt, &SMALL[..137]) == cut);
    let mut file = SMALL;
    file[137] = 16;
    let changed = Walk {
        answer: Answer::Sync(0),
        ..no_blocks
    };
    assert!(rt; read_all(&rt, file.as_slice()) == changed);
}

/// The file in a stream with blocks of 64 bytes, with its key metadata.
fn sealed(rt: &(impl Abort + AllocGlobal)) -> (Bytes, KeyMeta) {
    let bytes = Bytes::from_slice(rt.alloc(), &[7; 24]).expect(rt, "bytes");
    let mut draws = ByteDraws::new(bytes, Vec::new(rt.alloc()));
    let key = FileKey::draw(&mut draws, KeySize::Bytes16).expect(rt, "a key");
    seal_stream(rt.alloc(), key, b"data/x", 64, SMALL.as_slice()).expect(rt, "a stream")
}

/// What opening the container of a stream, in a store, answers; and how many records its first block has.
fn read_sealed(rt: &(impl Abort + AllocGlobal), object: Bytes, meta: &KeyMeta) -> Walk {
    let path = ObjPath::read(rt.alloc(), b"data/x").expect(rt, "a path");
    let copy = ObjPath::read(rt.alloc(), b"data/x").expect(rt, "a path");
    let mut store = MemStore::new(rt.alloc(), Vec::new(rt.alloc()));
    store.set(copy, object).expect(rt, "room");
    let opened = Stream::open(rt.alloc(), &mut store, &path, meta, 230);
    let mut stream = opened.expect(rt, "a stream");
    let mut reader = Attached {
        stream: &mut stream,
        store: &mut store,
    };
    let mut read = Walk {
        blocks: 0,
        records: 0,
        answer: Answer::End,
    };
    match Container::open(rt.alloc(), &mut reader) {
        Ok(mut container) => {
            let block = container.next_block(rt.alloc(), &mut reader);
            let block = block.expect(rt, "a block").expect(rt, "not the end");
            read.records = block.count;
        }
        Err(fault) => {
            let refused = match &fault {
                ContainerFault::Reader(StreamFault::Block { number }) => *number,
                _ => 9,
            };
            assert!(rt; refused == 1);
            read.answer = answer_of(&fault);
        }
    }
    read
}

#[test]
fn through_a_stream(rt: HostRuntime) {
    let (object, meta) = sealed(&rt);
    let mut bytes = object.as_slice().to_vec(rt.alloc()).expect(&rt, "room");
    assert!(rt; bytes.len() == 230);
    let whole = read_sealed(&rt, object, &meta);
    assert!(rt; whole.records == 2 && whole.answer == Answer::End);
    // Cipher block 1 has the bytes from 100 to 191.
    bytes[150] ^= 1;
    let changed = read_sealed(&rt, Bytes::from_vec(bytes), &meta);
    assert!(rt; changed.records == 0 && changed.answer == Answer::Reader);
}
