//! Input, output and random bytes in memory.

use crate::callers::{draws, takes, writes, writes_both};
use crate::helpers::bytes;
use icb_base::{ByteDraws, Failed, MemSink, MemSource};

#[test]
fn input_is_taken_in_pieces(rt: HostRuntime) {
    let fails = vec![in rt.alloc(); 1u64].expect(&rt, "a list");
    let mut source = MemSource::new(bytes(&rt, b"abcde"), 3, fails);
    let mut out = [0u8; 4];
    assert!(rt; takes(&mut source, &mut out) == Ok(3) && out == *b"abc\0");
    assert!(rt; takes(&mut source, &mut out) == Err(Failed));
    assert!(rt; takes(&mut source, &mut out) == Ok(2) && out == *b"dec\0");
    assert!(rt; takes(&mut source, &mut out) == Ok(0));
}

#[test]
fn a_failing_write_appends_half(rt: HostRuntime) {
    let fails = vec![in rt.alloc(); 1u64].expect(&rt, "a list");
    let mut sink = MemSink::new(rt.alloc(), fails);
    assert!(rt; writes(&mut sink, b"ab") == Ok(()));
    assert!(rt; writes(&mut sink, b"12345") == Err(Failed));
    assert!(rt; writes(&mut sink, b"cd") == Ok(()));
    let all: &[u8] = b"ab12cd";
    assert!(rt; sink.written() == all);
}

#[test]
fn given_bytes_are_drawn_in_order(rt: HostRuntime) {
    let fails = vec![in rt.alloc(); 1u64].expect(&rt, "a list");
    let mut random = ByteDraws::new(bytes(&rt, b"123456"), fails);
    let mut out = [0u8; 4];
    assert!(rt; draws(&mut random, &mut out) == Ok(()) && out == *b"1234");
    assert!(rt; draws(&mut random, &mut out[..1]) == Err(Failed));
    assert!(rt; draws(&mut random, &mut out) == Err(Failed));
    assert!(rt; draws(&mut random, &mut out[..2]) == Ok(()) && out == *b"5634");
}

#[test]
fn two_texts_are_written(rt: HostRuntime) {
    let fails = vec![in rt.alloc(); 3u64].expect(&rt, "a list");
    let mut sink = MemSink::new(rt.alloc(), fails);
    assert!(rt; writes_both(&mut sink, b"ab", b"cd") == Ok(()));
    assert!(rt; writes_both(&mut sink, b"ef", b"ghi") == Err(Failed));
    assert!(rt; sink.written() == b"abcdefg".as_slice());
}
