//! A reader with gaps: each call reads its own bytes and no others, and where one isn't there its answer is
//! the reader's fault.
ghost use Rattle.std.specs.Prelude.{◌≡◌, ◌≤◌, ◌<◌, ◌+◌, ◌^◌, length};

use crate::files::{Answer, HEADER, MARK, answer_of, file_of};
use icb_base::{ReadAt, SliceReader};
use icb_container::Container;
use std::process::Abort;
use std::test::*;

/// The bytes that are asked for aren't all there.
#[derive(Clone, Copy, Debug, PartialEq, Eq)]
pub(crate) struct Gap;

/// A file of which the bytes from one place to another aren't there.
#[derive(Debug, Drop)]
pub(crate) struct GapReader<'a> {
    pub(crate) bytes: &'a [u8],
    pub(crate) from: usize,
    pub(crate) to: usize,
}

impl ReadAt for GapReader<'_> {
    ghost use Rattle.std.specs.Prelude.{◌≡◌, ◌≤◌, ◌+◌, ◌⊎◌, List, ℕ, length, take, drop, refl};
    ghost use Rattle.std.proofs.Common.{◌∙◌};
    ghost use Rattle.icb_base.specs.Contents.{HasPart};

    type Fault = Gap;

    ghost content = { λ s known. (length known ≡ length s.bytes.now)
        × ((at : ℕ) (part : List ℕ) → at + length part ≤ length s.bytes.now
        → (at + length part ≤ s.from) ⊎ (s.to ≤ at)
        → part ≡ take (length part) (drop at s.bytes.now) → HasPart known at part) };

    ghost size = { λ s. length s.bytes.now };

    ghost keeps = { λ x y. (y.bytes.now ≡ x.bytes.now) × (y.from ≡ x.from) × (y.to ≡ x.to) };

    ghost calm = { λ x y. Unit {0} };

    ghost blames = { λ x y e. Unit {0} };

    ghost known_size = { λ x known is. is.0 };

    ghost kept_at_rest = { λ x. (refl, refl, refl) };

    ghost kept_twice = { λ x y z first second.
        (second.0 ∙ first.0, second.1 ∙ first.1, second.2 ∙ first.2) };

    ghost calm_at_rest = { λ x. tt };

    ghost calm_twice = { λ x y z first second. tt };

    ghost blamed_since = { λ x y z e kept calm blamed. tt };

    fn length(&self) -> u64 {
        self.bytes.len() as u64
    }

    fn read_at(&mut self, at: u64, out: &mut [u8]) -> Result<(), Gap> {
        let at = at as usize;
        if at < self.to && self.from < at + out.len() {
            return Err(Gap);
        }
        out.copy_from_slice(&self.bytes[at..at + out.len()]);
        Ok(())
    }
}

/// A file with a block of 100 records, whose count begins at 118, its size at 120, its records at 122, and its
/// marker at 222, and a block of two at 238.
fn hundred(rt: &(impl Abort + AllocGlobal)) -> Vec<u8> {
    let mut file = file_of(rt, &[HEADER, 200, 1, 200, 1]);
    file.extend_from_slice(&[2; 100]).expect(rt, "room");
    let more = file_of(rt, &[MARK, 4, 4, 2, 1, MARK]);
    file.extend_from_slice(more.as_slice()).expect(rt, "room");
    file
}

/// Opens a file of which each byte is there.
fn opened(rt: &(impl Abort + AllocGlobal), file: &[u8]) -> Container {
    let mut reader = SliceReader::new(file);
    Container::open(rt.alloc(), &mut reader).expect(rt, "a container")
}

/// A gap, and whether the next count is told, the block is passed over, and it is read. A number is read with
/// the bytes that may follow it.
const GAPS: [(usize, usize, bool, bool, bool); 9] = [
    // In the header.
    (0, 118, true, true, true),
    // In the count.
    (118, 119, false, false, false),
    (119, 120, false, false, false),
    // In the size.
    (121, 122, false, false, false),
    // In the records.
    (186, 222, true, true, false),
    (221, 222, true, true, false),
    // In the marker.
    (222, 223, true, false, false),
    (237, 238, true, false, false),
    // In the next block.
    (238, 258, true, true, true),
];

#[test]
fn gaps_in_a_block(rt: HostRuntime) {
    let file = hundred(&rt);
    for (from, to, counted, passed, read) in GAPS {
        let mut reader = GapReader {
            bytes: file.as_slice(),
            from,
            to,
        };
        let mut container = opened(&rt, file.as_slice());
        match container.next_block(rt.alloc(), &mut reader) {
            Ok(block) => assert!(rt; read && block.is_some_and(|block| block.count == 100)),
            Err(fault) => assert!(rt; !read && answer_of(&fault) == Answer::Reader),
        }
        let mut container = opened(&rt, file.as_slice());
        match container.next_count(&mut reader) {
            Ok(count) => assert!(rt; counted && count == Some(100)),
            Err(fault) => assert!(rt; !counted && answer_of(&fault) == Answer::Reader),
        }
        match container.skip_block(&mut reader) {
            Ok(count) => assert!(rt; passed && count == Some(100)),
            Err(fault) => assert!(rt; !passed && answer_of(&fault) == Answer::Reader),
        }
    }
}

#[test]
fn gaps_in_the_header(rt: HostRuntime) {
    let file = hundred(&rt);
    for at in 0..118usize {
        let mut reader = GapReader {
            bytes: file.as_slice(),
            from: at,
            to: at + 1,
        };
        match Container::open(rt.alloc(), &mut reader) {
            Ok(_) => assert!(rt; false),
            Err(fault) => assert!(rt; answer_of(&fault) == Answer::Reader),
        }
    }
    let mut reader = GapReader {
        bytes: file.as_slice(),
        from: 186,
        to: 258,
    };
    let opened = Container::open(rt.alloc(), &mut reader);
    assert!(rt; opened.is_ok());
}
