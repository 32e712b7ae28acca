//! A manifest list over a reader with gaps: a row is given where each byte of its block is there, and else the
//! reader's fault, behind which the list stands where it stood.
use crate::lists::{any_row, any_schema};
use crate::made::{block_of, file_of};
use icb_base::ReadAt;
use icb_container::ContainerFault;
use icb_list::{List, ListFault};
use std::process::Abort;
use std::test::*;

/// The bytes that are asked for aren't all there.
#[derive(Clone, Copy, Debug, PartialEq, Eq)]
struct Gap;

/// A file of which the bytes from one place to another aren't there.
#[derive(Debug, Drop)]
struct GapReader<'a> {
    bytes: &'a [u8],
    from: usize,
    to: usize,
}

impl ReadAt for GapReader<'_> {
    ghost use Rattle.std.specs.Prelude.{◌≡◌, ◌≤◌, ◌+◌, ◌⊎◌, List, ℕ, length, take, drop, refl};
    ghost use Rattle.std.proofs.Common.{◌∙◌};
    ghost use Rattle.icb_base.specs.Contents.{HasPart};

    type Fault = Gap;

    ghost content = { λ s known. (length known ≡ length s.bytes.now)
        × ((at : ℕ) (part : List ℕ) → at + length part ≤ length s.bytes.now
        → (at + length part ≤ s.from) ⊎ (s.to ≤ at)
        → part ≡ take (length part) (drop at s.bytes.now) → HasPart known at part) };

    ghost size = { λ s. length s.bytes.now };

    ghost keeps = { λ x y. (y.bytes.now ≡ x.bytes.now) × (y.from ≡ x.from) × (y.to ≡ x.to) };

    ghost calm = { λ x y. Unit {0} };

    ghost blames = { λ x y e. Unit {0} };

    ghost known_size = { λ x known is. is.0 };

    ghost kept_at_rest = { λ x. (refl, refl, refl) };

    ghost kept_twice = { λ x y z first second.
        (second.0 ∙ first.0, second.1 ∙ first.1, second.2 ∙ first.2) };

    ghost calm_at_rest = { λ x. tt };

    ghost calm_twice = { λ x y z first second. tt };

    ghost blamed_since = { λ x y z e kept calm blamed. tt };

    fn length(&self) -> u64 {
        self.bytes.len() as u64
    }

    fn read_at(&mut self, at: u64, out: &mut [u8]) -> Result<(), Gap> {
        let at = at as usize;
        if at < self.to && self.from < at + out.len() {
            return Err(Gap);
        }
        out.copy_from_slice(&self.bytes[at..at + out.len()]);
        Ok(())
    }
}

/// The fault is that of the reader.
fn is_gap(fault: &ListFault<Gap>) -> bool {
    matches!(fault, ListFault::Container(ContainerFault::Reader(Gap)))
}

/// A list of two rows in two blocks, the length of its header, and that of a block.
fn two_blocks(rt: &(impl Abort + AllocGlobal)) -> (Vec<u8>, usize, usize) {
    let schema = any_schema(rt);
    let first = block_of(rt, &schema, &[any_row(rt, 0)]);
    let second = block_of(rt, &schema, &[any_row(rt, 1)]);
    let header = file_of(rt, &schema, &[]).as_slice().len();
    let file = file_of(rt, &schema, &[first, second]);
    let block = file.as_slice().len().saturating_sub(header) / 2;
    let mut bytes = Vec::new(rt.alloc());
    bytes.extend_from_slice(file.as_slice()).expect(rt, "room");
    (bytes, header, block)
}

#[test]
fn gaps_in_the_header_and_the_first_block(rt: HostRuntime) {
    let (file, header, block) = two_blocks(&rt);
    let behind = header.saturating_add(block);
    for (at, opens) in [
        (0, false),
        (header.saturating_sub(1), false),
        (header, true),
        (header.saturating_add(block / 2), true),
        (behind.saturating_sub(1), true),
    ] {
        let mut reader = GapReader {
            bytes: file.as_slice(),
            from: at,
            to: at.saturating_add(1),
        };
        match List::open(rt.alloc(), &mut reader) {
            Err(fault) => assert!(rt; !opens && is_gap(&fault)),
            Ok(mut list) => {
                assert!(rt; opens);
                for _ in 0..2 {
                    let fault = list.next(rt.alloc(), &mut reader).err();
                    assert!(rt; fault.is_some_and(|fault| is_gap(&fault)) && list.place() == 0);
                }
            }
        }
    }
}

#[test]
fn a_gap_in_the_second_block_that_is_filled(rt: HostRuntime) {
    let (file, header, block) = two_blocks(&rt);
    for within in [0, block / 2, block.saturating_sub(1)] {
        let at = header.saturating_add(block).saturating_add(within);
        let mut reader = GapReader {
            bytes: file.as_slice(),
            from: at,
            to: at.saturating_add(1),
        };
        let mut list = List::open(rt.alloc(), &mut reader).expect(&rt, "a list");
        let row = list.next(rt.alloc(), &mut reader).expect(&rt, "a row");
        assert!(rt; row.is_some_and(|row| row.content == 0));
        let first = list.place();
        for _ in 0..2 {
            let fault = list.next(rt.alloc(), &mut reader).err();
            assert!(rt; fault.is_some_and(|fault| is_gap(&fault)) && list.place() == first);
        }
        reader.to = 0;
        let row = list.next(rt.alloc(), &mut reader).expect(&rt, "a row");
        assert!(rt; row.is_some_and(|row| row.content == 1) && first < list.place());
        let end = list.next(rt.alloc(), &mut reader).expect(&rt, "the end");
        assert!(rt; end.is_none());
    }
}
