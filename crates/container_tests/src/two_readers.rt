//! One file behind two readers, of which the first knows less: both openings say the same of it, but where
//! one of them was ended by its reader or want of memory.
ghost use Rattle.std.specs.Prelude.{List, ℕ, Option};
ghost use Rattle.icb_container.specs.Less.{LessIsKnown, SayTheSame, said};
ghost use Rattle.icb_container.specs.Opened.{state_of};

use crate::files::{Answer, SMALL, answer_of};
use crate::gaps::GapReader;
use icb_base::{ReadAt, SliceReader};
use icb_container::{Container, ContainerFault, less_is_answered_alike};
use std::alloc::Global;
use std::test::*;

/// Opens a container over each of both readers.
fn opened_twice<L: ReadAt, M: ReadAt>(
    alloc: Global,
    less: &mut L,
    more: &mut M,
) -> (
    Result<Container, ContainerFault<L::Fault>>,
    Result<Container, ContainerFault<M::Fault>>,
)
    ensures { (all : List (Option ℕ)) → M.content more.old all
        → LessIsKnown (L.content less.old) (M.content more.old)
        → SayTheSame (said state_of result.0) (said state_of result.1) }
{
    let first = Container::open(alloc, less);
    let second = Container::open(alloc, more);
    less_is_answered_alike::<L, M>();
    (first, second)
}

#[test]
fn a_gap_in_the_header(rt: HostRuntime) {
    for at in 116..120usize {
        let mut less = GapReader {
            bytes: SMALL.as_slice(),
            from: at,
            to: at + 1,
        };
        let mut more = SliceReader::new(SMALL.as_slice());
        let (first, second) = opened_twice(rt.alloc(), &mut less, &mut more);
        assert!(rt; second.is_ok());
        match first {
            Ok(_) => assert!(rt; at >= 118),
            Err(fault) => assert!(rt; at < 118 && answer_of(&fault) == Answer::Reader),
        }
    }
}
