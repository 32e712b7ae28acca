//! The items of an array or a map, which come in blocks.
ghost use Rattle.std.specs.Prelude.{◌≡◌, ◌<◌, ◌^◌, IfOk};
ghost use Rattle.icb_avro.specs.Answers.{Gives};
ghost use Rattle.icb_avro.specs.Blocks.{block_begins, next_item, size_begins, sized, standing};

use crate::fault::{AvroCause, Refusal};
use crate::numbers::{long_at, refuse};

/// Where a loop over items stands.
#[derive(Clone, Copy, Debug)]
pub(crate) struct Blocks<'a> {
    /// An item begins here.
    pub(crate) at_item: bool,
    /// How many more items the block has.
    left: u64,
    /// The size that the block says, and how many bytes were left at its first item.
    size: Option<(u64, u64)>,
    /// The bytes from here on.
    pub(crate) rest: &'a [u8],
}

impl<'a> Blocks<'a> {
    /// At the first item of a block that begins here, or behind the count 0. The count is judged
    /// before an item is read.
    #[tactic(auto, unfolding(crate::specs::Blocks::block_begins))]
    pub(crate) fn begin(all: &'a [u8]) -> Result<Self, Refusal>
        ensures gives { Gives standing result (block_begins all.now) }
        ensures small { IfOk result (λ b. b.left < 2 ^ 64) }
    {
        let (count, rest) = long_at(all)?;
        if count == 0 {
            return Ok(Blocks {
                at_item: false,
                left: 0,
                size: None,
                rest,
            });
        }
        let items = count.unsigned_abs();
        if items > rest.len() as u64 {
            return Err(refuse(all, AvroCause::Count));
        }
        let left = items - 1;
        if count < 0 {
            return Blocks::sized(left, rest);
        }
        Ok(Blocks {
            at_item: true,
            left,
            size: None,
            rest,
        })
    }

    /// At the first item of a block, whose size is said here.
    #[tactic(auto, unfolding(crate::specs::Blocks::size_begins))]
    fn sized(left: u64, all: &'a [u8]) -> Result<Self, Refusal>
        ensures gives { Gives standing result (size_begins left all.now) }
        ensures small { IfOk result (λ b. b.left < 2 ^ 64) }
    {
        let (size, rest) = long_at(all)?;
        if size < 0 {
            return Err(refuse(all, AvroCause::Negative));
        }
        Ok(Blocks {
            at_item: true,
            left,
            size: Some((size as u64, rest.len() as u64)),
            rest,
        })
    }

    /// Goes on behind an item, where the rest begins.
    #[tactic(auto, unfolding(crate::specs::Blocks::next_item))]
    pub(crate) fn next(self, rest: &'a [u8]) -> Result<Self, Refusal>
        ensures gives { Gives standing result (next_item self.entry.left self.entry.size rest.now) }
        ensures small { IfOk result (λ b. b.left < 2 ^ 64) }
    {
        if self.left > 0 {
            return Ok(Blocks {
                at_item: true,
                left: self.left - 1,
                size: self.size,
                rest,
            });
        }
        check_size(self.size, rest)?;
        Blocks::begin(rest)
    }
}

/// A block that says its size has taken as many bytes.
fn check_size(size: Option<(u64, u64)>, rest: &[u8]) -> Result<(), Refusal>
    ensures { Gives (λ _. rest.now) result (sized size rest.now) }
{
    match size {
        Some((size, from)) => {
            if size > from || from - size != rest.len() as u64 {
                return Err(refuse(rest, AvroCause::Size));
            }
            Ok(())
        }
        None => Ok(()),
    }
}
