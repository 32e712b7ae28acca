//! The next block that has records.
ghost use Rattle.std.specs.Prelude.{◌≡◌, ◌≤◌, IfOk, IfSome};
ghost use Rattle.icb_container.specs.Known.{ForEachFile, ReadsOnly, reader_fault};
ghost use Rattle.icb_container.specs.Answers.{EndsAt};
ghost use Rattle.icb_reader.specs.Answers.{FindsFilled, KeepsHeader, StandsBehind};

use icb_base::ReadAt;
use icb_container::{Block, Container, ContainerFault};
use std::alloc::Global;

/// The next block that has records, or none at the end. Blocks of no records are passed over. After
/// a refusal the container stands before the block that was refused.
pub(crate) fn next_filled<R: ReadAt>(
    alloc: Global,
    container: &mut Container,
    reader: &mut R,
) -> Result<Option<Block>, ContainerFault<R::Fault>>
    requires { container.old.block ≤ container.old.place }
    ensures finds { ForEachFile (R.content reader.old)
        (FindsFilled result container.old container.new) }
    ensures header { KeepsHeader container.old container.new }
    ensures behind { IfOk result (λ next. IfSome next (StandsBehind container.new)) }
    ensures reader { ReadsOnly R.ReadAt (reader_fault result) reader.old reader.new }
{
    loop {
        let Some(block) = container.next_block(alloc, reader)? else {
            return Ok(None);
        };
        if block.count > 0 {
            return Ok(Some(block));
        }
    }
}
