//! Laws of the definitions, each the contract of a function that does nothing.
ghost use Rattle.icb_container.specs.Laws.{CountIsTold, CountsAlike, CountsOverMore, OpensAlike, OpensOverMore, ReadsAlike, ReadsOverMore, SkippingIsReading, SkipsAlike, SkipsOverMore};

use icb_base::ReadAt;

/// Reading a block, passing over it and telling its count agree.
pub fn steps_agree()
    ensures skipping { SkippingIsReading }
    ensures count { CountIsTold }
{}

/// What is answered over a reader of which less is known is an answer over one of which more is known.
pub fn answers_hold_over_more<L: ReadAt, M: ReadAt>()
    ensures open { OpensOverMore L.ReadAt M.ReadAt }
    ensures next_block { ReadsOverMore L.ReadAt M.ReadAt }
    ensures skip_block { SkipsOverMore L.ReadAt M.ReadAt }
    ensures next_count { CountsOverMore L.ReadAt M.ReadAt }
{}

/// A call over a reader of which less is known answers what the call over one of which more is known
/// answers, but where one of both was ended by a fault of its reader or want of memory.
pub fn less_is_answered_alike<L: ReadAt, M: ReadAt>()
    ensures open { OpensAlike L.ReadAt M.ReadAt }
    ensures next_block { ReadsAlike L.ReadAt M.ReadAt }
    ensures skip_block { SkipsAlike L.ReadAt M.ReadAt }
    ensures next_count { CountsAlike L.ReadAt M.ReadAt }
{}
