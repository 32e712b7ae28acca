//! Laws of the definitions, each the contract of a function that does nothing.
ghost use Rattle.icb_reader.specs.Laws.{NextAlike, NextOverMore, OpensAlike, OpensOverMore};

use icb_base::ReadAt;
use icb_fields::FromRecord;

/// What is answered over a reader of which less is known is an answer over one of which more is known.
pub fn records_hold_over_more<T: FromRecord, L: ReadAt, M: ReadAt>()
    ensures open { OpensOverMore L.ReadAt M.ReadAt }
    ensures next { NextOverMore T.FromRecord.made L.ReadAt M.ReadAt }
{}

/// A call over a reader of which less is known answers what the call over one of which more is known
/// answers, but where one of both was ended by a fault of its reader or want of memory.
pub fn less_is_answered_alike<T: FromRecord, L: ReadAt, M: ReadAt>()
    ensures open { OpensAlike L.ReadAt M.ReadAt }
    ensures next { NextAlike T.FromRecord.made L.ReadAt M.ReadAt }
{}
