//! Laws of the definitions, each the contract of a function that does nothing.
ghost use Rattle.icb_turns.specs.Laws.{FilePutIsTurn, PutIsLast, RestIsTurn, TurnsGrow, TurnsKeepRows, TurnsLeaveOthers};

/// A store in which a turn put at most one object only grew, and holds at each path at which the turn may
/// not put one what it held; and each snapshot has the rows that it had.
pub fn turns_grow()
    ensures grows { TurnsGrow }
    ensures others { TurnsLeaveOthers }
    ensures rows { TurnsKeepRows }
{}

/// A turn that puts nothing, or a file of the job's own that is no version, changes nothing; and a
/// version that is put behind the last one is the last one.
pub fn puts_are_turns()
    ensures rest { RestIsTurn }
    ensures file { FilePutIsTurn }
    ensures version { PutIsLast }
{}
