//! The law of the definitions, the contract of a function that does nothing.
ghost use Rattle.icb_edits.specs.Laws.{OthersStay};

/// Of an object whose members were set, a name has the value that was set, and each other its own.
pub fn others_stay()
    ensures { OthersStay }
{}
