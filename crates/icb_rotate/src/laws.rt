//! Laws of the definitions, each the contract of a function that does nothing.
ghost use Rattle.icb_rotate.specs.Keeping.{FitsWhenGrown, NewFits};
ghost use Rattle.icb_rotate.specs.Laws.{KeysStay, OnlyMaster, RotatedIsTable};

/// The keys of a table whose master was replaced open as they did, under a keyring with the new master
/// alone too.
pub fn keys_stay()
    ensures keys { KeysStay }
    ensures only { OnlyMaster }
{}

/// The files of a table whose master was replaced hold the same table.
pub fn rotated_is_table()
    ensures { RotatedIsTable }
{}

/// A new job is in step with each store, and any stays in step with a store that only grew.
pub fn fits_when_grown()
    ensures new { NewFits }
    ensures grown { FitsWhenGrown }
{}
