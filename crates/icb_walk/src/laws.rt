//! Laws of walks, each the contract of a function that does nothing.

ghost use Rattle.icb_walk.specs.Laws.{FitsWhenGrown, UnopenedFits, UnopenedHasAll};

/// A walk that fits what a store held fits what it holds after it only grew.
pub fn walk_fits_when_grown()
    ensures { FitsWhenGrown }
{}

/// A walk that has opened nothing fits every store, and all of the tree below its list is left to it.
pub fn walk_begins_whole()
    ensures fits { UnopenedFits }
    ensures left { UnopenedHasAll }
{}
