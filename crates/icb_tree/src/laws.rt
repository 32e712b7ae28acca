//! Laws of the definitions, each the contract of a function that does nothing.
ghost use Rattle.icb_tree.specs.Laws.{CurrentIsLast, FullIsHeld, NoTableIsFree};

/// The current version is the greatest n such that versions 1 to n are held; there is no table exactly
/// where version 1 isn't held, and too many versions exactly where 1,000,001 are.
pub fn current_is_last()
    ensures last { CurrentIsLast }
    ensures none { NoTableIsFree }
    ensures full { FullIsHeld }
{}
