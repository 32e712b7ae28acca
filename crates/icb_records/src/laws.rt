//! Laws of the definitions, each the contract of a function that does nothing.
ghost use Rattle.icb_records.specs.Laws.{BlocksHoldTheirRecords};

/// Values of a shape that are short enough are gathered into blocks that hold them, in order.
pub fn blocks_hold_their_records()
    ensures { BlocksHoldTheirRecords }
{}
