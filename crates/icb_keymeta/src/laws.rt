//! Laws of the definitions: functions that do nothing and whose contracts are the laws.
ghost use Rattle.icb_keymeta.specs.Laws.{WhatIsReadWasSpelled, WhatIsSpelledIsRead};

/// Reading is spelling, both ways: what is read was spelled by all of the bytes, and what is spelled
/// is read.
pub fn decoding_is_spelling()
    ensures found { WhatIsReadWasSpelled }
    ensures again { WhatIsSpelledIsRead }
{}
