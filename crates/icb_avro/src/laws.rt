//! Laws of the definitions: functions that do nothing and whose contracts are the laws.
ghost use Rattle.icb_avro.specs.Laws.{NumbersAreShortest, OneValue, WhatIsReadWasSpelled, WhatIsSpelledIsRead, WhatIsWrittenIsSpelled};

/// Reading is spelling, both ways: what is read was spelled, and what is spelled is read, whatever
/// follows it; so it stands for one value.
pub fn reading_is_spelling()
    ensures found { WhatIsReadWasSpelled }
    ensures again { WhatIsSpelledIsRead }
    ensures one { OneValue }
{}

/// What is written of a value is one of its spellings, with the shortest numbers.
pub fn writing_is_spelling()
    ensures spelled { WhatIsWrittenIsSpelled }
    ensures shortest { NumbersAreShortest }
{}
