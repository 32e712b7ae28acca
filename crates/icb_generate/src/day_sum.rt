//! The sum of the days that a scan of the column `day` prints.
ghost use Rattle.std.specs.Prelude.{◌≡◌};
ghost use Rattle.icb_generate.specs.Days.{SumsDays, behind};

/// The sum of the days of whole lines, and the day of the line that is begun.
#[derive(Clone, Copy, Debug, PartialEq, Eq)]
pub struct DaySum {
    /// The sum, up to 2^64 - 1.
    pub sum: u64,
    /// The day, as far as its digits were read.
    pub day: u64,
}

impl DaySum {
    /// The sum behind one more byte.
    fn behind(self, byte: u8) -> DaySum
        ensures { result ≡ behind self byte }
    {
        if byte.is_ascii_digit() {
            return DaySum {
                sum: self.sum,
                day: self
                    .day
                    .saturating_mul(10)
                    .saturating_add(u64::from(byte - b'0')),
            };
        }
        if byte == b'\n' {
            return DaySum {
                sum: self.sum.saturating_add(self.day),
                day: 0,
            };
        }
        self
    }
}

/// The sum of the days whose lines a text is, up to 2^64 - 1.
pub fn sum_of_days(text: &[u8]) -> u64
    ensures { SumsDays text.now result }
{
    let mut total = DaySum { sum: 0, day: 0 };
    for byte in text {
        total = total.behind(*byte);
    }
    total.sum
}
