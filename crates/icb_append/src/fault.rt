//! Why an input is refused, and why a file isn't sealed.
ghost use Rattle.std.specs.Prelude.{◌≡◌};
ghost use Rattle.icb_append.specs.Data.{fault_of};

use icb_base::Limited;
use icb_schema::NoMemory;
use icb_turns::JobFault;
use icb_types::RowFault;

/// The most bytes that a container's block may have.
const MOST_BLOCK: u64 = 134217728;

/// Why an input isn't the lines of rows.
#[derive(Debug, Drop)]
pub enum InputFault {
    /// A line is no row.
    BadLine {
        /// The number of the first such line, from 1 on.
        line: u64,
        /// Why it is none.
        row: RowFault,
    },
    /// No memory was left.
    NoMemory,
}

impl From<NoMemory> for InputFault {
    ghost use Rattle.std.specs.Prelude.{◌≡◌};
    ghost use Rattle.icb_append.specs.declared.fault.InputFault.TheVariants as variant;

    ghost from_gives = { λ _ e. e ≡ variant.NoMemory };

    fn from(_: NoMemory) -> Self {
        InputFault::NoMemory
    }
}

/// Why a file isn't sealed.
#[derive(Clone, Copy, Debug, PartialEq, Eq)]
pub enum SealFault {
    /// A container block would be longer than a reader takes it, or the file would have more stream
    /// blocks than a stream has.
    Limit,
    /// No memory was left.
    NoMemory,
}

impl SealFault {
    /// The fault of the job whose file isn't sealed.
    pub(crate) fn of_job(self) -> JobFault
        ensures { result ≡ fault_of self }
    {
        match self {
            SealFault::Limit => JobFault::Limit {
                what: Limited::Block,
                number: MOST_BLOCK,
            },
            SealFault::NoMemory => JobFault::NoMemory,
        }
    }
}
