//! Why a scan doesn't show all rows that are asked for.
ghost use Rattle.std.specs.Prelude.{◌≡◌};
ghost use Rattle.icb_scan.specs.Start.{of_tree, of_words};

use icb_rows::RangeFault;
use icb_schema::Text;
use icb_walk::TreeFault;

/// Why a scan doesn't show all rows that are asked for.
#[derive(Debug, Drop)]
pub enum ScanFault {
    /// The snapshot isn't there, its list isn't read, or a file isn't read further, or the store failed.
    Tree(TreeFault),
    /// No column has this name.
    NoColumn {
        /// The name.
        name: Text,
    },
    /// An end of the range is null, or no value of the column of this name.
    BadRange {
        /// The name.
        name: Text,
    },
    /// A write failed.
    Sink,
    /// No memory was left.
    NoMemory,
}

/// The refusal of a walk, as a scan's.
pub(crate) fn tree_refused(fault: TreeFault) -> ScanFault
    ensures { result ≡ of_tree fault }
{
    match fault {
        TreeFault::NoMemory => ScanFault::NoMemory,
        other => ScanFault::Tree(other),
    }
}

/// The refusal of a query's words, as a scan's.
pub(crate) fn words_refused(fault: RangeFault) -> ScanFault
    ensures { result ≡ of_words fault }
{
    match fault {
        RangeFault::NoColumn { name } => ScanFault::NoColumn { name },
        RangeFault::BadRange { name } => ScanFault::BadRange { name },
        RangeFault::NoMemory => ScanFault::NoMemory,
    }
}
