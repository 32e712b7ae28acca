//! Why a table's current metadata isn't read.
use icb_base::Limited;
use icb_schema::Text;

/// Why a table's current metadata isn't read.
#[derive(Debug, Drop)]
pub enum CurrentFault {
    /// Version 1 isn't held.
    NoTable,
    /// There are more versions than the limit, or the metadata is longer than its own.
    Limit {
        /// Which limit.
        what: Limited,
        /// The limit.
        number: u64,
    },
    /// The metadata isn't in the form.
    BadMeta {
        /// The first field that isn't; empty where the text is no JSON object or has a number that isn't a
        /// whole one of 64 bits.
        field: Text,
    },
    /// A call of the store failed.
    Store,
    /// No memory was left.
    NoMemory,
}
