//! What a step of a job answers.
use crate::versions::Versions;
use icb_base::{Limited, ObjPath};
use icb_schema::Text;
use icb_types::RowFault;
use icb_walk::TreeFault;

/// What a step answers.
#[derive(Debug, Drop)]
pub enum Step {
    /// The job goes on with another step.
    Again,
    /// The job has put a version, with which it ended.
    Done {
        /// The snapshot that it added, if it is one that adds rows.
        snapshot: Option<i64>,
        /// The version.
        version: u64,
    },
    /// The job ended without it.
    Refused(JobFault),
}

/// Why a job ended without a version of its own, in the order in which it looks.
#[derive(Debug, Drop)]
pub enum JobFault {
    /// Version 1 isn't held.
    NoTable,
    /// The metadata isn't in the form.
    BadMeta {
        /// The first field that isn't.
        field: Text,
    },
    /// A line of rows isn't in the form.
    BadInput {
        /// The first such line's number, from 1.
        line: u64,
        /// Why it isn't.
        row: RowFault,
    },
    /// The table has a form for which there is no such job.
    Cannot {
        /// Which form.
        what: CannotWhat,
    },
    /// The new master key is the table's own.
    SameKey {
        /// Its id.
        id: Text,
    },
    /// The new master key's id is that of one of the table's keys.
    KeyName {
        /// The id.
        id: Text,
    },
    /// A snapshot's tree isn't read, or a key isn't opened.
    Tree(TreeFault),
    /// The path of a new file is held.
    NameTaken {
        /// The path.
        path: ObjPath,
    },
    /// Others put the versions that the job tried to put.
    Contended {
        /// The versions, in the order in which they were found.
        versions: Versions,
    },
    /// One more would pass a limit.
    Limit {
        /// Which limit.
        what: Limited,
        /// The limit.
        number: u64,
    },
    /// A call of the generator of random bytes failed.
    Random,
    /// A call of the store failed.
    Store,
    /// No memory was left.
    NoMemory,
}

/// A form of a table for which there is no such job.
#[derive(Clone, Copy, Debug, PartialEq, Eq)]
pub enum CannotWhat {
    /// It has no master key or no key that its master sealed.
    NotEncrypted,
    /// Its default partition spec has fields.
    Partitioned,
    /// Its default sort order has fields.
    Sorted,
    /// A column's name can't be written to a data file.
    ColumnName,
    /// A manifest's rows have no ids.
    NoRowIds,
}
