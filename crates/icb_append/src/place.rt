//! Where a job stands, and what a turn comes to.

/// What a job does at its next step.
#[derive(Clone, Copy, Debug, PartialEq, Eq)]
pub(crate) enum Place {
    /// It asks for the size of this version, before which all are held.
    Probing(u64),
    /// It reads the metadata of this version, which its last probe found current.
    Reading(u64),
    /// It puts its next data file, or its manifest behind the last one.
    Filing,
    /// It reads the list of this snapshot, which is the parent of its own.
    Listing(i64),
    /// It puts its list.
    Writing,
    /// It puts its version.
    Committing,
    /// Nothing.
    Ended,
}

/// What a turn comes to.
#[derive(Clone, Copy, Debug, PartialEq, Eq)]
pub(crate) enum Turn {
    /// The job goes on here.
    To(Place),
    /// Its version was put.
    Done {
        /// The snapshot that it added.
        snapshot: i64,
        /// The version.
        version: u64,
    },
}
