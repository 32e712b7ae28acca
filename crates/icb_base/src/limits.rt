//! The names of the limits that a refusal may give.

/// Which limit a call would pass.
#[derive(Clone, Copy, Debug, PartialEq, Eq)]
pub enum Limited {
    /// Bytes or lines of a keyring.
    Keyring,
    /// Bytes of an input.
    Input,
    /// Bytes of table metadata.
    Metadata,
    /// Versions of a table.
    Versions,
    /// Snapshots of a table.
    Snapshots,
    /// Sequence numbers of a table.
    Sequence,
    /// Row ids of a table.
    RowIds,
    /// Jobs of one script.
    Jobs,
    /// Bytes of a container's header.
    Header,
    /// Bytes of a container's block, or stream blocks of a file.
    Block,
    /// Columns of a table.
    Columns,
    /// Column ids of a table.
    Ids,
}
