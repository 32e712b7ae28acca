//! Laws of the definitions, each the contract of a function that does nothing.
ghost use Rattle.icb_written.specs.Laws.{HeldRowsAreRead, SealedIsPlain, SealedRowsAreRead, WrittenBoundsHold, WrittenEntriesShow, WrittenFileIsListed, WrittenListRowsShow, WrittenManifestIsListed};

/// A file that holds rows is read as them in a table with their columns.
pub fn written_rows_are_read()
    ensures { HeldRowsAreRead }
{}

/// An object that is the sealed stream of a plaintext has it; so a sealed data file shows the rows
/// that were written.
pub fn sealed_files_show()
    ensures plain { SealedIsPlain }
    ensures rows { SealedRowsAreRead }
{}

/// The bounds of rows bound the rows that are read.
pub fn written_bounds_hold()
    ensures { WrittenBoundsHold }
{}

/// A data file whose record names its own path and key metadata is listed so.
pub fn written_file_is_listed()
    ensures { WrittenFileIsListed }
{}

/// An object that is the sealed stream of a manifest shows its entries, and one of a list its rows.
pub fn written_records_show()
    ensures entries { WrittenEntriesShow }
    ensures rows { WrittenListRowsShow }
{}

/// A manifest whose row names its own path and key metadata is listed so.
pub fn written_manifest_is_listed()
    ensures { WrittenManifestIsListed }
{}
