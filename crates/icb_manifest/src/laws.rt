//! Laws of the definitions, each the contract of a function that does nothing.
ghost use Rattle.icb_manifest.specs.Laws.{EntriesReadBack};

/// The value that is written of an entry is read as that entry.
pub fn entries_read_back()
    ensures { EntriesReadBack }
{}
