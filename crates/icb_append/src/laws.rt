//! Laws of the definitions, each the contract of a function that does nothing.
ghost use Rattle.icb_append.specs.Laws.{CommitIsTurn, KeysStay, ListsStay, OwnListOpens, RowsBehindAddFiles};
ghost use Rattle.icb_append.specs.Steps.{FitsWhenGrown, NewFits};
ghost use Rattle.icb_append.specs.Telling.{RunsKeepTable};

/// In the metadata that an append commits, each key-encryption key and the list of each snapshot open as
/// they did, and so does the append's own list.
pub fn lists_open()
    ensures keys { KeysStay }
    ensures lists { ListsStay }
    ensures own { OwnListOpens }
{}

/// A list that has the rows of another one and more behind them adds the files of those rows to the other
/// one's.
pub fn rows_add_files()
    ensures { RowsBehindAddFiles }
{}

/// Over a store that stands for a table and holds an append's own files, the put of the next version is a
/// turn that adds a snapshot, whose rows are the parent's and then the append's, and keeps all others.
pub fn commit_is_turn()
    ensures { CommitIsTurn }
{}

/// A new job is in step with each store, and any stays in step with a store that only grew.
pub fn fits_when_grown()
    ensures new { NewFits }
    ensures grown { FitsWhenGrown }
{}

/// From a store that stands for a table, the run of an append leaves one that stands for the table with the
/// answered snapshot, which has the rows of the current one and then those of the lines, or else for the
/// table as it was; where the store failed for one of the two.
pub fn runs_keep_table()
    ensures { RunsKeepTable }
{}
