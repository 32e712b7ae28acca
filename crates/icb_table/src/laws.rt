//! Laws of the definitions, each the contract of a function that does nothing.
ghost use Rattle.icb_list.specs.Rows.{list_row};
ghost use Rattle.icb_manifest.specs.Entries.{entry_of};
ghost use Rattle.icb_table.specs.Laws.{AllowedByLess, BlocksDiffer, CommittedIsOwn, DataRowsAreContent, EmptyStands, GrownShowsNoLess, NoForeignShowsNoMore, OneVersionIsLast, OpeningLeavesAll, OpeningsDiffer, OwnBlocksAreCommitted, OwnPlaintextIsAllowed, RecordsAreContent, SmallBound, SmallInherited, SmallLists, SmallPlaces, SmallRefusals, SmallRowIds, SmallRows, SmallRowsJudged, SmallText, SmallTreeStops, SmallTrees, SmallVisits, SmallWords, StepsLeaveRest, TableIsAllowed, TableWhenGrown, TextOfFront, UnfitIsRefused, VisitedSuffice, WholeAllowsOne, WholeTreeStays};

/// What the definitions of trees and rows compute of a small table.
pub fn small_table_is_read()
    ensures trees { SmallTrees }
    ensures stops { SmallTreeStops }
    ensures refusals { SmallRefusals }
    ensures judged { SmallRowsJudged }
    ensures rows { SmallRows }
    ensures row_ids { SmallRowIds }
    ensures inherited { SmallInherited }
    ensures lists { SmallLists }
    ensures places { SmallPlaces }
{}

/// What a query's definitions compute of a small table.
pub fn small_table_is_asked()
    ensures text { SmallText }
    ensures visits { SmallVisits }
    ensures words { SmallWords }
    ensures bound { SmallBound }
{}

/// The text of a front of the rows is a front of the text.
pub fn text_of_front()
    ensures { TextOfFront }
{}

/// A tree that is whole stays where more plaintexts are there.
pub fn whole_tree_stays()
    ensures { WholeTreeStays }
{}

/// A store that only grew shows no less; what objects allow, those allow that show no more; where
/// each byte is known one plaintext is allowed alone; a file's own is allowed, and so are all of a
/// snapshot's files.
pub fn knowledge_is_ordered()
    ensures grown { GrownShowsNoLess }
    ensures less { AllowedByLess }
    ensures one { WholeAllowsOne }
    ensures own { OwnPlaintextIsAllowed }
    ensures table { TableIsAllowed }
{}

/// A store that only grew holds the table that it held.
pub fn table_when_grown()
    ensures { TableWhenGrown }
{}

/// A store with one version that shows no snapshot stands for the table of no snapshot; and there is
/// such a store: one that holds nothing but version 1 has one version.
pub fn empty_stands()
    ensures stands { EmptyStands }
    ensures one { OneVersionIsLast }
{}

/// The files that a query visits have all rows that it chooses.
pub fn visited_suffice()
    ensures { VisitedSuffice }
{}

/// A committed block that is found as one of a listed file is that file's own of its number, and all
/// blocks of a table's own files are committed.
pub fn committed_is_own()
    ensures own { CommittedIsOwn }
    ensures honest { OwnBlocksAreCommitted }
{}

/// The records that are read of a container are those of its content, and so are the rows of a data
/// file, of which nothing is read where it doesn't fit the columns.
pub fn records_are_content()
    ensures records { RecordsAreContent }
    ensures rows { DataRowsAreContent }
    ensures unfit { UnfitIsRefused }
{}

/// Objects without a foreign block in a table's files show no more of them than those that hold it.
pub fn no_foreign_shows_no_more()
    ensures { NoForeignShowsNoMore }
{}

/// A file of a table that isn't open, or a block of it that doesn't open, in a store without a foreign
/// block in it differs there from the committed one.
pub fn refusals_differ()
    ensures openings { OpeningsDiffer }
    ensures blocks { BlocksDiffer }
{}

/// The records of a list, and those of a manifest, are read step by step.
pub fn records_come_in_steps()
    ensures list { OpeningLeavesAll list_row }
    ensures row { StepsLeaveRest list_row }
    ensures manifest { OpeningLeavesAll entry_of }
    ensures entry { StepsLeaveRest entry_of }
{}
