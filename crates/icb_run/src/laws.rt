//! Laws of the commands. Each function does nothing: its contract is the law.
ghost use Rattle.icb_run.specs.Laws.{CatFileCompletes, CreateCompletes, ListingCompletes, RotateCompletes, ScanCompletes, SealFileCompletes, TextCompletes};

/// Where no count rose and memory is enough, `cat-file` writes the slice of an open stream of which no
/// block is refused, `seal-file` seals an input within the limit at a path that isn't held, `create` puts
/// the first version of a table, `scan` prints the chosen rows of a committed table, `rotate` puts the next
/// version of a table for which the store stands, `snapshots` and `keys` print what the current metadata
/// says, and a text of the program's own is written.
pub fn commands_complete()
    ensures cat_file { CatFileCompletes }
    ensures seal_file { SealFileCompletes }
    ensures create { CreateCompletes }
    ensures scan { ScanCompletes }
    ensures rotate { RotateCompletes }
    ensures listing { ListingCompletes }
    ensures text { TextCompletes }
{}
