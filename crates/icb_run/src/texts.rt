//! The texts of the program's own: how it is called, and its version.
ghost use Rattle.icb_run.specs.Outside.{Does};
ghost use Rattle.icb_run.specs.Sources.{AreUnread};
ghost use Rattle.icb_run.specs.Texts.{IsText};

use crate::outside::Parts;
use crate::status::Status;
use icb_base::{Draws, Failed, Sink, Source, Store};

/// What `--help` writes.
pub const HELP: &str = "\
usage: iceberg cat-file TABLE PATH --key HEX --length N [--prefix TEXT] [--skip N] [--take N]
       iceberg seal-file TABLE PATH [--key-bytes 16|24|32] [--block N]
       iceberg create TABLE --keys FILE --master ID --schema TEXT [--location TEXT] [--key-bytes 16|24|32]
                      [--block N] [--avro-block N] [--rows-per-file N] [--retries N]
       iceberg append TABLE --keys FILE
       iceberg scan TABLE --keys FILE [--metadata FILE] [--snapshot N] [--columns A,B]
                    [--range A] [--low V] [--high V] [--skip N] [--take N]
       iceberg rotate TABLE --keys FILE --master ID
       iceberg snapshots TABLE
       iceberg keys TABLE
       iceberg --help
       iceberg --version

cat-file writes the plaintext of one encrypted file of the table.

  TABLE           the table's folder
  PATH            the file's path in the table
  --key HEX       the file's key: 32, 48 or 64 hexadecimal digits
  --length N      the file's length in bytes, as its key metadata says
  --prefix TEXT   what the file was sealed for, as its key metadata says
  --skip N        leaves out the first N bytes of the plaintext
  --take N        writes N bytes of it at most

seal-file reads its input to the end (64 MiB at most), encrypts it under a new random key and the prefix
PATH, puts it into the table, and prints its key metadata in hexadecimal. Whoever has that line can read
the file.

  --key-bytes N   the length of the key, 16 where it isn't given
  --block N       how many bytes of plaintext a block has, 1048576 where it isn't given

create makes a new table in the folder TABLE: its first version, with no rows and one key, which is random
and sealed under a master key.

  --keys FILE     the keyring: lines ID=HEX, each a master key in hexadecimal digits
  --master ID     the id of the table's master key in the keyring
  --schema TEXT   the columns, with commas between: name:type, or name:type! for a required one, where a
                  type is boolean, int, long, date, time, timestamp, timestamptz, string, uuid, binary or
                  fixed[N]
  --location TEXT the table's location, file:///table where it isn't given
  --key-bytes N   the length of its keys, 16 where it isn't given
  --block N       how many bytes of plaintext a block of its files has, 1048576 where it isn't given
  --avro-block N  after how many bytes of rows an Avro block ends, 65536 where it isn't given
  --rows-per-file N
                  how many rows a data file has at most, 100000 where it isn't given
  --retries N     how often a commit is tried again, 4 where it isn't given

append reads its input to the end (64 MiB at most), adds the rows of its lines to a table as a new snapshot,
encrypted under new random keys, and prints the snapshot's id and the number of the version that has it. A
line is a JSON array with a value for each column, null for none.

  --keys FILE     the keyring, with the master that sealed the table's last key

scan prints the rows of a table, a line for each: a JSON array of its values, null for none.

  --keys FILE     the keyring
  --metadata FILE the table's metadata; that of its current version where it isn't given
  --snapshot N    the snapshot's id; the current one where it isn't given
  --columns A,B   the columns that are printed, in this order; all where it isn't given
  --range A       only rows whose value in column A is in a range
  --low V         the range's lower end, as a line has it, so with quotation marks for a string
  --high V        its upper end
  --skip N        leaves out the first N of these rows
  --take N        prints N of those behind at most

rotate seals the keys of a table anew under another master key, which alone opens the table afterwards, and
prints the number of the version that it put.

  --keys FILE     the keyring, with the masters that the table's keys have and the new one
  --master ID     the id of the new master key in the keyring

snapshots prints a line for each snapshot of the table's current version: its id, its parent's, its
sequence number, when it was made in milliseconds since 1970, its operation and how many rows it added,
with - for what it doesn't say.

keys prints a line for each sealed key of the table's current version: its id, that of the key that sealed
it, and kek for a key that seals keys, or list for the key of a manifest list.
";

/// What `--version` writes.
pub const VERSION: &str = "iceberg 0.1.0\n";

/// Writes a text of the program's own.
pub fn write_text<S: Store, G: Store, I: Source, K: Source, M: Source, D: Draws, O: Sink>(
    text: &str,
    outside: &mut Parts<'_, '_, '_, '_, '_, '_, '_, S, G, I, K, M, D, O>,
) -> Status
    ensures { Does S.Store G.Store I.Source K.Source M.Source D.Draws O.Sink
        (IsText text.now) AreUnread outside.old outside.new result }
{
    match outside.out.write(text.as_bytes()) {
        Ok(()) => Status::Ok,
        Err(Failed) => Status::OutputFault,
    }
}
