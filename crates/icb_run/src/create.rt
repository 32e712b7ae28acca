//! The command `create`: a key is drawn and sealed under the master that the words name, and the first
//! version of the table put.
ghost use Rattle.std.specs.Prelude.{◌≡◌, ◌<◌, ◌^◌, true, IfSome};
ghost use Rattle.icb_base.specs.Causes.{Blames};
ghost use Rattle.icb_meta.specs.Forms.{is_location};
ghost use Rattle.icb_run.specs.Answers.{Prints};
ghost use Rattle.icb_run.specs.Create.{IsCreate, IsFirstPut, exists_where_taken, first_answer};
ghost use Rattle.icb_run.specs.Outside.{Does};
ghost use Rattle.icb_run.specs.SealFile.{LeavesTable};
ghost use Rattle.icb_run.specs.Sources.{KeysAreRead};
ghost use Rattle.icb_tree.specs.Versions.{version_path};
ghost use Rattle.icb_types.specs.Columns.{AreColumns};

use crate::keyring_input::{keys_status, read_keyring};
use crate::outside::Parts;
use crate::putting::put;
use crate::status::Status;
use icb_base::{Draws, Limited, NoMemory, Sink, Source, Store};
use icb_create::{Drawn, first_version};
use icb_tree::version_path;
use icb_words::Create;
use std::alloc::Global;

/// The most bytes that metadata may have.
const METADATA_LIMIT: u64 = 67108864;

/// Reads the keyring, draws the table's identifier and its first key, seals that under the master, puts
/// the first version, and prints its number. All memory is taken before the put, so that what can still
/// fail is the output alone.
pub fn create_table<S: Store, G: Store, I: Source, K: Source, M: Source, D: Draws, O: Sink>(
    alloc: Global,
    words: Create,
    outside: &mut Parts<'_, '_, '_, '_, '_, '_, '_, S, G, I, K, M, D, O>,
) -> Status
    requires columns { AreColumns words.schema.columns }
    requires location { is_location words.location ≡ true }
    requires time { outside.old.now_ms < 2 ^ 63 }
    ensures { Does S.Store G.Store I.Source K.Source M.Source D.Draws O.Sink
        (IsCreate words) KeysAreRead outside.old outside.new result }
{
    let ring = match read_keyring(alloc, outside.keys) {
        Ok(ring) => ring,
        Err(fault) => return keys_status(fault),
    };
    let Some(master) = ring.master(&words.master) else {
        return Status::NoKey { id: words.master };
    };
    let Ok(drawn) = Drawn::draw(outside.draws, words.key_size) else {
        return Status::RandomFault;
    };
    match first_version(alloc, words, master, &drawn, outside.now_ms) {
        Ok(text) => put_first(alloc, text.as_slice(), outside.table, outside.out),
        Err(NoMemory) => Status::NoMemory,
    }
}

/// Puts the first version of a table, unless it is too long, and prints its number.
fn put_first<S: Store, O: Sink>(alloc: Global, text: &[u8], table: &mut S, out: &mut O) -> Status
    ensures puts { IfSome (S.held table.old) (λ files.
        LeavesTable files (version_path 1) text.now (S.held table.new) result) }
    ensures prints { IfSome (S.held table.old) (λ files. Prints (first_answer files text.now)
        (O.written out.old) (O.written out.new) result) }
    ensures table { Blames (result ≡ Status.StoreFault) (S.faults table.old) (S.faults table.new) }
    ensures out { Blames (result ≡ Status.OutputFault) (O.faults out.old) (O.faults out.new) }
    ensures late { IsFirstPut result }
{
    if text.len() as u64 > METADATA_LIMIT {
        return Status::Limit {
            what: Limited::Metadata,
            number: METADATA_LIMIT,
        };
    }
    let Ok(path) = version_path(alloc, 1) else {
        return Status::NoMemory;
    };
    exists_where_taken(put(text, "version 1\n", path, table, out))
}

/// The status of a put of the first version: where its path is held, the table exists.
fn exists_where_taken(status: Status) -> Status
    ensures { result ≡ exists_where_taken status }
{
    match status {
        Status::NameTaken { path: _ } => Status::TableExists,
        status => status,
    }
}
