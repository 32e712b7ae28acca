//! Why a tree isn't read further.

use icb_avro::AvroCause;
use icb_base::{Limited, NoMemory, ObjPath};
use icb_chain::ChainFault;
use icb_schema::Text;

/// Why a walk isn't made, or its next file isn't given.
#[derive(Debug, Drop)]
pub enum TreeFault {
    /// The metadata has no snapshot of this id.
    NoSnapshot {
        /// The id.
        id: i64,
    },
    /// The list of a snapshot has no key.
    PlainList {
        /// The snapshot's id.
        snapshot: i64,
    },
    /// The list's key isn't opened.
    Chain(ChainFault),
    /// The list of a snapshot isn't read.
    BadList {
        /// The snapshot's id.
        snapshot: i64,
        /// The list, as the snapshot names it.
        file: Text,
        /// Why it isn't read.
        what: What,
    },
    /// A file of the tree isn't read further.
    At {
        /// The file.
        path: ObjPath,
        /// Why it isn't.
        cause: Cause,
    },
    /// A call of the store failed.
    Store,
    /// No memory was left.
    NoMemory,
}

/// Why a file of a tree isn't read further. Places count from the first byte of its plaintext.
#[derive(Debug, Drop)]
pub enum Cause {
    /// Nothing is held at the path.
    Missing,
    /// The object has fewer bytes than the recorded length.
    Short {
        /// How many bytes it has.
        size: u64,
    },
    /// The object doesn't begin as a stream of the recorded length does.
    Header(HeaderFault),
    /// A cipher block doesn't open.
    Block {
        /// The block's number, from 0.
        number: u32,
    },
    /// The plaintext isn't in its form.
    Malformed {
        /// Where the item or the record begins, 0 where neither is meant.
        place: u64,
        /// What isn't in its form.
        what: Broken,
    },
    /// The container's codec isn't `null`.
    Codec {
        /// The codec.
        name: Text,
    },
    /// The file names another one that has no key metadata.
    PlainFile {
        /// That file, as it is named.
        file: Text,
    },
    /// The file names another one that isn't read, though it may be whole.
    Unsupported {
        /// That file, as it is named.
        file: Text,
        /// Why it isn't read.
        what: What,
    },
    /// An item goes beyond a limit.
    Large {
        /// The limit.
        what: Limited,
        /// Where the item begins.
        place: u64,
        /// The size that it says, or the number of its bytes.
        size: u64,
    },
}

/// Why an object doesn't begin as a stream does.
#[derive(Clone, Copy, Debug)]
pub enum HeaderFault {
    /// The first four bytes aren't AGS1.
    Magic {
        /// The bytes found.
        found: [u8; 4],
    },
    /// The block length isn't 1 to 16,777,216.
    BlockLength {
        /// The block length found.
        found: u32,
    },
    /// No stream of this block length has the recorded length.
    BadLength {
        /// The recorded length.
        length: u64,
    },
}

/// What of a plaintext isn't in its form.
#[derive(Clone, Copy, Debug)]
pub enum Broken {
    /// It is no Avro container.
    NotAvro,
    /// An item isn't in Avro's form.
    Avro(AvroCause),
    /// The container's schema is refused.
    Schema,
    /// The marker behind a block isn't the header's.
    Sync {
        /// The block's number, from 0.
        block: u64,
    },
    /// A record has no field of this id in its form.
    Field {
        /// The field's id.
        id: i32,
    },
    /// A record's key metadata isn't in its form.
    KeyMeta,
}

/// Why a file that is named isn't read, though it may be whole.
#[derive(Clone, Copy, Debug)]
pub enum What {
    /// Its format isn't Avro.
    Format,
    /// It says which rows are deleted.
    DeleteFile,
    /// It is a manifest of such files.
    DeleteManifest,
    /// It doesn't lie in the table.
    OutsideTable,
    /// Its length isn't told.
    NoLength,
}

impl From<NoMemory> for TreeFault {
    ghost use Rattle.std.specs.Prelude.{◌≡◌};
    ghost use Rattle.icb_walk.specs.declared.fault.TreeFault.TheVariants as variant;

    ghost from_gives = { λ _ fault. fault ≡ variant.NoMemory };

    fn from(_: NoMemory) -> Self {
        TreeFault::NoMemory
    }
}

impl From<icb_schema::NoMemory> for TreeFault {
    ghost use Rattle.std.specs.Prelude.{◌≡◌};
    ghost use Rattle.icb_walk.specs.declared.fault.TreeFault.TheVariants as variant;

    ghost from_gives = { λ _ fault. fault ≡ variant.NoMemory };

    fn from(_: icb_schema::NoMemory) -> Self {
        TreeFault::NoMemory
    }
}
