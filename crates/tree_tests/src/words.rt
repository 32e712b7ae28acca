//! What a walk gives, in words.

use icb_avro::AvroCause;
use icb_base::{Limited, ObjPath};
use icb_chain::ChainFault;
use icb_walk::{Broken, Cause, HeaderFault, Leaf, TreeFault, What};
use std::process::Abort;

/// A data file: its path, its length, and the position of its manifest's row.
pub(crate) fn leaf(rt: &(impl Abort + AllocGlobal), leaf: &Leaf) -> String {
    let path = leaf.path.as_str();
    format!(in rt.alloc(); "{path}:{}:{}", leaf.length, leaf.row).expect(rt, "room")
}

/// A refusal.
pub(crate) fn refusal(rt: &(impl Abort + AllocGlobal), fault: &TreeFault) -> String {
    let alloc = rt.alloc();
    let words = match fault {
        TreeFault::NoSnapshot { id } => format!(in alloc; "NoSnapshot {id}"),
        TreeFault::PlainList { snapshot } => format!(in alloc; "PlainList {snapshot}"),
        TreeFault::Chain(inner) => return of_chain(rt, inner),
        TreeFault::BadList {
            snapshot,
            file,
            what,
        } => format!(in alloc; "BadList {snapshot} {} {}", file.as_str(), of_what(*what)),
        TreeFault::At { path, cause } => return at(rt, path, cause),
        TreeFault::Store => format!(in alloc; "Store"),
        TreeFault::NoMemory => format!(in alloc; "NoMemory"),
    };
    words.expect(rt, "room")
}

/// A refusal of a key.
fn of_chain(rt: &(impl Abort + AllocGlobal), fault: &ChainFault) -> String {
    let words = match fault {
        ChainFault::NoKey { id } => format!(in rt.alloc(); "NoKey {}", id.as_str()),
        ChainFault::KeyRefused { id } => format!(in rt.alloc(); "KeyRefused {}", id.as_str()),
        ChainFault::NoMemory => format!(in rt.alloc(); "NoMemory"),
    };
    words.expect(rt, "room")
}

/// Why a file isn't read, though it may be whole.
fn of_what(what: What) -> &'static str {
    match what {
        What::Format => "Format",
        What::DeleteFile => "DeleteFile",
        What::DeleteManifest => "DeleteManifest",
        What::OutsideTable => "OutsideTable",
        What::NoLength => "NoLength",
    }
}

/// The refusal of a file.
fn at(rt: &(impl Abort + AllocGlobal), path: &ObjPath, cause: &Cause) -> String {
    let alloc = rt.alloc();
    let path = path.as_str();
    let words = match cause {
        Cause::Missing => format!(in alloc; "Missing {path}"),
        Cause::Short { size } => format!(in alloc; "Short {path} {size}"),
        Cause::Header(fault) => return of_header(rt, path, *fault),
        Cause::Block { number } => format!(in alloc; "Block {path} {number}"),
        Cause::Malformed { place, what } => return of_broken(rt, path, *place, *what),
        Cause::Codec { name } => format!(in alloc; "Codec {path} {}", name.as_str()),
        Cause::PlainFile { file } => format!(in alloc; "PlainFile {path} {}", file.as_str()),
        Cause::Unsupported { file, what } => {
            format!(in alloc; "Unsupported {path} {} {}", file.as_str(), of_what(*what))
        }
        Cause::Large { what, place, size } => {
            format!(in alloc; "Large {path} {} {place} {size}", of_limit(*what))
        }
    };
    words.expect(rt, "room")
}

/// A limit of a container.
fn of_limit(limit: Limited) -> &'static str {
    match limit {
        Limited::Header => "Header",
        Limited::Block => "Block",
        _ => "another",
    }
}

/// Why an object doesn't begin as a stream.
fn of_header(rt: &(impl Abort + AllocGlobal), path: &str, fault: HeaderFault) -> String {
    let words = match fault {
        HeaderFault::Magic { found } => return of_magic(rt, path, found),
        HeaderFault::BlockLength { found } => format!(in rt.alloc(); "BlockLength {path} {found}"),
        HeaderFault::BadLength { length } => format!(in rt.alloc(); "BadLength {path} {length}"),
    };
    words.expect(rt, "room")
}

/// The first four bytes of an object that isn't a stream.
fn of_magic(rt: &(impl Abort + AllocGlobal), path: &str, found: [u8; 4]) -> String {
    let [a, b, c, d] = found;
    format!(in rt.alloc(); "Magic {path} {a} {b} {c} {d}").expect(rt, "room")
}

/// What of a plaintext isn't in its form.
fn of_broken(rt: &(impl Abort + AllocGlobal), path: &str, place: u64, what: Broken) -> String {
    let alloc = rt.alloc();
    let words = match what {
        Broken::NotAvro => format!(in alloc; "Malformed {path} {place} NotAvro"),
        Broken::Avro(cause) => format!(in alloc;
            "Malformed {path} {place} Avro {}",
            of_avro(cause)
        ),
        Broken::Schema => format!(in alloc; "Malformed {path} {place} Schema"),
        Broken::Sync { block } => format!(in alloc; "Malformed {path} {place} Sync {block}"),
        Broken::Field { id } => format!(in alloc; "Malformed {path} {place} Field {id}"),
        Broken::KeyMeta => format!(in alloc; "Malformed {path} {place} KeyMeta"),
    };
    words.expect(rt, "room")
}

/// Why an item isn't in Avro's form.
fn of_avro(cause: AvroCause) -> &'static str {
    match cause {
        AvroCause::End => "End",
        AvroCause::Utf8 => "Utf8",
        AvroCause::Negative => "Negative",
        AvroCause::Count => "Count",
        AvroCause::Size => "Size",
        _ => "another",
    }
}
