//! The words of a status's line: its name, and its values with a blank before each.
ghost use Rattle.std.specs.Prelude.{◌≡◌, ◌++◌, codes, decimal, IfOk, string_bytes};
ghost use Rattle.std.specs.Fmt.{signed_decimal};
ghost use Rattle.icb_run.specs.Lines.{cannot_name, header_words, limit_name, number_value, path_and_number, path_and_text, status_name, status_values, text_value, version_values};

use crate::status::{HeaderFault, Status};
use icb_base::{Limited, ObjPath};
use icb_listing::quoted;
use icb_turns::CannotWhat;
use std::alloc::{AllocError, Global};

/// A status's name.
pub(crate) fn status_name(status: &Status) -> &'static str
    ensures { result.now ≡ status_name status.now }
{
    match status {
        Status::Ok => "Ok",
        Status::Usage { word: _ } => "Usage",
        Status::BadKeyring { line: _ } => "BadKeyring",
        Status::BadInput { line: _ } => "BadInput",
        Status::TableExists => "TableExists",
        Status::NoTable => "NoTable",
        Status::BadMeta { field: _ } => "BadMeta",
        Status::NoKey { id: _ } => "NoKey",
        Status::KeyRefused { id: _ } => "KeyRefused",
        Status::NoSnapshot { id: _ } => "NoSnapshot",
        Status::NoColumn { name: _ } => "NoColumn",
        Status::BadRange { name: _ } => "BadRange",
        Status::Missing { path: _ } => "Missing",
        Status::Short { path: _, size: _ } => "Short",
        Status::Header { path: _, fault: _ } => "Header",
        Status::Block { path: _, number: _ } => "Block",
        Status::Malformed { path: _, place: _ } => "Malformed",
        Status::Unsupported { path: _, file: _ } => "Unsupported",
        Status::Codec { path: _, name: _ } => "Codec",
        Status::PlainFile { path: _, file: _ } => "PlainFile",
        Status::PlainList { snapshot: _ } => "PlainList",
        Status::BadList {
            snapshot: _,
            file: _,
        } => "BadList",
        Status::Contended { versions: _ } => "Contended",
        Status::NameTaken { path: _ } => "NameTaken",
        Status::SameKey { id: _ } => "SameKey",
        Status::KeyName { id: _ } => "KeyName",
        Status::Limit { what: _, number: _ } => "Limit",
        Status::Cannot { what: _ } => "Cannot",
        Status::StoreFault => "StoreFault",
        Status::InputFault => "InputFault",
        Status::OutputFault => "OutputFault",
        Status::RandomFault => "RandomFault",
        Status::NoMemory => "NoMemory",
    }
}

/// A status's values.
pub(crate) fn status_values(alloc: Global, status: &Status) -> Result<String, AllocError>
    ensures { IfOk result (λ values. string_bytes values ≡ status_values status.now) }
{
    match status {
        Status::Ok | Status::TableExists | Status::NoTable => Ok(String::new(alloc)),
        Status::StoreFault | Status::InputFault | Status::OutputFault => Ok(String::new(alloc)),
        Status::RandomFault | Status::NoMemory => Ok(String::new(alloc)),
        Status::Usage { word } => number_value(alloc, *word as u64),
        Status::BadKeyring { line } => number_value(alloc, *line),
        Status::BadInput { line } => number_value(alloc, *line),
        Status::BadMeta { field } => text_value(alloc, field.as_str()),
        Status::NoKey { id } => text_value(alloc, id.as_str()),
        Status::KeyRefused { id } => text_value(alloc, id.as_str()),
        Status::NoSnapshot { id } => format!(in alloc; " {id}"),
        Status::NoColumn { name } => text_value(alloc, name.as_str()),
        Status::BadRange { name } => text_value(alloc, name.as_str()),
        Status::Missing { path } => text_value(alloc, path.as_str()),
        Status::Short { path, size } => path_and_number(alloc, path, *size),
        Status::Header { path, fault } => path_and_header(alloc, path, fault),
        Status::Block { path, number } => path_and_number(alloc, path, *number as u64),
        Status::Malformed { path, place } => path_and_number(alloc, path, *place),
        Status::Unsupported { path, file } => path_and_text(alloc, path, file.as_str()),
        Status::Codec { path, name } => path_and_text(alloc, path, name.as_str()),
        Status::PlainFile { path, file } => path_and_text(alloc, path, file.as_str()),
        Status::PlainList { snapshot } => format!(in alloc; " {snapshot}"),
        Status::BadList { snapshot, file } => id_and_text(alloc, *snapshot, file.as_str()),
        Status::Contended { versions } => version_values(alloc, versions.as_slice()),
        Status::NameTaken { path } => text_value(alloc, path.as_str()),
        Status::SameKey { id } => text_value(alloc, id.as_str()),
        Status::KeyName { id } => text_value(alloc, id.as_str()),
        Status::Limit { what, number } => limit_values(alloc, *what, *number),
        Status::Cannot { what } => name_value(alloc, cannot_name(*what)),
    }
}

/// A number.
fn number_value(alloc: Global, number: u64) -> Result<String, AllocError>
    ensures { IfOk result (λ values. string_bytes values ≡ number_value number) }
{
    format!(in alloc; " {number}")
}

/// A text as a JSON string text, with its escapes.
fn text_value(alloc: Global, text: &str) -> Result<String, AllocError>
    ensures { IfOk result (λ values. string_bytes values ≡ text_value text.now) }
{
    let text = quoted(alloc, text)?;
    format!(in alloc; " {text}")
}

/// A name.
fn name_value(alloc: Global, name: &str) -> Result<String, AllocError>
    ensures { IfOk result (λ values. string_bytes values ≡ codes " " ++ name.now) }
{
    format!(in alloc; " {name}")
}

/// A path and a number.
fn path_and_number(alloc: Global, path: &ObjPath, number: u64) -> Result<String, AllocError>
    ensures { IfOk result (λ values. string_bytes values ≡ path_and_number path.now number) }
{
    let path = text_value(alloc, path.as_str())?;
    format!(in alloc; "{path} {number}")
}

/// A path and a text.
fn path_and_text(alloc: Global, path: &ObjPath, text: &str) -> Result<String, AllocError>
    ensures { IfOk result (λ values. string_bytes values ≡ path_and_text path.now text.now) }
{
    let path = text_value(alloc, path.as_str())?;
    let text = text_value(alloc, text)?;
    format!(in alloc; "{path}{text}")
}

/// A path, and why a file's header or length is refused.
fn path_and_header(alloc: Global, path: &ObjPath, fault: &HeaderFault) -> Result<String, AllocError>
    ensures { IfOk result (λ values. string_bytes values
        ≡ text_value path.now ++ codes " " ++ header_words fault.now) }
{
    let path = text_value(alloc, path.as_str())?;
    let fault = header_words(alloc, fault)?;
    format!(in alloc; "{path} {fault}")
}

/// A header's fault: its name and what was found.
fn header_words(alloc: Global, fault: &HeaderFault) -> Result<String, AllocError>
    ensures { IfOk result (λ words. string_bytes words ≡ header_words fault.now) }
{
    match fault {
        HeaderFault::Magic { found } => {
            let digits = hex::encode(alloc, found.as_slice())?;
            format!(in alloc; "Magic {digits}")
        }
        HeaderFault::BlockLength { found } => format!(in alloc; "BlockLength {found}"),
        HeaderFault::BadLength { length } => format!(in alloc; "BadLength {length}"),
    }
}

/// A snapshot's id and a text.
fn id_and_text(alloc: Global, id: i64, text: &str) -> Result<String, AllocError>
    ensures { IfOk result (λ values. string_bytes values
        ≡ codes " " ++ signed_decimal id ++ text_value text.now) }
{
    let text = text_value(alloc, text)?;
    format!(in alloc; " {id}{text}")
}

/// Versions.
fn version_values(alloc: Global, versions: &[u64]) -> Result<String, AllocError>
    ensures { IfOk result (λ values. string_bytes values ≡ version_values versions.now) }
{
    let mut values = String::new(alloc);
    for version in versions {
        let value = number_value(alloc, *version)?;
        values.push_str(value.as_str())?;
    }
    Ok(values)
}

/// A limit's name and the limit.
fn limit_values(alloc: Global, what: Limited, number: u64) -> Result<String, AllocError>
    ensures { IfOk result (λ values. string_bytes values
        ≡ codes " " ++ limit_name what ++ codes " " ++ decimal number) }
{
    let name = limit_name(what);
    format!(in alloc; " {name} {number}")
}

/// A limit's name.
fn limit_name(what: Limited) -> &'static str
    ensures { result.now ≡ limit_name what }
{
    match what {
        Limited::Keyring => "Keyring",
        Limited::Input => "Input",
        Limited::Metadata => "Metadata",
        Limited::Versions => "Versions",
        Limited::Snapshots => "Snapshots",
        Limited::Sequence => "Sequence",
        Limited::RowIds => "RowIds",
        Limited::Jobs => "Jobs",
        Limited::Header => "Header",
        Limited::Block => "Block",
        Limited::Columns => "Columns",
        Limited::Ids => "Ids",
    }
}

/// The name of a form of a table.
fn cannot_name(what: CannotWhat) -> &'static str
    ensures { result.now ≡ cannot_name what }
{
    match what {
        CannotWhat::NotEncrypted => "NotEncrypted",
        CannotWhat::Partitioned => "Partitioned",
        CannotWhat::Sorted => "Sorted",
        CannotWhat::ColumnName => "ColumnName",
        CannotWhat::NoRowIds => "NoRowIds",
    }
}
