//! The lines of a table's sealed keys.
ghost use Rattle.std.specs.Prelude.{◌≡◌, string_bytes, IfOk};
ghost use Rattle.icb_chain.specs.Opening.{table_of};
ghost use Rattle.icb_listing.specs.Lines.{key_line, keys_text, kind_of};
ghost use Rattle.icb_meta.specs.Answers.{shown_of};

use crate::pieces::{quoted, text_or_dash};
use icb_base::{Bytes, NoMemory};
use icb_chain::seals_key;
use icb_meta::{KeyEntry, TableMeta};
use std::alloc::Global;

/// A line for each sealed key, in the metadata's order.
pub fn keys_text(alloc: Global, meta: &TableMeta) -> Result<Bytes, NoMemory>
    ensures { IfOk result (λ text. text ≡ keys_text (shown_of meta.now)) }
{
    let mut text = Vec::new(alloc);
    for entry in meta.entries() {
        let line = key_line(alloc, meta, entry)?;
        text.extend_from_slice(line.as_str().as_bytes())?;
    }
    Ok(Bytes::from_vec(text))
}

/// The line of a sealed key.
fn key_line(alloc: Global, meta: &TableMeta, entry: &KeyEntry) -> Result<String, NoMemory>
    ensures { IfOk result (λ line. string_bytes line
        ≡ key_line (table_of (shown_of meta.now).state) entry.now) }
{
    let id = quoted(alloc, entry.id.as_str())?;
    let by = text_or_dash(alloc, entry.by.as_ref())?;
    let kind = kind_of(meta, entry);
    let line = format!(in alloc; "{id} {by} {kind}\n")?;
    Ok(line)
}

/// What a sealed key seals.
fn kind_of(meta: &TableMeta, entry: &KeyEntry) -> &'static str
    ensures { result.now ≡ kind_of (table_of (shown_of meta.now).state) entry.now }
{
    if seals_key(meta, entry) {
        "kek"
    } else {
        "list"
    }
}
