//! Manifests that are written.
ghost use Rattle.std.specs.Prelude.{◌≡◌, IfOk, Ok, map, string_bytes};
ghost use Rattle.std.specs.Fmt.{signed_decimal};
ghost use Rattle.icb_container.specs.Content.{content_of};
ghost use Rattle.icb_manifest.specs.Written.{HasShortHeader, entry_tree, entry_value, manifest_content, properties, written_manifest};
ghost use Rattle.icb_records.specs.Laws.{AreWritable};

use crate::entry::Entry;
use crate::nodes::entry_node;
use crate::values::manifest_values;
use icb_columns::schema_text;
use icb_container::write_container;
use icb_records::gather;
use icb_schema::{AvroSchema, NoMemory, Octets, Text};
use icb_types::TableSchema;
use sqlite_items::Items;
use std::alloc::Global;

/// The manifest of these entries, of files of this schema and this partition spec, with this marker.
/// Its bytes follow from these, and they are read again as these entries' records where the values of
/// the entries are of the schema, none of them is too long for a block, and the header is within its
/// limit.
pub fn write_manifest(
    alloc: Global,
    schema: &TableSchema,
    spec: i32,
    entries: &[Entry],
    sync: &[u8; 16],
) -> Result<Octets, NoMemory>
    ensures bytes { IfOk result (λ file. file
        ≡ written_manifest schema.now spec entries.now sync.now) }
    ensures content { IfOk result (λ file. HasShortHeader schema.now spec sync.now
        → AreWritable entry_tree (map entry_value entries.now)
        → content_of file ≡ Ok (manifest_content schema.now spec entries.now)) }
{
    let avro = AvroSchema::new(entry_node(alloc)?);
    let values = manifest_values(alloc, entries)?;
    let blocks = gather(alloc, avro.root(), values.as_slice())?;
    let properties = properties(alloc, schema, spec)?;
    write_container(alloc, &avro, properties.as_slice(), sync, blocks.as_slice())
}

/// The properties of a manifest, beside those of every container.
fn properties(
    alloc: Global,
    schema: &TableSchema,
    spec: i32,
) -> Result<Items<(Text, Octets)>, NoMemory>
    ensures { IfOk result (λ list. list ≡ properties schema.now spec) }
{
    let text = schema_text(alloc, schema)?;
    let id = decimal(alloc, schema.id)?;
    let spec = decimal(alloc, spec)?;
    let mut list = Items::new(alloc);
    list.push(property(alloc, "schema", text.as_slice())?)?;
    list.push(property(alloc, "schema-id", id.as_bytes())?)?;
    list.push(property(alloc, "partition-spec", b"[]")?)?;
    list.push(property(alloc, "partition-spec-id", spec.as_bytes())?)?;
    list.push(property(alloc, "format-version", b"3")?)?;
    list.push(property(alloc, "content", b"data")?)?;
    Ok(list)
}

/// A key and its value.
fn property(alloc: Global, key: &str, value: &[u8]) -> Result<(Text, Octets), NoMemory>
    ensures { IfOk result (λ pair. pair ≡ (key.now, value.now)) }
{
    Ok((
        Text::from_str(alloc, key)?,
        Octets::from_slice(alloc, value)?,
    ))
}

/// A number in decimal.
fn decimal(alloc: Global, number: i32) -> Result<String, NoMemory>
    ensures { IfOk result (λ text. string_bytes text ≡ signed_decimal number) }
{
    let text = format!(in alloc; "{number}")?;
    Ok(text)
}
