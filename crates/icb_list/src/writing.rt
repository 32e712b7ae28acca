//! Manifest lists that are written.
ghost use Rattle.std.specs.Prelude.{◌≡◌, IfOk, Ok, map};
ghost use Rattle.icb_schema.specs.Nodes.{tree_of};
ghost use Rattle.icb_container.specs.Content.{content_of};
ghost use Rattle.icb_list.specs.Written.{HasShortHeader, list_content, row_tree, row_value, row_values, written_list};
ghost use Rattle.icb_records.specs.Laws.{AreWritable};

use crate::row::ListRow;
use icb_avro::Value;
use icb_container::write_container;
use icb_fields::{Written, bytes_or_null, long_or_null, record_node, slot_fields};
use icb_records::gather;
use icb_schema::{AvroSchema, NoMemory, Node, Octets, Text};
use sqlite_items::Items;
use std::alloc::Global;

/// The manifest list of these rows, with this marker. Its bytes follow from these, and they are read
/// again as these rows' records where the values of the rows are of the schema, and none of them is too
/// long for a block.
pub fn write_list(alloc: Global, rows: &[ListRow], sync: &[u8; 16]) -> Result<Octets, NoMemory>
    ensures bytes { IfOk result (λ file. file ≡ written_list rows.now sync.now) }
    ensures content { IfOk result (λ file. HasShortHeader sync.now
        → AreWritable row_tree (map row_value rows.now)
        → content_of file ≡ Ok (list_content rows.now)) }
{
    let schema = AvroSchema::new(row_node(alloc)?);
    let values = list_values(alloc, rows)?;
    let blocks = gather(alloc, schema.root(), values.as_slice())?;
    let version = (
        Text::from_str(alloc, "format-version")?,
        Octets::from_slice(alloc, b"3")?,
    );
    write_container(alloc, &schema, &[version], sync, blocks.as_slice())
}

/// The schema of a row.
fn row_node(alloc: Global) -> Result<Node, NoMemory>
    ensures { IfOk result (λ node. tree_of node ≡ row_tree) }
{
    let fields = slot_fields(
        alloc,
        &[
            ("manifest_path", 500, Written::Text),
            ("manifest_length", 501, Written::Long),
            ("partition_spec_id", 502, Written::Int),
            ("content", 517, Written::Int),
            ("sequence_number", 515, Written::Long),
            ("min_sequence_number", 516, Written::Long),
            ("added_snapshot_id", 503, Written::Long),
            ("added_files_count", 504, Written::Int),
            ("existing_files_count", 505, Written::Int),
            ("deleted_files_count", 506, Written::Int),
            ("added_rows_count", 512, Written::Long),
            ("existing_rows_count", 513, Written::Long),
            ("deleted_rows_count", 514, Written::Long),
            ("key_metadata", 519, Written::BytesOrNull),
            ("first_row_id", 520, Written::LongOrNull),
        ],
    )?;
    record_node(alloc, "manifest_file", fields)
}

/// The values of rows.
fn list_values(alloc: Global, rows: &[ListRow]) -> Result<Vec<Value>, NoMemory>
    ensures { IfOk result (λ values. values.items ≡ map row_value rows.now) }
{
    let mut values = Vec::new(alloc);
    for row in rows {
        values.push(row_value(alloc, row)?)?;
    }
    Ok(values)
}

/// The value of a row.
fn row_value(alloc: Global, row: &ListRow) -> Result<Value, NoMemory>
    ensures { IfOk result (λ value. value ≡ row_value row.now) }
{
    let values = row_values(alloc, row)?;
    Ok(Value::Record(values))
}

/// The values of a row's fields.
fn row_values(alloc: Global, row: &ListRow) -> Result<Items<Value>, NoMemory>
    ensures { IfOk result (λ values. values ≡ row_values row.now) }
{
    let mut values = Items::new(alloc);
    values.push(Value::Text(row.path.copy(alloc)?))?;
    values.push(Value::Long(row.length))?;
    values.push(Value::Int(row.spec))?;
    values.push(Value::Int(row.content))?;
    values.push(Value::Long(row.sequence))?;
    values.push(Value::Long(row.min_sequence))?;
    values.push(Value::Long(row.snapshot))?;
    for count in &row.files {
        values.push(Value::Int(*count))?;
    }
    for count in &row.rows {
        values.push(Value::Long(*count))?;
    }
    values.push(bytes_or_null(alloc, &row.key)?)?;
    values.push(long_or_null(alloc, row.first_row)?)?;
    Ok(values)
}
