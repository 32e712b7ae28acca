//! The schema of an entry that is written.
ghost use Rattle.std.specs.Prelude.{◌≡◌, [], IfOk, map};
ghost use Rattle.icb_schema.specs.Nodes.{part_of, tree_of};
ghost use Rattle.icb_fields.specs.Making.{record_tree};
ghost use Rattle.icb_manifest.specs.Written.{count_parts, entry_tree, file_tree, name_parts};

use icb_fields::{Written, field, record_node, slot_fields};
use icb_schema::{Field, NoMemory, Node};
use sqlite_items::Items;
use std::alloc::Global;

/// The schema of an entry.
pub(crate) fn entry_node(alloc: Global) -> Result<Node, NoMemory>
    ensures { IfOk result (λ node. tree_of node ≡ entry_tree) }
{
    let mut fields = slot_fields(
        alloc,
        &[
            ("status", 0, Written::Int),
            ("snapshot_id", 1, Written::LongOrNull),
            ("sequence_number", 3, Written::LongOrNull),
            ("file_sequence_number", 4, Written::LongOrNull),
        ],
    )?;
    let file = file_node(alloc)?;
    fields.push(field(alloc, "data_file", &2, file)?)?;
    record_node(alloc, "manifest_entry", fields)
}

/// The schema of a data file.
fn file_node(alloc: Global) -> Result<Node, NoMemory>
    ensures { IfOk result (λ node. tree_of node ≡ file_tree) }
{
    let mut fields = name_fields(alloc)?;
    let partition = record_node(alloc, "r102", Items::new(alloc))?;
    fields.push(field(alloc, "partition", &102, partition)?)?;
    fields.append(count_fields(alloc)?)?;
    record_node(alloc, "r2", fields)
}

/// The fields of a data file before its partition.
fn name_fields(alloc: Global) -> Result<Items<Field>, NoMemory>
    ensures { IfOk result (λ fields. map part_of fields ≡ name_parts) }
{
    slot_fields(
        alloc,
        &[
            ("content", 134, Written::Int),
            ("file_path", 100, Written::Text),
            ("file_format", 101, Written::Text),
        ],
    )
}

/// The fields of a data file behind its partition.
fn count_fields(alloc: Global) -> Result<Items<Field>, NoMemory>
    ensures { IfOk result (λ fields. map part_of fields ≡ count_parts) }
{
    slot_fields(
        alloc,
        &[
            ("record_count", 103, Written::Long),
            ("file_size_in_bytes", 104, Written::Long),
            ("value_counts", 109, Written::LongsByInt(119, 120)),
            ("null_value_counts", 110, Written::LongsByInt(121, 122)),
            ("lower_bounds", 125, Written::BytesByInt(126, 127)),
            ("upper_bounds", 128, Written::BytesByInt(129, 130)),
            ("key_metadata", 131, Written::BytesOrNull),
            ("first_row_id", 142, Written::LongOrNull),
        ],
    )
}
