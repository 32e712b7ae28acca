//! The record at the front of bytes.
ghost use Rattle.std.specs.Prelude.{◌≡◌, ◌-◌, ◌≤◌, IfErr, IfOk, length};
ghost use Rattle.icb_schema.specs.Nodes.{tree_of};
ghost use Rattle.icb_reader.specs.Answers.{IsOfFile, ReadsFront};
ghost use Rattle.icb_reader.specs.Records.{front_of};

use crate::fault::RecordsFault;
use icb_avro::{AvroFault, Cursor, ValueFault};
use icb_container::ContainerFault;
use icb_fields::{FieldFault, FromRecord, Record};
use icb_schema::Node;
use std::alloc::Global;

/// What is made of the record at the front of bytes that end at a place of the file, and how many of
/// them it has.
pub(crate) fn front_of<T: FromRecord, F>(
    alloc: Global,
    node: &Node,
    rest: &[u8],
    end: u64,
) -> Result<(T, usize), RecordsFault<F>>
    ensures reads { ReadsFront rest.now result
        (front_of T.FromRecord.made (tree_of node.now) end rest.now) }
    ensures within { IfOk result (λ x. x.1 ≤ length rest.now) }
    ensures answers { IfErr result IsOfFile }
{
    let mut cursor = Cursor::new(rest);
    let value = match cursor.value(alloc, node) {
        Ok(value) => value,
        Err(ValueFault::Avro(fault)) => return Err(refused(rest, end, fault)),
        Err(ValueFault::NoMemory) => return Err(RecordsFault::NoMemory),
    };
    match T::from_record(alloc, &Record::new(node, &value)) {
        Ok(made) => Ok((made, cursor.place())),
        Err(FieldFault::Field(field)) => Err(RecordsFault::Field {
            place: end.saturating_sub(rest.len() as u64),
            id: field.id,
        }),
        Err(FieldFault::NoMemory) => Err(RecordsFault::NoMemory),
    }
}

/// The refusal of an item, whose place is told from the first of bytes that end at a place of the
/// file.
fn refused<F>(rest: &[u8], end: u64, fault: AvroFault) -> RecordsFault<F>
    requires { fault.place ≤ length rest.now }
    ensures { result ≡ RecordsFault.Container (ContainerFault.Avro (record {
      place = end - (length rest.now - fault.place);
      cause = fault.cause;
    })) }
{
    let left = rest.len() as u64 - fault.place;
    RecordsFault::Container(ContainerFault::Avro(AvroFault {
        place: end.saturating_sub(left),
        cause: fault.cause,
    }))
}
