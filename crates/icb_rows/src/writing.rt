//! Writing a data file.
ghost use Rattle.std.specs.Prelude.{◌≡◌, ◌<◌, ◌^◌, ◌∷◌, [], ◌++◌, Err, IfOk, OnOk, false, length, map, nat_le, true, if◌then◌else◌};
ghost use Rattle.hex.specs.Hex.{IsBytes};
ghost use Rattle.icb_types.specs.Columns.{AreColumns};
ghost use Rattle.std.specs.List.{All, AllByRecursion};
ghost use Rattle.icb_types.specs.Data.{seen};
ghost use Rattle.icb_types.specs.Fits.{FitsColumns, IsDatum};
ghost use Rattle.icb_rows.specs.Bounds.{datum_at};
ghost use Rattle.icb_rows.specs.Data.{blocks_of, column_value, data_file, empty_block, row_bytes, value_of, values_from, with_record};
ghost use Rattle.icb_rows.specs.Rows.{HasData, HoldsRows, IsHeaded, IsReadable, IsRowOf, are_within};

use crate::fault::DataFault;
use icb_avro::{Value, encode};
use icb_container::{Block, write_container};
use icb_schema::{NoMemory, Node, Octets, Text};
use icb_types::{Column, Datum, DatumRef, Rows, TableSchema};
use sqlite_items::{Boxed, Items};
use std::alloc::Global;

/// The longest block that a reader takes, in bytes.
const MAX_BLOCK: usize = 1 << 27;

/// The data file of these rows. A block ends at the first record that brings it to `block` bytes or
/// more. A row has a datum for each column; those that it lacks are null. The file is read again as
/// these rows where they fit the columns and the header and the blocks are within the limits.
pub fn write_data(
    alloc: Global,
    schema: &TableSchema,
    rows: &Rows,
    block: u32,
    sync: &[u8; 16],
) -> Result<Octets, NoMemory>
    requires { AreColumns schema.now.columns }
    ensures bytes { IfOk result (λ file. file
        ≡ data_file schema.now.columns rows.now block sync.now) }
    ensures rows { IfOk result (λ file. IsReadable schema.now.columns rows.now block sync.now
        → HoldsRows schema.now.columns rows.now file) }
    ensures data { IfOk result (λ _. AllByRecursion (FitsColumns schema.now.columns) rows.now
        → AllByRecursion (IsRowOf schema.now.columns) rows.now) }
{
    let avro = schema.avro_schema(alloc)?;
    let columns = schema.columns.as_slice();
    let blocks = blocks_of(alloc, avro.root(), columns, rows.as_slice(), block)?;
    write_container(alloc, &avro, &[], sync, blocks.as_slice())
}

/// The data file of rows that stand one behind the other, as `write_data` has it. It is refused
/// exactly where one of its blocks would be longer than a reader takes it.
pub fn write_limited(
    alloc: Global,
    schema: &TableSchema,
    rows: &[Vec<Datum>],
    block: u32,
    sync: &[u8; 16],
) -> Result<Octets, DataFault>
    requires { AreColumns schema.now.columns }
    ensures bytes { IfOk result (λ file. file
        ≡ data_file schema.now.columns (map (λ row. row.items) rows.now) block sync.now) }
    ensures rows { IfOk result (λ file.
        IsHeaded schema.now.columns (map (λ row. row.items) rows.now) sync.now
        → HoldsRows schema.now.columns (map (λ row. row.items) rows.now) file) }
    ensures data { IfOk result (λ _.
        AllByRecursion (FitsColumns schema.now.columns) (map (λ row. row.items) rows.now)
        → AllByRecursion (IsRowOf schema.now.columns) (map (λ row. row.items) rows.now)) }
    ensures within { IfOk result (λ _.
        are_within (blocks_of block schema.now.columns (map (λ row. row.items) rows.now)) ≡ true) }
    ensures passed { result ≡ Err DataFault.Block
        → are_within (blocks_of block schema.now.columns (map (λ row. row.items) rows.now))
        ≡ false }
{
    let avro = schema.avro_schema(alloc)?;
    let columns = schema.columns.as_slice();
    let blocks = blocks_of(alloc, avro.root(), columns, rows, block)?;
    if !are_within(blocks.as_slice()) {
        return Err(DataFault::Block);
    }
    Ok(write_container(alloc, &avro, &[], sync, blocks.as_slice())?)
}

/// Whether each block is as short as a reader takes it.
fn are_within(blocks: &[Block]) -> bool
    ensures { result ≡ are_within blocks.now }
{
    blocks
        .iter()
        .all(|block| block.bytes.as_slice().len() <= MAX_BLOCK)
}

/// The blocks of rows.
fn blocks_of(
    alloc: Global,
    node: &Node,
    columns: &[Column],
    rows: &[Vec<Datum>],
    size: u32,
) -> Result<Items<Block>, NoMemory>
    ensures blocks { IfOk result (λ blocks. blocks
        ≡ blocks_of size columns.now (map (λ row. row.items) rows.now)) }
    ensures data { IfOk result (λ _. All (λ row. HasData columns.now row.items) rows.now) }
{
    let mut blocks = Items::new(alloc);
    let mut last = empty_block(alloc);
    for row in rows {
        put_row(alloc, node, columns, row.as_slice(), &mut last)?;
        last = next_block(alloc, size, &mut blocks, last)?;
    }
    if last.count > 0 {
        blocks.push(last)?;
    }
    Ok(blocks)
}

/// The block that the next record goes into: this one, or an empty one where it has as many bytes as it may.
fn next_block(
    alloc: Global,
    size: u32,
    blocks: &mut Items<Block>,
    last: Block,
) -> Result<Block, NoMemory>
    ensures block { IfOk result (λ next. next
        ≡ (if nat_le size (length last.bytes) then empty_block else last)) }
    ensures blocks { OnOk result (blocks.new
        ≡ (if nat_le size (length last.bytes) then blocks.old ++ last ∷ [] else blocks.old)) }
{
    if last.bytes.as_slice().len() < size as usize {
        return Ok(last);
    }
    blocks.push(last)?;
    Ok(empty_block(alloc))
}

/// A block without records.
fn empty_block(alloc: Global) -> Block
    ensures { result ≡ empty_block }
{
    Block {
        first: 0,
        count: 0,
        place: 0,
        bytes: Octets::new(alloc),
    }
}

/// Puts a row into a block.
fn put_row(
    alloc: Global,
    node: &Node,
    columns: &[Column],
    row: &[Datum],
    block: &mut Block,
) -> Result<(), NoMemory>
    requires { block.old.count < 2 ^ 63 }
    ensures block { OnOk result (block.new
        ≡ with_record block.old (row_bytes columns.now row.now)) }
    ensures data { OnOk result (HasData columns.now row.now) }
{
    let values = values_of(alloc, columns, row)?;
    encode(node, &Value::Record(values), &mut block.bytes)?;
    block.count += 1;
    Ok(())
}

/// The values of a row.
fn values_of(alloc: Global, columns: &[Column], row: &[Datum]) -> Result<Items<Value>, NoMemory>
    ensures values { IfOk result (λ values. values ≡ values_from 0 columns.now row.now) }
    ensures data { IfOk result (λ _. HasData columns.now row.now) }
{
    let mut values = Items::new(alloc);
    for (at, column) in columns.iter().enumerate() {
        let datum = datum_at(at, row);
        values.push(column_value(alloc, column, &datum)?)?;
    }
    Ok(values)
}

/// The datum of a row at a position, null behind its end.
fn datum_at(at: usize, row: &[Datum]) -> DatumRef<'_>
    ensures { seen result ≡ datum_at at row.now }
{
    match row.get(at) {
        Some(datum) => datum.borrowed(),
        None => DatumRef::Null,
    }
}

/// The value of a column.
fn column_value(alloc: Global, column: &Column, datum: &DatumRef) -> Result<Value, NoMemory>
    ensures value { IfOk result (λ value. value ≡ column_value column.now (seen datum.now)) }
    ensures data { IfOk result (λ _. IsDatum (seen datum.now)) }
{
    let value = value_of(alloc, datum)?;
    if column.required {
        return Ok(value);
    }
    let branch = u32::from(!matches!(datum, DatumRef::Null));
    Ok(Value::Union(branch, Boxed::new(alloc, value)?))
}

/// The Avro value of a datum.
fn value_of(alloc: Global, datum: &DatumRef) -> Result<Value, NoMemory>
    ensures value { IfOk result (λ value. value ≡ value_of (seen datum.now)) }
    ensures data { IfOk result (λ _. IsDatum (seen datum.now)) }
{
    match datum {
        DatumRef::Null => Ok(Value::Null),
        DatumRef::Boolean(b) => Ok(Value::Boolean(*b)),
        DatumRef::Int(n) => Ok(Value::Int(*n)),
        DatumRef::Long(n) => Ok(Value::Long(*n)),
        DatumRef::Date(days) => Ok(Value::Int(*days)),
        DatumRef::Time(time) => Ok(Value::Long(*time)),
        DatumRef::Timestamp(time) => Ok(Value::Long(*time)),
        DatumRef::TimestampTz(time) => Ok(Value::Long(*time)),
        DatumRef::Text(text) => Ok(Value::Text(Text::from_str(alloc, text)?)),
        DatumRef::Uuid(id) => Ok(Value::Fixed(Octets::from_slice(alloc, &id.to_be_bytes())?)),
        DatumRef::Fixed(bytes) => Ok(Value::Fixed(octets(alloc, bytes)?)),
        DatumRef::Binary(bytes) => Ok(Value::Bytes(octets(alloc, bytes)?)),
    }
}

/// A list of its own of bytes.
fn octets(alloc: Global, bytes: &[u8]) -> Result<Octets, NoMemory>
    ensures list { IfOk result (λ list. list ≡ bytes.now) }
    ensures bytes { IsBytes bytes.now }
{
    Octets::from_slice(alloc, bytes)
}
