//! A record of a data file, borrowed from its bytes.
ghost use Rattle.std.specs.Prelude.{◌≡◌, ◌++◌, [], IfOk, List, ℕ, Ok, Some, drop, length, map, slice_get, MatchOption};
ghost use Rattle.icb_schema.specs.Tree.{Fields};
ghost use Rattle.icb_schema.specs.Shape.{shape_of, shapes_of};
ghost use Rattle.icb_avro.specs.Cursor.{Reads, unread};
ghost use Rattle.icb_avro.specs.Reading.{read_as};
ghost use Rattle.icb_avro.specs.declared.value.Value.{Value as AvroValue};
ghost use Rattle.icb_types.specs.Data.{seen};
ghost use Rattle.icb_types.specs.declared.columns.Column.{Column as TableColumn};
ghost use Rattle.icb_rows.specs.Records.{datum_by_id, datum_there};
ghost use Rattle.icb_rows.specs.Views.{IsProjection, Passed as Field, Passes, begins_null, field_at, is_null_branch, passed, passed_of, record_at, taken_at};

use crate::projection::{Passed, Projection, is_null};
use crate::values::{datum_in, number_below};
use icb_avro::{AvroCause, AvroFault, Cursor};
use icb_schema::{Kind, Node};
use icb_types::{ColType, DatumRef};
use std::marker::Model;

/// The bytes of one record.
#[derive(Debug, Drop)]
pub struct RowView<'a> {
    bytes: &'a [u8],
}

impl<'a> Model for RowView<'a> {
    ghost use Rattle.std.specs.Prelude.{List, ℕ};

    ghost Value = { List ℕ };

    ghost view = { λ view. view.bytes.now };
}

impl<'a> RowView<'a> {
    /// Takes one record, of which it keeps the bytes. A null of a required column is refused as an
    /// index out of range. It takes no memory; after a refusal the cursor is as before.
    pub fn take(cursor: &mut Cursor<'a>, projection: &Projection) -> Result<RowView<'a>, AvroFault>
        ensures takes { Reads (λ view. view) result cursor.old cursor.new
            (taken_at (map passed projection.now.fields) (unread cursor.old)) }
        ensures again { IfOk result (λ view. (columns : List TableColumn) (fs : Fields)
            → IsProjection projection.now columns fs → (vs : List AvroValue) (rest : List ℕ)
            → record_at (passed_of columns fs) (unread cursor.old) ≡ Ok (vs, rest)
            → record_at (passed_of columns fs) view ≡ Ok (vs, [])) }
    {
        let all = cursor.rest();
        match pass_fields(projection.fields.as_slice(), cursor) {
            Ok(rest) => {
                let (bytes, _) = all.split_at(all.len() - rest.len());
                Ok(RowView { bytes })
            }
            Err(fault) => {
                cursor.go_to(all);
                Err(fault)
            }
        }
    }

    /// The datum of the column at this place of the projection, in a view that was taken under it: a part
    /// of the record's bytes. It takes no memory.
    pub fn datum(&self, projection: &Projection, index: u32) -> DatumRef<'a>
        ensures { (columns : List TableColumn) (fs : Fields)
            → IsProjection projection.now columns fs → (vs : List AvroValue)
            → record_at (passed_of columns fs) self.now ≡ Ok (vs, [])
            → (column : TableColumn) → slice_get columns index ≡ Some column
            → seen result ≡ datum_by_id column fs vs }
    {
        match projection.columns.as_slice().get(index as usize) {
            Some(column) => match column.place {
                Some(place) => {
                    field_datum(projection.fields.as_slice(), place, column.kind, self.bytes)
                }
                None => DatumRef::Null,
            },
            None => DatumRef::Null,
        }
    }
}

/// Passes over a record, and gives the bytes behind it.
fn pass_fields<'a>(fields: &[Passed], cursor: &mut Cursor<'a>) -> Result<&'a [u8], AvroFault>
    ensures { Passes result cursor.old cursor.new
        (record_at (map passed fields.now) (unread cursor.old)) }
{
    for field in fields {
        pass_field(field, cursor)?;
    }
    Ok(cursor.rest())
}

/// Passes over a field, whose null may be refused.
#[tactic(auto, using(crate::proofs::RecordLemmas::pass_refused, crate::proofs::RecordLemmas::pass_on))]
fn pass_field(field: &Passed, cursor: &mut Cursor<'_>) -> Result<(), AvroFault>
    ensures { Reads (λ done. done) result cursor.old cursor.new
        (read_as (λ _. tt) (field_at (passed field.now) (unread cursor.old))) }
{
    let refused = field.needs && begins_null(&field.node, cursor.rest());
    if refused {
        return Err(AvroFault {
            place: cursor.place() as u64,
            cause: AvroCause::Index,
        });
    }
    cursor.skip(&field.node)
}

/// Whether bytes of a type begin with a null.
fn begins_null(node: &Node, all: &[u8]) -> bool
    ensures { result ≡ begins_null (shape_of node.now) all.now }
{
    match &node.kind {
        Kind::Null => true,
        Kind::Union { branches } => {
            let mut walk = Cursor::new(all);
            match walk.int() {
                Ok(index) => is_null_branch(branches.as_slice(), index),
                Err(_) => false,
            }
        }
        Kind::Boolean => false,
        Kind::Int => false,
        Kind::Long => false,
        Kind::Float => false,
        Kind::Double => false,
        Kind::Bytes => false,
        Kind::Text => false,
        Kind::Fixed { name: _, size: _ } => false,
        Kind::Enum {
            name: _,
            symbols: _,
        } => false,
        Kind::Record { name: _, fields: _ } => false,
        Kind::Array {
            items: _,
            element: _,
        } => false,
        Kind::Map {
            values: _,
            key: _,
            value: _,
        } => false,
    }
}

/// Whether the branch of this number is null.
fn is_null_branch(branches: &[Node], index: i32) -> bool
    ensures { result ≡ is_null_branch (shapes_of (map shape_of branches.now)) index }
{
    match number_below(branches.len(), index) {
        Some(branch) => is_null(&branches[branch]),
        None => false,
    }
}

/// The datum of a kind that the field at this place of a record is.
fn field_datum<'a>(fields: &[Passed], place: usize, kind: ColType, all: &'a [u8]) -> DatumRef<'a>
    ensures { (vs : List AvroValue) (rest : List ℕ)
        → record_at (map passed fields.now) all.now ≡ Ok (vs, rest)
        → seen result ≡ datum_there kind (slice_get vs place) }
{
    if place >= fields.len() {
        return DatumRef::Null;
    }
    let (before, behind) = fields.split_at(place);
    match skip_fields(before, all) {
        Some(bytes) => datum_in(kind, &behind[0].node, bytes),
        None => DatumRef::Null,
    }
}

/// The bytes behind fields.
fn skip_fields<'a>(fields: &[Passed], all: &'a [u8]) -> Option<&'a [u8]>
    ensures { (more : List Field) (vs : List AvroValue) (rest : List ℕ)
        → record_at (map passed fields.now ++ more) all.now ≡ Ok (vs, rest)
        → MatchOption result ⊥ (λ bytes. record_at more bytes.now
        ≡ Ok (drop (length fields.now) vs, rest)) }
{
    let mut walk = Cursor::new(all);
    for field in fields {
        match walk.skip(&field.node) {
            Ok(_) => {}
            Err(_) => {
                return None;
            }
        }
    }
    Some(walk.rest())
}
