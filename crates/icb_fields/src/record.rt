//! A record's fields by their ids. It knows nothing of the tables that have them.
ghost use Rattle.std.specs.Prelude.{◌≡◌, map, option_map, IfOk, Ok, Result, ℤ};
ghost use Rattle.icb_schema.specs.Nodes.{fields_of, form_of, part_of, tree_of, trees_of};
ghost use Rattle.icb_avro.specs.declared.value.Value.{out-Value};
ghost use Rattle.icb_avro.specs.declared.value.Value.TheOpen.{Value-F};
ghost use Rattle.icb_fields.specs.Fields.{Row, beside_null, bytes_at, bytes_in, first_type, held, held_at, in_branch, in_union, int_at, int_in, is_bytes, is_int, is_long, is_null, items_in, list_at, long_at, needed_bytes, needed_int, needed_long, needed_row, needed_text, long_in, plain, record_of, row_at, row_in, text_at, text_in, there, type_at};
ghost use Rattle.icb_fields.specs.Answers.{Finds, Makes, ids_of, row, seen};

use crate::fault::{BadField, FieldFault};
use icb_avro::Value;
use icb_schema::{Field, Kind, NoMemory, Node, Octets};
use std::alloc::Global;

/// A record: the fields of its schema, and a value for each.
#[derive(Clone, Copy, Debug, Drop)]
pub struct Record<'a> {
    fields: &'a [Field],
    values: &'a [Value],
}

/// What a record has of an id: none of it, or a value that may be null, by its type.
#[derive(Clone, Copy, Debug, Drop)]
enum Held<'a> {
    /// No field has the id.
    Missing,
    /// A whole number of 32 bits.
    Int(Option<i32>),
    /// A whole number of 64 bits.
    Long(Option<i64>),
    /// Bytes.
    Bytes(Option<&'a [u8]>),
    /// A text.
    Text(Option<&'a str>),
    /// A record.
    Record(Option<Record<'a>>),
    /// An array: the type of its items, and the items.
    List(&'a Node, &'a [Value]),
    /// A value of any other type.
    Other,
}

impl<'a> Record<'a> {
    /// The record that a value is, of no fields where it is none.
    pub fn new(node: &'a Node, value: &'a Value) -> Record<'a>
        ensures { row result ≡ record_of (form_of node.now.kind) (out-Value value.now) }
    {
        match plain(node, value) {
            Held::Record(Some(record)) => record,
            _ => Record {
                fields: &[],
                values: &[],
            },
        }
    }

    /// A number of 32 bits that may be null or not be there.
    pub fn int(&self, id: i32) -> Result<Option<i32>, BadField>
        ensures { Finds (λ n. n) result (int_at id (row self.now)) }
    {
        match self.held_at(id) {
            Held::Missing => Ok(None),
            Held::Int(number) => Ok(number),
            _ => Err(BadField { id }),
        }
    }

    /// A number of 64 bits that may be null or not be there.
    pub fn long(&self, id: i32) -> Result<Option<i64>, BadField>
        ensures { Finds (λ n. n) result (long_at id (row self.now)) }
    {
        match self.held_at(id) {
            Held::Missing => Ok(None),
            Held::Long(number) => Ok(number),
            _ => Err(BadField { id }),
        }
    }

    /// Bytes that may be null or not be there.
    pub fn bytes(&self, id: i32) -> Result<Option<&'a [u8]>, BadField>
        ensures { Finds (option_map (λ b. b.now)) result (bytes_at id (row self.now)) }
    {
        match self.held_at(id) {
            Held::Missing => Ok(None),
            Held::Bytes(bytes) => Ok(bytes),
            _ => Err(BadField { id }),
        }
    }

    /// A text that may be null or not be there.
    pub fn text(&self, id: i32) -> Result<Option<&'a str>, BadField>
        ensures { Finds (option_map (λ t. t.now)) result (text_at id (row self.now)) }
    {
        match self.held_at(id) {
            Held::Missing => Ok(None),
            Held::Text(text) => Ok(text),
            _ => Err(BadField { id }),
        }
    }

    /// A record that may be null or not be there.
    pub fn record(&self, id: i32) -> Result<Option<Record<'a>>, BadField>
        ensures { Finds (option_map row) result (row_at id (row self.now)) }
    {
        match self.held_at(id) {
            Held::Missing => Ok(None),
            Held::Record(record) => Ok(record),
            _ => Err(BadField { id }),
        }
    }

    /// An array that may not be there: the type of its items, and the items, none where it is null.
    pub fn list(&self, id: i32) -> Result<Option<(&'a Node, &'a [Value])>, BadField>
        ensures { Finds (option_map (λ x. (tree_of x.0.now, x.1.now))) result
            (list_at id (row self.now)) }
    {
        match self.held_at(id) {
            Held::Missing => Ok(None),
            Held::List(node, values) => Ok(Some((node, values))),
            _ => Err(BadField { id }),
        }
    }

    /// A number of 32 bits that has to be there.
    pub fn needed_int(&self, id: i32) -> Result<i32, BadField>
        ensures { Finds (λ n. n) result (needed_int id (row self.now)) }
    {
        there(self.int(id), id)
    }

    /// A number of 64 bits that has to be there.
    pub fn needed_long(&self, id: i32) -> Result<i64, BadField>
        ensures { Finds (λ n. n) result (needed_long id (row self.now)) }
    {
        there(self.long(id), id)
    }

    /// A text that has to be there.
    pub fn needed_text(&self, id: i32) -> Result<&'a str, BadField>
        ensures { Finds (λ t. t.now) result (needed_text id (row self.now)) }
    {
        there(self.text(id), id)
    }

    /// Bytes that have to be there.
    pub fn needed_bytes(&self, id: i32) -> Result<&'a [u8], BadField>
        ensures { Finds (λ b. b.now) result (needed_bytes id (row self.now)) }
    {
        there(self.bytes(id), id)
    }

    /// A record that has to be there.
    pub fn needed_record(&self, id: i32) -> Result<Record<'a>, BadField>
        ensures { Finds row result (needed_row id (row self.now)) }
    {
        there(self.record(id), id)
    }

    /// What the first field with this id has.
    fn held_at(&self, id: i32) -> Held<'a>
        ensures { seen result ≡ held_at id (row self.now).fields self.now.values.now }
    {
        for (i, field) in self.fields.iter().enumerate() {
            if field.id == Some(id) {
                return match self.values.get(i) {
                    Some(value) => held_in(&field.node, value),
                    None => Held::Missing,
                };
            }
        }
        Held::Missing
    }
}

/// What has to be there.
fn there<T>(found: Result<Option<T>, BadField>, id: i32) -> Result<T, BadField>
    ensures { Finds (λ x. x) result (there id (ids_of found)) }
{
    match found {
        Ok(Some(value)) => Ok(value),
        Ok(None) => Err(BadField { id }),
        Err(other) => Err(other),
    }
}

/// A value, which in a union of null and another type is of that type.
fn held_in<'a>(node: &'a Node, value: &'a Value) -> Held<'a>
    ensures { seen result ≡ held (form_of node.now.kind) (out-Value value.now) }
{
    match &node.kind {
        Kind::Union { branches } => in_union(branches.as_slice(), in_branch(value)),
        _ => plain(node, value),
    }
}

/// A value of a branch of a union, which is of two types.
fn in_union<'a>(branches: &'a [Node], value: &'a Value) -> Held<'a>
    ensures { seen result ≡ in_union (trees_of (map tree_of branches.now)) (out-Value value.now) }
{
    if branches.len() == 2 {
        beside_null(&branches[0], &branches[1], value)
    } else {
        Held::Other
    }
}

/// A value of a union of two types, one of which may be null.
fn beside_null<'a>(a: &'a Node, b: &'a Node, value: &'a Value) -> Held<'a>
    ensures { seen result
        ≡ beside_null (form_of a.now.kind) (form_of b.now.kind) (out-Value value.now) }
{
    if is_null(a) {
        plain(b, value)
    } else if is_null(b) {
        plain(a, value)
    } else {
        Held::Other
    }
}

/// The type is null.
fn is_null(node: &Node) -> bool
    ensures { result ≡ is_null (form_of node.now.kind) }
{
    matches!(node.kind, Kind::Null)
}

/// A value of a type that is no union.
fn plain<'a>(node: &'a Node, value: &'a Value) -> Held<'a>
    ensures { seen result ≡ plain (form_of node.now.kind) (out-Value value.now) }
{
    match &node.kind {
        Kind::Int => Held::Int(int_in(value)),
        Kind::Long => Held::Long(long_in(value)),
        Kind::Bytes => Held::Bytes(bytes_in(value)),
        Kind::Text => Held::Text(text_in(value)),
        Kind::Record { name: _, fields } => Held::Record(record_in(fields.as_slice(), value)),
        Kind::Array { items, element: _ } => Held::List(items.get(), items_in(value)),
        _ => Held::Other,
    }
}

/// The value of a union's branch; else the value itself.
fn in_branch(value: &Value) -> &Value
    ensures { out-Value result.now ≡ in_branch (out-Value value.now) }
{
    match value {
        Value::Union(_, value) => value.get(),
        _ => value,
    }
}

/// A number of 32 bits that isn't null.
fn int_in(value: &Value) -> Option<i32>
    ensures { result ≡ int_in (out-Value value.now) }
{
    match value {
        Value::Int(number) => Some(*number),
        _ => None,
    }
}

/// A number of 64 bits that isn't null.
fn long_in(value: &Value) -> Option<i64>
    ensures { result ≡ long_in (out-Value value.now) }
{
    match value {
        Value::Long(number) => Some(*number),
        _ => None,
    }
}

/// Bytes that aren't null.
fn bytes_in(value: &Value) -> Option<&[u8]>
    ensures { option_map (λ b. b.now) result ≡ bytes_in (out-Value value.now) }
{
    match value {
        Value::Bytes(bytes) => Some(bytes.as_slice()),
        _ => None,
    }
}

/// A text that isn't null.
fn text_in(value: &Value) -> Option<&str>
    ensures { option_map (λ t. t.now) result ≡ text_in (out-Value value.now) }
{
    match value {
        Value::Text(text) => Some(text.as_str()),
        _ => None,
    }
}

/// A record that isn't null.
fn record_in<'a>(fields: &'a [Field], value: &'a Value) -> Option<Record<'a>>
    ensures { option_map row result
        ≡ row_in (fields_of (map part_of fields.now)) (out-Value value.now) }
{
    match value {
        Value::Record(values) => Some(Record {
            fields,
            values: values.as_slice(),
        }),
        _ => None,
    }
}

/// The items of an array that isn't null.
fn items_in(value: &Value) -> &[Value]
    ensures { result.now ≡ items_in (out-Value value.now) }
{
    match value {
        Value::Array(items) => items.as_slice(),
        _ => &[],
    }
}

/// In records of this type the field with this id is a whole number of 32 bits, or null.
pub fn has_int(node: &Node, id: i32) -> bool
    ensures { result ≡ is_int (type_at id (form_of node.now.kind)) }
{
    let null = Value::Null;
    matches!(type_at(node, id, &null), Held::Int(_))
}

/// In records of this type the field with this id is a whole number of 64 bits, or null.
pub fn has_long(node: &Node, id: i32) -> bool
    ensures { result ≡ is_long (type_at id (form_of node.now.kind)) }
{
    let null = Value::Null;
    matches!(type_at(node, id, &null), Held::Long(_))
}

/// In records of this type the field with this id is bytes, or null.
pub fn has_bytes(node: &Node, id: i32) -> bool
    ensures { result ≡ is_bytes (type_at id (form_of node.now.kind)) }
{
    let null = Value::Null;
    matches!(type_at(node, id, &null), Held::Bytes(_))
}

/// What a field of a record type would have, if it were this value.
fn type_at<'a>(node: &'a Node, id: i32, null: &'a Value) -> Held<'a>
    ensures { out-Value null.now ≡ Value-F.Null
        → seen result ≡ type_at id (form_of node.now.kind) }
{
    match &node.kind {
        Kind::Record { name: _, fields } => match first_type(fields.as_slice(), id) {
            Some(node) => held_in(node, null),
            None => Held::Missing,
        },
        _ => Held::Missing,
    }
}

/// The type of the first field with this id.
fn first_type(fields: &[Field], id: i32) -> Option<&Node>
    ensures { option_map (λ n. tree_of n.now) result
        ≡ first_type id (fields_of (map part_of fields.now)) }
{
    for field in fields {
        if field.id == Some(id) {
            return Some(&field.node);
        }
    }
    None
}

/// Bytes of their own, where there are any.
pub fn owned(alloc: Global, bytes: Option<&[u8]>) -> Result<Option<Octets>, NoMemory>
    ensures { IfOk result (λ copy. copy ≡ option_map (λ b. b.now) bytes.entry) }
{
    match bytes {
        Some(bytes) => Ok(Some(Octets::from_slice(alloc, bytes)?)),
        None => Ok(None),
    }
}

/// What is made of a record.
pub trait FromRecord: Sized {
    /// What a record is made to, or the id of its first field that isn't in its form.
    ghost made: { Row → Result Self ℤ };

    /// Makes it of a record.
    fn from_record(alloc: Global, from: &Record<'_>) -> Result<Self, FieldFault>
        ensures { Makes result (made (row from.now)) };
}
