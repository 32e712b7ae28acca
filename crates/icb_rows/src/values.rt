//! Data of values, borrowed from their bytes.
ghost use Rattle.std.specs.Prelude.{◌≡◌, ◌<◌, IfSome, List, ℕ, ℤ, Bool, Ok, Some, map, option_map};
ghost use Rattle.icb_schema.specs.Shape.{shape_of, shapes_of, union};
ghost use Rattle.icb_avro.specs.Reading.{boolean_at, bytes_at, index_at, int_at, long_at, part_at, text_at, value_at};
ghost use Rattle.icb_avro.specs.declared.value.Value.{Value as AvroValue};
ghost use Rattle.icb_avro.specs.declared.value.Value.TheOpen.{Value-F};
ghost use Rattle.icb_types.specs.Data.{seen};
ghost use Rattle.icb_rows.specs.Records.{datum_level, datum_of, or_null};
ghost use Rattle.icb_rows.specs.Views.{number_below};

use icb_avro::Cursor;
use icb_schema::{Kind, Node};
use icb_types::{ColType, DatumRef, from_single};

/// The datum of a kind that a value of this type is: null where the type is another one.
#[cycle(datum)]
pub(crate) fn datum_in<'a>(kind: ColType, node: &Node, bytes: &'a [u8]) -> DatumRef<'a>
    ensures { (v : AvroValue) (rest : List ℕ)
        → value_at (shape_of node.now) bytes.now ≡ Ok (v, rest)
        → seen result ≡ datum_of v kind }
{
    match &node.kind {
        Kind::Boolean => boolean_datum(kind, bytes),
        Kind::Int => int_datum(kind, bytes),
        Kind::Long => long_datum(kind, bytes),
        Kind::Bytes => bytes_datum(kind, bytes),
        Kind::Text => text_datum(kind, bytes),
        Kind::Fixed { name: _, size } => fixed_datum(kind, *size, bytes),
        Kind::Union { branches } => branch_datum(kind, branches.as_slice(), bytes),
        Kind::Null => DatumRef::Null,
        Kind::Float => DatumRef::Null,
        Kind::Double => DatumRef::Null,
        Kind::Enum {
            name: _,
            symbols: _,
        } => DatumRef::Null,
        Kind::Record { name: _, fields: _ } => DatumRef::Null,
        Kind::Array {
            items: _,
            element: _,
        } => DatumRef::Null,
        Kind::Map {
            values: _,
            key: _,
            value: _,
        } => DatumRef::Null,
    }
}

/// The datum of a kind that a value of a union is.
#[cycle(datum)]
fn branch_datum<'a>(kind: ColType, branches: &[Node], bytes: &'a [u8]) -> DatumRef<'a>
    ensures { (v : AvroValue) (rest : List ℕ)
        → value_at (union (shapes_of (map shape_of branches.now))) bytes.now ≡ Ok (v, rest)
        → seen result ≡ datum_of v kind }
{
    match branch_in(branches.len(), bytes) {
        Some((branch, rest)) => datum_in(kind, &branches[branch], rest),
        None => DatumRef::Null,
    }
}

/// The number of a branch, below the count, and the bytes behind it.
fn branch_in(count: usize, bytes: &[u8]) -> Option<(usize, &[u8])>
    ensures below { IfSome result (λ found. found.0 < count) }
    ensures reads { (k : ℕ) (rest : List ℕ) → index_at count bytes.now ≡ Ok (k, rest)
        → option_map {U = ℕ × List ℕ} (λ found. (found.0, found.1.now)) result ≡ Some (k, rest) }
{
    let mut walk = Cursor::new(bytes);
    match walk.int() {
        Ok(index) => match number_below(count, index) {
            Some(branch) => Some((branch, walk.rest())),
            None => None,
        },
        Err(_) => None,
    }
}

/// A number that is below a count.
pub(crate) fn number_below(count: usize, number: i32) -> Option<usize>
    ensures { result ≡ number_below count number }
{
    let number = usize::try_from(number).ok()?;
    if number < count { Some(number) } else { None }
}

/// The datum of a kind that a truth value is.
fn boolean_datum(kind: ColType, bytes: &[u8]) -> DatumRef<'_>
    ensures { (b : Bool) (rest : List ℕ) → boolean_at bytes.now ≡ Ok (b, rest)
        → seen result ≡ datum_level (Value-F.Boolean b) kind }
{
    let mut walk = Cursor::new(bytes);
    match walk.boolean() {
        Ok(b) => of_boolean(kind, b),
        Err(_) => DatumRef::Null,
    }
}

/// The datum of a kind that a truth value is.
fn of_boolean(kind: ColType, b: bool) -> DatumRef<'static>
    ensures { seen result ≡ datum_level (Value-F.Boolean b) kind }
{
    match kind {
        ColType::Boolean => DatumRef::Boolean(b),
        _ => DatumRef::Null,
    }
}

/// The datum of a kind that a number of 32 bits is.
fn int_datum(kind: ColType, bytes: &[u8]) -> DatumRef<'_>
    ensures { (n : ℤ) (rest : List ℕ) → int_at bytes.now ≡ Ok (n, rest)
        → seen result ≡ datum_level (Value-F.Int n) kind }
{
    let mut walk = Cursor::new(bytes);
    match walk.int() {
        Ok(n) => of_int(kind, n),
        Err(_) => DatumRef::Null,
    }
}

/// The datum of a kind that a number of 32 bits is.
fn of_int(kind: ColType, n: i32) -> DatumRef<'static>
    ensures { seen result ≡ datum_level (Value-F.Int n) kind }
{
    match kind {
        ColType::Int => DatumRef::Int(n),
        ColType::Date => DatumRef::Date(n),
        _ => DatumRef::Null,
    }
}

/// The datum of a kind that a number of 64 bits is.
fn long_datum(kind: ColType, bytes: &[u8]) -> DatumRef<'_>
    ensures { (n : ℤ) (rest : List ℕ) → long_at bytes.now ≡ Ok (n, rest)
        → seen result ≡ datum_level (Value-F.Long n) kind }
{
    let mut walk = Cursor::new(bytes);
    match walk.long() {
        Ok(n) => of_long(kind, n),
        Err(_) => DatumRef::Null,
    }
}

/// The datum of a kind that a number of 64 bits is.
fn of_long(kind: ColType, n: i64) -> DatumRef<'static>
    ensures { seen result ≡ datum_level (Value-F.Long n) kind }
{
    match kind {
        ColType::Long => DatumRef::Long(n),
        ColType::Time => DatumRef::Time(n),
        ColType::Timestamp => DatumRef::Timestamp(n),
        ColType::TimestampTz => DatumRef::TimestampTz(n),
        _ => DatumRef::Null,
    }
}

/// The datum of a kind that bytes are.
fn bytes_datum(kind: ColType, bytes: &[u8]) -> DatumRef<'_>
    ensures { (content rest : List ℕ) → bytes_at bytes.now ≡ Ok (content, rest)
        → seen result ≡ datum_level (Value-F.Bytes content) kind }
{
    let mut walk = Cursor::new(bytes);
    match walk.bytes() {
        Ok(content) => of_bytes(kind, content),
        Err(_) => DatumRef::Null,
    }
}

/// The datum of a kind that bytes are.
fn of_bytes(kind: ColType, content: &[u8]) -> DatumRef<'_>
    ensures { seen result ≡ datum_level (Value-F.Bytes content.now) kind }
{
    match kind {
        ColType::Binary => DatumRef::Binary(content),
        _ => DatumRef::Null,
    }
}

/// The datum of a kind that a text is.
fn text_datum(kind: ColType, bytes: &[u8]) -> DatumRef<'_>
    ensures { (content rest : List ℕ) → text_at bytes.now ≡ Ok (content, rest)
        → seen result ≡ datum_level (Value-F.Text content) kind }
{
    let mut walk = Cursor::new(bytes);
    match walk.text() {
        Ok(content) => of_text(kind, content),
        Err(_) => DatumRef::Null,
    }
}

/// The datum of a kind that a text is.
fn of_text(kind: ColType, content: &str) -> DatumRef<'_>
    ensures { seen result ≡ datum_level (Value-F.Text content.now) kind }
{
    match kind {
        ColType::Text => DatumRef::Text(content),
        _ => DatumRef::Null,
    }
}

/// The datum of a kind that so many bytes are.
fn fixed_datum(kind: ColType, size: u32, bytes: &[u8]) -> DatumRef<'_>
    ensures { (content rest : List ℕ) → part_at size bytes.now bytes.now ≡ Ok (content, rest)
        → seen result ≡ datum_level (Value-F.Fixed content) kind }
{
    let mut walk = Cursor::new(bytes);
    match walk.fixed(size) {
        Ok(content) => of_fixed(kind, content),
        Err(_) => DatumRef::Null,
    }
}

/// The datum of a kind that bytes of a fixed number are: that whose single value they are.
fn of_fixed(kind: ColType, content: &[u8]) -> DatumRef<'_>
    ensures { seen result ≡ datum_level (Value-F.Fixed content.now) kind }
{
    match kind {
        ColType::Uuid => or_null(from_single(&kind, content)),
        ColType::Fixed(_) => or_null(from_single(&kind, content)),
        _ => DatumRef::Null,
    }
}

/// A datum that is there, else null.
fn or_null(datum: Option<DatumRef<'_>>) -> DatumRef<'_>
    ensures { seen result ≡ or_null (option_map seen datum.entry) }
{
    match datum {
        Some(datum) => datum,
        None => DatumRef::Null,
    }
}
