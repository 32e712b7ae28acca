//! What the members of a JSON object say of a schema.
ghost use Rattle.std.specs.Prelude.{◌≡◌, ◌↔◌, option_map, option_and_then, codes};
ghost use Rattle.serde_json.specs.Find.{as_bool, as_str};
ghost use Rattle.serde_json.specs.View.{view};
ghost use Rattle.icb_schema.specs.Answers.{Gives};
ghost use Rattle.icb_schema.specs.Reading.{attributes_of, id_of, needed, optional, or_shape, size_of};

use crate::fault::SchemaFault;
use crate::lists::Text;
use serde_json::Value;
use std::alloc::Global;
use std::marker::Model;

/// The attributes that any object may have.
#[derive(Drop)]
pub(crate) struct Attributes {
    pub(crate) logical: Option<Text>,
    pub(crate) utc: Option<bool>,
    pub(crate) element: Option<i32>,
    pub(crate) key: Option<i32>,
    pub(crate) value: Option<i32>,
}

impl Model for Attributes {
    ghost use Rattle.icb_schema.specs.Reading as spec;

    ghost Value = { spec.Attributes };

    ghost view = { λ a. record { logical = a.logical; utc = a.utc; element = a.element; key = a.key; value = a.value } };
}

/// The attributes of the object that a node is read from.
pub(crate) fn attributes_of(
    alloc: Global,
    object: &Value,
    node: u32,
) -> Result<Attributes, SchemaFault>
    ensures { Gives (λ a. a) result (attributes_of node (view object.now)) }
{
    let logical = optional_text(alloc, object.get("logicalType"), node)?;
    let fault = SchemaFault::Shape { node };
    let utc = optional_bool(object.get("adjust-to-utc")).ok_or(fault)?;
    let element = optional_id(object.get("element-id")).ok_or(fault)?;
    let key = optional_id(object.get("key-id")).ok_or(fault)?;
    let value = optional_id(object.get("value-id")).ok_or(fault)?;
    Ok(Attributes {
        logical,
        utc,
        element,
        key,
        value,
    })
}

/// A text that may be absent.
fn optional_text(
    alloc: Global,
    member: Option<&Value>,
    node: u32,
) -> Result<Option<Text>, SchemaFault>
    ensures { Gives (λ text. text) result
        (or_shape node (optional as_str (option_map (λ v. view v.now) member.entry))) }
{
    let Some(member) = member else {
        return Ok(None);
    };
    match member.as_str() {
        Some(text) => Ok(Some(Text::from_str(alloc, text)?)),
        None => Err(SchemaFault::Shape { node }),
    }
}

/// A truth value that may be absent.
fn optional_bool(member: Option<&Value>) -> Option<Option<bool>>
    ensures { result ≡ optional as_bool (option_map (λ v. view v.now) member.entry) }
{
    match member {
        Some(member) => Some(Some(member.as_bool()?)),
        None => Some(None),
    }
}

/// An id that may be absent, and is a whole number of 32 bits where it is there.
pub(crate) fn optional_id(member: Option<&Value>) -> Option<Option<i32>>
    ensures { result ≡ optional id_of (option_map (λ v. view v.now) member.entry) }
{
    match member {
        Some(member) => Some(Some(id_of(member)?)),
        None => Some(None),
    }
}

/// An id: a whole number of 32 bits.
fn id_of(value: &Value) -> Option<i32>
    ensures { result ≡ id_of (view value.now) }
{
    match value.as_i64() {
        Some(n) => if i32::MIN as i64 <= n && n <= i32::MAX as i64 {
            Some(n as i32)
        } else {
            None
        },
        None => None,
    }
}

/// A member that is needed, and is a text.
pub(crate) fn needed_text<'v>(object: &'v Value, name: &str) -> Option<&'v str>
    ensures { option_map (λ s. s.now) result ≡ needed as_str name.now (view object.now) }
{
    object.get(name)?.as_str()
}

/// The size of a fixed type, up to 1,048,576 bytes.
pub(crate) fn size_of(object: &Value) -> Option<u32>
    ensures { result ≡ needed size_of (codes "size") (view object.now) }
{
    match object.get("size")?.as_u64() {
        Some(n) => if n <= 1_048_576 { Some(n as u32) } else { None },
        None => None,
    }
}
