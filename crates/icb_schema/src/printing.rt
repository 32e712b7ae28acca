//! From a node to the JSON value of its schema.
ghost use Rattle.std.specs.Prelude.{◌≡◌, [], ◌∷◌, IfOk, OnOk, Some, codes, map, option_map, if◌then◌else◌, Bool, not, ◌&&◌};
ghost use Rattle.serde_json.specs.Data as json;
ghost use Rattle.serde_json.specs.View.{view, items_view, members_view};
ghost use Rattle.icb_schema.specs.Names.{has_dot};
ghost use Rattle.icb_schema.specs.Nodes.{fields_of, part_of, tree_of, trees_of};
ghost use Rattle.icb_schema.specs.Printing.{attributed, begins_with_null, default_json, field_json, fields_json, id_json, is_null_tree, json_of, of_type, plain, texts_json, trees_json, with_member, with_name};

use crate::lists::{Names, NoMemory, Text};
use crate::node::{Field, Kind, Node};
use serde_json::{Map, Value};
use std::alloc::Global;

/// The members of a JSON object.
type Members = Map<String, Value>;

/// The JSON of a schema. `dotted` says that the full name of the nearest enclosing record has a dot.
#[cycle(printing)]
pub(crate) fn json_of(alloc: Global, node: &Node, dotted: bool) -> Result<Value, NoMemory>
    ensures { IfOk result (λ value. view value ≡ json_of dotted (tree_of node.now)) }
{
    match &node.kind {
        Kind::Null => plain_text(alloc, "null", node),
        Kind::Boolean => plain_text(alloc, "boolean", node),
        Kind::Int => plain_text(alloc, "int", node),
        Kind::Long => plain_text(alloc, "long", node),
        Kind::Float => plain_text(alloc, "float", node),
        Kind::Double => plain_text(alloc, "double", node),
        Kind::Bytes => plain_text(alloc, "bytes", node),
        Kind::Text => plain_text(alloc, "string", node),
        Kind::Fixed { name, size } => fixed_json(alloc, node, dotted, name, *size),
        Kind::Enum { name, symbols } => enum_json(alloc, node, dotted, name, symbols),
        Kind::Record { name, fields } => {
            let fields = list_json(alloc, fields.as_slice(), has_dot(name))?;
            record_json(alloc, node, dotted, name, fields)
        }
        Kind::Array { items, element } => {
            let items = json_of(alloc, items.get(), dotted)?;
            array_json(alloc, node, items, *element)
        }
        Kind::Map { values, key, value } => {
            let values = json_of(alloc, values.get(), dotted)?;
            map_json(alloc, node, values, *key, *value)
        }
        Kind::Union { branches } => {
            let branches = branches_json(alloc, branches.as_slice(), dotted)?;
            plain(alloc, Value::Array(branches), node)
        }
    }
}

/// The JSON of fields, in order.
#[cycle(printing)]
fn list_json(alloc: Global, fields: &[Field], dotted: bool) -> Result<Vec<Value>, NoMemory>
    ensures { IfOk result (λ values. items_view values.items
        ≡ fields_json dotted (fields_of (map part_of fields.now))) }
{
    let mut values = Vec::new(alloc);
    for field in fields {
        let schema = json_of(alloc, &field.node, dotted)?;
        values.push(field_json(alloc, field, schema)?)?;
    }
    Ok(values)
}

/// The JSON of branches, in order.
#[cycle(printing)]
fn branches_json(alloc: Global, nodes: &[Node], dotted: bool) -> Result<Vec<Value>, NoMemory>
    ensures { IfOk result (λ values. items_view values.items
        ≡ trees_json dotted (trees_of (map tree_of nodes.now))) }
{
    let mut values = Vec::new(alloc);
    for node in nodes {
        values.push(json_of(alloc, node, dotted)?)?;
    }
    Ok(values)
}

/// A field, whose schema's JSON is made.
fn field_json(alloc: Global, field: &Field, schema: Value) -> Result<Value, NoMemory>
    ensures { IfOk result (λ value. view value ≡ field_json field.now.name field.now.id
        (default_json (tree_of field.now.node)) (view schema)) }
{
    let mut members = Map::new(alloc);
    put(alloc, &mut members, "type", schema)?;
    put_text(alloc, &mut members, "name", &field.name)?;
    put_id(alloc, &mut members, "field-id", field.id)?;
    if begins_with_null(&field.node) {
        put(alloc, &mut members, "default", Value::Null)?;
    }
    Ok(Value::Object(members))
}

/// The node is a union whose first branch is null.
fn begins_with_null(node: &Node) -> bool
    ensures { result ≡ begins_with_null (tree_of node.now) }
{
    match &node.kind {
        Kind::Union { branches } => match branches.as_slice() {
            [first, ..] => is_null(first),
            [] => false,
        },
        _ => false,
    }
}

/// The node is null.
fn is_null(node: &Node) -> bool
    ensures { result ≡ is_null_tree (tree_of node.now) }
{
    match &node.kind {
        Kind::Null => true,
        _ => false,
    }
}

/// A record, whose fields' JSON is made.
fn record_json(
    alloc: Global,
    node: &Node,
    dotted: bool,
    name: &Text,
    fields: Vec<Value>,
) -> Result<Value, NoMemory>
    ensures { IfOk result (λ value. view value ≡ json.object (attributed node.now.logical
        node.now.utc (with_member (codes "fields") (Some (json.array (items_view fields.items)))
        (with_name dotted name.now (of_type (json.string (codes "record"))))))) }
{
    let mut members = typed(alloc, "record")?;
    put_name(alloc, &mut members, dotted, name)?;
    put(alloc, &mut members, "fields", Value::Array(fields))?;
    put_attributes(alloc, &mut members, node)?;
    Ok(Value::Object(members))
}

/// The name is a full name with a namespace, which may be empty.
fn has_dot(name: &Text) -> bool
    ensures { result ≡ has_dot name.now }
{
    name.as_slice().contains(&b'.')
}

/// A fixed type.
fn fixed_json(
    alloc: Global,
    node: &Node,
    dotted: bool,
    name: &Text,
    size: u32,
) -> Result<Value, NoMemory>
    ensures { IfOk result (λ value. view value ≡ json.object (attributed node.now.logical
        node.now.utc (with_name dotted name.now (with_member (codes "size")
        (Some (json.number (json.unsigned size))) (of_type (json.string (codes "fixed"))))))) }
{
    let mut members = typed(alloc, "fixed")?;
    put(alloc, &mut members, "size", Value::from(size))?;
    put_name(alloc, &mut members, dotted, name)?;
    put_attributes(alloc, &mut members, node)?;
    Ok(Value::Object(members))
}

/// An enum.
fn enum_json(
    alloc: Global,
    node: &Node,
    dotted: bool,
    name: &Text,
    symbols: &Names,
) -> Result<Value, NoMemory>
    ensures { IfOk result (λ value. view value ≡ json.object (attributed node.now.logical
        node.now.utc (with_name dotted name.now (with_member (codes "symbols")
        (Some (json.array (texts_json symbols.now))) (of_type (json.string (codes "enum"))))))) }
{
    let mut members = typed(alloc, "enum")?;
    let symbols = symbols_json(alloc, symbols.as_slice())?;
    put(alloc, &mut members, "symbols", Value::Array(symbols))?;
    put_name(alloc, &mut members, dotted, name)?;
    put_attributes(alloc, &mut members, node)?;
    Ok(Value::Object(members))
}

/// Texts, in order.
fn symbols_json(alloc: Global, symbols: &[Text]) -> Result<Vec<Value>, NoMemory>
    ensures { IfOk result (λ values. items_view values.items ≡ texts_json symbols.now) }
{
    let mut values = Vec::new(alloc);
    for symbol in symbols {
        values.push(Value::try_from_str(alloc, symbol.as_str())?)?;
    }
    Ok(values)
}

/// An array, whose items' JSON is made.
fn array_json(
    alloc: Global,
    node: &Node,
    items: Value,
    element: Option<i32>,
) -> Result<Value, NoMemory>
    ensures { IfOk result (λ value. view value ≡ json.object (attributed node.now.logical
        node.now.utc (with_member (codes "element-id") (option_map id_json element)
        (with_member (codes "items") (Some (view items))
        (of_type (json.string (codes "array"))))))) }
{
    let mut members = typed(alloc, "array")?;
    put(alloc, &mut members, "items", items)?;
    put_id(alloc, &mut members, "element-id", element)?;
    put_attributes(alloc, &mut members, node)?;
    Ok(Value::Object(members))
}

/// A map, whose values' JSON is made.
fn map_json(
    alloc: Global,
    node: &Node,
    values: Value,
    key: Option<i32>,
    value: Option<i32>,
) -> Result<Value, NoMemory>
    ensures { IfOk result (λ v. view v ≡ json.object (attributed node.now.logical
        node.now.utc (with_member (codes "key-id") (option_map id_json key)
        (with_member (codes "value-id") (option_map id_json value)
        (with_member (codes "values") (Some (view values))
        (of_type (json.string (codes "map")))))))) }
{
    let mut members = typed(alloc, "map")?;
    put(alloc, &mut members, "values", values)?;
    put_id(alloc, &mut members, "value-id", value)?;
    put_id(alloc, &mut members, "key-id", key)?;
    put_attributes(alloc, &mut members, node)?;
    Ok(Value::Object(members))
}

/// A primitive type's name, and with attributes an object.
fn plain_text(alloc: Global, name: &str, node: &Node) -> Result<Value, NoMemory>
    ensures { IfOk result (λ value. view value
        ≡ plain (json.string name.now) node.now.logical node.now.utc) }
{
    plain(alloc, Value::try_from_str(alloc, name)?, node)
}

/// A name or an array, and with attributes an object.
fn plain(alloc: Global, schema: Value, node: &Node) -> Result<Value, NoMemory>
    ensures { IfOk result (λ value. view value
        ≡ plain (view schema) node.now.logical node.now.utc) }
{
    if node.logical.is_none() && node.utc.is_none() {
        return Ok(schema);
    }
    let mut members = Map::new(alloc);
    put(alloc, &mut members, "type", schema)?;
    put_attributes(alloc, &mut members, node)?;
    Ok(Value::Object(members))
}

/// The members of an object with this `type`.
fn typed(alloc: Global, word: &str) -> Result<Members, NoMemory>
    ensures { IfOk result (λ members. members_view members.entries
        ≡ of_type (json.string word.now)) }
{
    let mut members = Map::new(alloc);
    put(
        alloc,
        &mut members,
        "type",
        Value::try_from_str(alloc, word)?,
    )?;
    Ok(members)
}

/// Adds a member.
fn put(alloc: Global, members: &mut Members, key: &str, value: Value) -> Result<(), NoMemory>
    ensures { OnOk result (members_view members.new.entries
        ≡ with_member key.now (Some (view value)) (members_view members.old.entries)) }
{
    serde_json::put(members, alloc, key, value)?;
    Ok(())
}

/// Adds a member that is a text.
fn put_text(alloc: Global, members: &mut Members, key: &str, text: &Text) -> Result<(), NoMemory>
    ensures { OnOk result (members_view members.new.entries
        ≡ with_member key.now (Some (json.string text.now)) (members_view members.old.entries)) }
{
    put(
        alloc,
        members,
        key,
        Value::try_from_str(alloc, text.as_str())?,
    )
}

/// Adds an id where there is one.
fn put_id(alloc: Global, members: &mut Members, key: &str, id: Option<i32>) -> Result<(), NoMemory>
    ensures { OnOk result (members_view members.new.entries
        ≡ with_member key.now (option_map id_json id) (members_view members.old.entries)) }
{
    match id {
        Some(id) => put(alloc, members, key, Value::from(id)),
        None => Ok(()),
    }
}

/// A full name; one without a dot stands in the empty namespace.
fn put_name(alloc: Global, members: &mut Members, dotted: bool, name: &Text) -> Result<(), NoMemory>
    ensures { OnOk result (members_view members.new.entries
        ≡ with_name dotted name.now (members_view members.old.entries)) }
{
    if dotted && !has_dot(name) {
        put(alloc, members, "namespace", Value::try_from_str(alloc, "")?)?;
    }
    put_text(alloc, members, "name", name)
}

/// The attributes that are there.
fn put_attributes(alloc: Global, members: &mut Members, node: &Node) -> Result<(), NoMemory>
    ensures { OnOk result (members_view members.new.entries
        ≡ attributed node.now.logical node.now.utc (members_view members.old.entries)) }
{
    if let Some(logical) = &node.logical {
        put_text(alloc, members, "logicalType", logical)?;
    }
    if let Some(utc) = node.utc {
        put(alloc, members, "adjust-to-utc", Value::from(utc))?;
    }
    Ok(())
}
