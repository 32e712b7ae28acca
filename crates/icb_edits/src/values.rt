//! JSON values that stand for single values.
ghost use Rattle.std.specs.Prelude.{◌≡◌, ◌<◌, ◌≤◌, ◌^◌, [], ◌∷◌, IfOk, Ok, OnOk, Some, codes, option_map, pos};
ghost use Rattle.serde_json.specs.Data as json;
ghost use Rattle.serde_json.specs.Data.{depth};
ghost use Rattle.serde_json.specs.View.{members_view, view};
ghost use Rattle.icb_schema.specs.Reading.{optional};
ghost use Rattle.icb_types.specs.Lines.{int_in, long_in, number_json};
ghost use Rattle.icb_meta.specs.Answers.{json_of, shown_of};
ghost use Rattle.icb_meta.specs.Shown.{fields_of};
ghost use Rattle.icb_edits.specs.Sets.{set_one};
ghost use Rattle.icb_edits.specs.Values.{array_of, put_text, texts_json};

use icb_base::NoMemory;
use icb_meta::TableMeta;
use icb_schema::Text;
use serde_json::{Map, Value};
use std::alloc::Global;

/// A time as a signed number.
pub(crate) fn signed(time: u64) -> i64
    requires { time < 2 ^ 63 }
    ensures { result ≡ pos time }
{
    time as i64
}

/// A whole number.
#[tactic(auto, using(crate::proofs::NumberLemmas::long_of))]
fn whole(number: i64) -> Value
    ensures json { view result ≡ number_json number }
    ensures reads { long_in (number_json number) ≡ Some number }
{
    Value::from(number)
}

/// A whole number of 32 bits.
#[tactic(auto, using(crate::proofs::NumberLemmas::int_of))]
fn small(number: i32) -> Value
    ensures json { view result ≡ number_json number }
    ensures reads { int_in (number_json number) ≡ Some number }
{
    Value::from(number)
}

/// A text.
pub(crate) fn text_value(alloc: Global, text: &str) -> Result<Value, NoMemory>
    ensures { IfOk result (λ value. view value ≡ json.string text.now) }
{
    Ok(Value::try_from_str(alloc, text)?)
}

/// Sets a member.
pub(crate) fn put(
    alloc: Global,
    members: &mut Map<String, Value>,
    name: &str,
    value: Value,
) -> Result<(), NoMemory>
    ensures { OnOk result (members_view members.new.entries
        ≡ json.put name.now (view value) (members_view members.old.entries)) }
{
    Ok(serde_json::put(members, alloc, name, value)?)
}

/// Sets a member to a whole number.
pub(crate) fn put_whole(
    alloc: Global,
    members: &mut Map<String, Value>,
    name: &str,
    number: i64,
) -> Result<(), NoMemory>
    ensures reads { long_in (number_json number) ≡ Some number }
    ensures sets { OnOk result (members_view members.new.entries
        ≡ json.put name.now (number_json number) (members_view members.old.entries)) }
{
    put(alloc, members, name, whole(number))
}

/// Sets a member to a whole number of 32 bits.
pub(crate) fn put_small(
    alloc: Global,
    members: &mut Map<String, Value>,
    name: &str,
    number: i32,
) -> Result<(), NoMemory>
    ensures reads { int_in (number_json number) ≡ Some number }
    ensures sets { OnOk result (members_view members.new.entries
        ≡ json.put name.now (number_json number) (members_view members.old.entries)) }
{
    put(alloc, members, name, small(number))
}

/// Sets when the table was last changed.
pub(crate) fn put_time(
    alloc: Global,
    members: &mut Map<String, Value>,
    now_ms: u64,
) -> Result<(), NoMemory>
    requires { now_ms < 2 ^ 63 }
    ensures { OnOk result (members_view members.new.entries ≡ json.put (codes "last-updated-ms")
        (number_json (pos now_ms)) (members_view members.old.entries)) }
{
    put_whole(alloc, members, "last-updated-ms", signed(now_ms))
}

/// Sets a member to a text.
pub(crate) fn put_str(
    alloc: Global,
    members: &mut Map<String, Value>,
    name: &str,
    text: &str,
) -> Result<(), NoMemory>
    ensures { OnOk result (members_view members.new.entries
        ≡ json.put name.now (json.string text.now) (members_view members.old.entries)) }
{
    let value = text_value(alloc, text)?;
    put(alloc, members, name, value)
}

/// Sets a member to a text, where there is one.
pub(crate) fn put_text_or_none(
    alloc: Global,
    members: &mut Map<String, Value>,
    name: &str,
    text: Option<&Text>,
) -> Result<(), NoMemory>
    ensures { OnOk result (members_view members.new.entries
        ≡ set_one name.now (option_map json.string (option_map (λ t. t.now) text.entry))
        (members_view members.old.entries)) }
{
    match text {
        Some(text) => put_str(alloc, members, name, text.as_str()),
        None => Ok(()),
    }
}

/// Sets a member to a whole number, where there is one.
pub(crate) fn put_whole_or_none(
    alloc: Global,
    members: &mut Map<String, Value>,
    name: &str,
    number: Option<i64>,
) -> Result<(), NoMemory>
    ensures reads { optional long_in (option_map number_json number) ≡ Some number }
    ensures sets { OnOk result (members_view members.new.entries
        ≡ set_one name.now (option_map number_json number) (members_view members.old.entries)) }
{
    match number {
        Some(number) => put_whole(alloc, members, name, number),
        None => Ok(()),
    }
}

/// Sets a member to a whole number of 32 bits, where there is one.
pub(crate) fn put_small_or_none(
    alloc: Global,
    members: &mut Map<String, Value>,
    name: &str,
    number: Option<i32>,
) -> Result<(), NoMemory>
    ensures reads { optional int_in (option_map number_json number) ≡ Some number }
    ensures sets { OnOk result (members_view members.new.entries
        ≡ set_one name.now (option_map number_json number) (members_view members.old.entries)) }
{
    match number {
        Some(number) => put_small(alloc, members, name, number),
        None => Ok(()),
    }
}

/// An array of one value.
pub(crate) fn array_of_one(alloc: Global, value: Value) -> Result<Value, NoMemory>
    ensures { IfOk result (λ array. view array ≡ array_of (view value ∷ [])) }
{
    let mut values = Vec::new(alloc);
    values.push(value)?;
    Ok(Value::Array(values))
}

/// An object of texts.
#[tactic(auto, unfolding(crate::specs::Values::texts_json))]
pub(crate) fn texts_json(alloc: Global, texts: &[(Text, Text)]) -> Result<Value, NoMemory>
    ensures { IfOk result (λ value. view value ≡ texts_json texts.now) }
{
    let mut members = Map::new(alloc);
    for (name, text) in texts {
        put_str(alloc, &mut members, name.as_str(), text.as_str())?;
    }
    Ok(Value::Object(members))
}

/// The metadata that a JSON value shows, where it is known to show one.
pub(crate) fn made(alloc: Global, json: Value) -> Result<TableMeta, NoMemory>
    requires { depth (view json) ≤ 127 }
    ensures json { IfOk result (λ meta. json_of meta ≡ view json) }
    ensures shown { IfOk result (λ meta. fields_of (view json) ≡ Ok (shown_of meta)) }
{
    match TableMeta::from_json(alloc, json) {
        Ok(meta) => Ok(meta),
        Err(_) => Err(NoMemory),
    }
}
