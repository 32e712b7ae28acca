//! Single members of a JSON object, in the forms that table metadata has them.
ghost use Rattle.std.specs.Prelude.{◌≡◌, codes, map, option_map};
ghost use Rattle.serde_json.specs.Find.{as_bool, as_str};
ghost use Rattle.serde_json.specs.View.{view};
ghost use Rattle.std.specs.Int.{w128, from_be_bytes};
ghost use Rattle.uuid.specs.Text.{parsed};
ghost use Rattle.icb_schema.specs.Reading.{as_list, needed, optional};
ghost use Rattle.icb_types.specs.Lines.{int_in, long_in, uuid_in};
ghost use Rattle.icb_meta.specs.Answers.{Shows};
ghost use Rattle.icb_meta.specs.Forms.{is_location, is_unset, location_in, natural_in, version_in};
ghost use Rattle.serde_json.specs.Find.{get};
ghost use Rattle.icb_meta.specs.Shown.{member};

use crate::fault::Refusal;
use serde_json::Value;
use uuid::Uuid;

/// A whole number of 32 bits.
pub(crate) fn int_in(value: &Value) -> Option<i32>
    ensures { result ≡ int_in (view value.now) }
{
    i32::try_from(value.as_i64()?).ok()
}

/// A member that is a whole number of 32 bits.
pub(crate) fn needed_int(object: &Value, name: &str) -> Option<i32>
    ensures { result ≡ needed int_in name.now (view object.now) }
{
    int_in(object.get(name)?)
}

/// A member that is a whole number.
pub(crate) fn needed_long(object: &Value, name: &str) -> Option<i64>
    ensures { result ≡ needed long_in name.now (view object.now) }
{
    object.get(name)?.as_i64()
}

/// A member that is a text.
pub(crate) fn needed_text<'v>(object: &'v Value, name: &str) -> Option<&'v str>
    ensures { option_map (λ text. text.now) result ≡ needed as_str name.now (view object.now) }
{
    object.get(name)?.as_str()
}

/// A member that is a truth value.
pub(crate) fn needed_bool(object: &Value, name: &str) -> Option<bool>
    ensures { result ≡ needed as_bool name.now (view object.now) }
{
    object.get(name)?.as_bool()
}

/// The items of an array.
#[tactic(auto, using(icb_schema::proofs::JsonLemmas::list_of_items))]
pub(crate) fn items_in(value: &Value) -> Option<&[Value]>
    ensures { option_map (λ items. map view items.now) result ≡ as_list (view value.now) }
{
    match value.as_array() {
        Some(items) => Some(items.as_slice()),
        None => None,
    }
}

/// The items of a member that is an array.
pub(crate) fn needed_items<'v>(object: &'v Value, name: &str) -> Option<&'v [Value]>
    ensures { option_map (λ items. map view items.now) result
        ≡ needed as_list name.now (view object.now) }
{
    items_in(object.get(name)?)
}

/// A whole number of 32 bits that may be absent.
pub(crate) fn optional_int(object: &Value, name: &str) -> Option<Option<i32>>
    ensures { result ≡ optional int_in (get name.now (view object.now)) }
{
    match object.get(name) {
        Some(member) => Some(Some(int_in(member)?)),
        None => Some(None),
    }
}

/// A whole number that may be absent.
pub(crate) fn optional_long(object: &Value, name: &str) -> Option<Option<i64>>
    ensures { result ≡ optional long_in (get name.now (view object.now)) }
{
    match object.get(name) {
        Some(member) => Some(Some(member.as_i64()?)),
        None => Some(None),
    }
}

/// A text that may be absent.
pub(crate) fn optional_text<'v>(object: &'v Value, name: &str) -> Option<Option<&'v str>>
    ensures { option_map (option_map (λ text. text.now)) result
        ≡ optional as_str (get name.now (view object.now)) }
{
    match object.get(name) {
        Some(member) => Some(Some(member.as_str()?)),
        None => Some(None),
    }
}

/// Whether a member is absent or null.
pub(crate) fn is_unset(object: &Value, name: &str) -> bool
    ensures { result ≡ is_unset (get name.now (view object.now)) }
{
    match object.get(name) {
        Some(member) => member.is_null(),
        None => true,
    }
}

/// The field of this name, a whole number.
pub(crate) fn long_field(object: &Value, name: &'static str) -> Result<i64, Refusal>
    ensures { Shows (λ n. n) result (member long_in name.now (view object.now)) }
{
    needed_long(object, name).ok_or(Refusal::Field(name))
}

/// The field of this name, a whole number of 32 bits.
pub(crate) fn int_field(object: &Value, name: &'static str) -> Result<i32, Refusal>
    ensures { Shows (λ n. n) result (member int_in name.now (view object.now)) }
{
    needed_int(object, name).ok_or(Refusal::Field(name))
}

/// The field of this name, a whole number from 0 up.
pub(crate) fn natural_field(object: &Value, name: &'static str) -> Result<i64, Refusal>
    ensures { Shows (λ n. n) result (member natural_in name.now (view object.now)) }
{
    match needed_long(object, name) {
        Some(number) if number >= 0 => Ok(number),
        _ => Err(Refusal::Field(name)),
    }
}

/// The format version, which is 3.
pub(crate) fn version_field(object: &Value) -> Result<i64, Refusal>
    ensures { Shows (λ n. n) result (member version_in (codes "format-version") (view object.now)) }
{
    match needed_long(object, "format-version") {
        Some(version) if version == 3 => Ok(version),
        _ => Err(Refusal::Field("format-version")),
    }
}

/// The table's identifier.
pub(crate) fn uuid_field(object: &Value) -> Result<u128, Refusal>
    ensures { Shows (λ id. id) result (member uuid_in (codes "table-uuid") (view object.now)) }
{
    match needed_text(object, "table-uuid") {
        Some(text) => uuid_in(text).ok_or(Refusal::Field("table-uuid")),
        None => Err(Refusal::Field("table-uuid")),
    }
}

/// The number of the identifier that a text is in one of its four forms.
fn uuid_in(text: &str) -> Option<u128>
    ensures { result ≡ option_map (from_be_bytes w128) (parsed text.now) }
{
    match Uuid::parse_str(text) {
        Ok(id) => Some(id.as_u128()),
        Err(_) => None,
    }
}

/// Where the table is.
pub(crate) fn location_field(object: &Value) -> Result<&str, Refusal>
    ensures { Shows (λ text. text.now) result
        (member location_in (codes "location") (view object.now)) }
{
    match needed_text(object, "location") {
        Some(text) if is_location(text) => Ok(text),
        _ => Err(Refusal::Field("location")),
    }
}

/// Whether a text may be a table's location: it isn't empty and has no `/` at its end.
pub fn is_location(text: &str) -> bool
    ensures { result ≡ is_location text.now }
{
    let bytes = text.as_bytes();
    !bytes.is_empty() && bytes[bytes.len() - 1] != b'/'
}
