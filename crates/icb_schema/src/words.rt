//! The words of a schema that aren't names of types.
ghost use Rattle.std.specs.Prelude.{◌≡◌, option_map};
ghost use Rattle.icb_schema.specs.Nodes.{form_of};
ghost use Rattle.icb_schema.specs.Reading.{primitive_form, word_of};

use crate::node::Kind;

/// What an object's `type` may say beside a schema.
#[derive(Clone, Copy, Drop)]
pub(crate) enum Word {
    Fixed,
    Enum,
    Record,
    Array,
    Map,
}

/// The word that a text is.
pub(crate) fn word_of(name: &str) -> Option<Word>
    ensures { result ≡ word_of name.now }
{
    if name == "fixed" {
        Some(Word::Fixed)
    } else if name == "enum" {
        Some(Word::Enum)
    } else if name == "record" {
        Some(Word::Record)
    } else if name == "array" {
        Some(Word::Array)
    } else if name == "map" {
        Some(Word::Map)
    } else {
        None
    }
}

/// The primitive type of a name.
#[tactic(auto, using(crate::proofs::NodeLemmas::primitive_forms))]
pub(crate) fn primitive_named(name: &str) -> Option<Kind>
    ensures { option_map form_of result ≡ primitive_form name.now }
{
    if name == "null" {
        Some(Kind::Null)
    } else if name == "boolean" {
        Some(Kind::Boolean)
    } else if name == "int" {
        Some(Kind::Int)
    } else if name == "long" {
        Some(Kind::Long)
    } else if name == "float" {
        Some(Kind::Float)
    } else if name == "double" {
        Some(Kind::Double)
    } else if name == "bytes" {
        Some(Kind::Bytes)
    } else if name == "string" {
        Some(Kind::Text)
    } else {
        None
    }
}
