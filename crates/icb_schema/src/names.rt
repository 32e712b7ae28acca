//! Names of types: which are distinct, and what a full name is.
ghost use Rattle.std.specs.Prelude.{◌≡◌, IfOk, map};
ghost use Rattle.icb_schema.specs.Names.{is_among, are_distinct, full_name, namespace_of};

use crate::lists::{NoMemory, Text};
use std::alloc::Global;
use std::collections::BTreeSet;

/// The name is among these.
pub(crate) fn is_among(name: &str, names: &[Text]) -> bool
    ensures { result ≡ is_among name.now names.now }
{
    names.iter().any(|other| other.as_str() == name)
}

/// No two of these are equal. Each is looked up among those before it, which are held in order.
pub(crate) fn are_distinct(alloc: Global, names: &[&str]) -> Result<bool, NoMemory>
    ensures { IfOk result (λ distinct. distinct ≡ are_distinct (map (λ n. n.now) names.now)) }
{
    let mut before = BTreeSet::new(alloc);
    for name in names {
        if !before.insert(*name)? {
            return Ok(false);
        }
    }
    Ok(true)
}

/// The part of a full name before its last dot, which is empty where there is no dot.
#[tactic(auto, unfolding(crate::specs::Names::namespace_of))]
pub(crate) fn namespace_of(name: &str) -> &str
    ensures { result.now ≡ namespace_of name.now }
{
    let bytes = name.as_bytes();
    let mut at = bytes.len();
    while at > 0 {
        at -= 1;
        if bytes[at] == b'.' {
            return &name[..at];
        }
    }
    ""
}

/// The full name of a name that stands in a namespace.
#[tactic(auto, unfolding(crate::specs::Names::full_name))]
pub(crate) fn full_name(alloc: Global, namespace: &str, name: &str) -> Result<Text, NoMemory>
    ensures { IfOk result (λ full. full ≡ full_name namespace.now name.now) }
{
    if namespace.is_empty() || name.as_bytes().contains(&b'.') {
        return Text::from_str(alloc, name);
    }
    let mut full = String::from_str(alloc, namespace)?;
    full.push_str(".")?;
    full.push_str(name)?;
    Ok(Text::from_string(full))
}
