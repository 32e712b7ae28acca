//! Texts, and refusals in words.

use icb_chain::ChainFault;
use icb_schema::Text;
use icb_turns::{CannotWhat, JobFault};
use icb_walk::TreeFault;
use std::process::Abort;

/// A text.
pub(crate) fn text(rt: &(impl Abort + AllocGlobal), text: &str) -> Text {
    Text::from_str(rt.alloc(), text).expect(rt, "room")
}

/// Adds to a text.
pub(crate) fn add(rt: &(impl Abort + AllocGlobal), text: &mut String, more: &str) {
    text.push_str(more).expect(rt, "room");
}

/// A name in words.
fn one(rt: &(impl Abort + AllocGlobal), name: &str) -> String {
    String::from_str(rt.alloc(), name).expect(rt, "room")
}

/// A name and a value in words.
fn two(rt: &(impl Abort + AllocGlobal), name: &str, value: &str) -> String {
    let words = format!(in rt.alloc(); "{name} {value}");
    words.expect(rt, "room")
}

/// A refusal in words.
pub(crate) fn refusal_in_words(rt: &(impl Abort + AllocGlobal), fault: &JobFault) -> String {
    match fault {
        JobFault::SameKey { id } => two(rt, "SameKey", id.as_str()),
        JobFault::KeyName { id } => two(rt, "KeyName", id.as_str()),
        JobFault::BadMeta { field } => two(rt, "BadMeta", field.as_str()),
        JobFault::Tree(TreeFault::Chain(fault)) => chain_refusal(rt, fault),
        JobFault::Limit { number, .. } => numbered(rt, *number),
        fault => one(rt, name_of(fault)),
    }
}

/// A limit in words.
fn numbered(rt: &(impl Abort + AllocGlobal), number: u64) -> String {
    let words = format!(in rt.alloc(); "Limit {number}");
    words.expect(rt, "room")
}

/// The refusal of a key in words.
fn chain_refusal(rt: &(impl Abort + AllocGlobal), fault: &ChainFault) -> String {
    match fault {
        ChainFault::NoKey { id } => two(rt, "NoKey", id.as_str()),
        ChainFault::KeyRefused { id } => two(rt, "KeyRefused", id.as_str()),
        _ => one(rt, "another of keys"),
    }
}

/// The name of a refusal that has no value.
fn name_of(fault: &JobFault) -> &'static str {
    match fault {
        JobFault::NoTable => "NoTable",
        JobFault::Cannot {
            what: CannotWhat::NotEncrypted,
        } => "NotEncrypted",
        JobFault::Contended { .. } => "Contended",
        JobFault::Random => "Random",
        JobFault::Store => "Store",
        _ => "another",
    }
}
