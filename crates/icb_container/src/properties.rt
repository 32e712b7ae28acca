//! Properties in the order of their keys.
ghost use Rattle.std.specs.Prelude.{◌≡◌, codes, true, IfOk, OnOk};
ghost use Rattle.std.specs.List.{AllByRecursion};
ghost use Rattle.std.specs.Str.{is_utf8};
ghost use Rattle.std.specs.Ordering.{nat_cmp};
ghost use Rattle.std.specs.Cmp.Lexicographic.{slice_cmp};
ghost use Rattle.std.specs.FinMap as finite;
ghost use Rattle.icb_container.specs.Sorted.{pairs};
ghost use Rattle.icb_container.specs.Written.{properties_of};

use icb_schema::{NoMemory, Octets, Text};
use std::alloc::Global;
use std::cmp::Ordering;

/// A key and its value.
#[derive(Clone, Copy, Debug)]
pub(crate) struct Property<'a> {
    pub(crate) key: &'a str,
    pub(crate) value: &'a [u8],
}

/// The properties of a file whose schema is this text, in the order of their keys.
pub(crate) fn sorted<'a>(
    alloc: Global,
    schema: &'a Text,
    extra: &'a [(Text, Octets)],
) -> Result<Vec<Property<'a>>, NoMemory>
    ensures sorted { IfOk result (λ list.
        pairs list.items ≡ finite.entries (properties_of schema.now extra.now)) }
    ensures texts { OnOk result (AllByRecursion (λ e. is_utf8 e.0 ≡ true) extra.now) }
{
    let mut list = Vec::new(alloc);
    for property in extra {
        put(&mut list, property.0.as_str(), property.1.as_slice())?;
    }
    put(&mut list, "avro.codec", b"null")?;
    put(&mut list, "avro.schema", schema.as_slice())?;
    Ok(list)
}

/// Puts a property in its place; at an equal key the value is new.
fn put<'a>(list: &mut Vec<Property<'a>>, key: &'a str, value: &'a [u8]) -> Result<(), NoMemory>
    ensures { OnOk result (pairs list.new.items
        ≡ finite.put (slice_cmp nat_cmp) key.now value.now (pairs list.old.items)) }
{
    for place in 0..list.len() {
        match key.cmp(list[place].key) {
            Ordering::Less => {
                list.insert(place, Property { key, value })?;
                return Ok(());
            }
            Ordering::Equal => {
                list[place].value = value;
                return Ok(());
            }
            Ordering::Greater => {}
        }
    }
    list.push(Property { key, value })?;
    Ok(())
}
