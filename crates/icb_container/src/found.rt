//! The properties of a header that are looked at.
ghost use Rattle.std.specs.Prelude.{◌≡◌, [], ◌∷◌, ◌++◌, List};
ghost use Rattle.icb_container.specs.Header.{Property};
ghost use Rattle.icb_container.specs.Kept.{IsKept};

use icb_schema::Octets;

/// A property's value.
#[derive(Debug, Drop)]
pub(crate) struct PropertyValue {
    /// The value.
    pub(crate) bytes: Octets,
    /// Where it begins.
    pub(crate) place: u64,
}

/// The last schema and the last codec so far.
#[derive(Debug, Drop)]
pub(crate) struct Found {
    pub(crate) schema: Option<PropertyValue>,
    pub(crate) codec: Option<PropertyValue>,
}

impl Found {
    /// Before the first property.
    pub(crate) fn new() -> Self
        ensures { IsKept result [] }
    {
        Found {
            schema: None,
            codec: None,
        }
    }

    /// Behind one more property.
    pub(crate) fn put(&mut self, key: &[u8], value: PropertyValue)
        ensures { (ps : List Property) → IsKept self.old ps → IsKept self.new (ps
            ++ record { key = key.now; value = value.bytes; place = value.place } ∷ []) }
    {
        if key == b"avro.schema".as_slice() {
            self.schema = Some(value);
        } else if key == b"avro.codec".as_slice() {
            self.codec = Some(value);
        }
    }
}
