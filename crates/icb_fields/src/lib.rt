//! Fields of Avro records by their ids, whoever wrote the records, and the schemas that are written.
#![tactic(auto)]

mod fault;
mod making;
mod record;

pub use fault::{BadField, FieldFault};
pub use making::{
    Slot, Written, bytes_or_null, field, long_or_null, not_null, record_node, slot_fields,
};
pub use record::{FromRecord, Record, has_bytes, has_int, has_long, owned};
