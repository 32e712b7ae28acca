//! From a JSON value to the record that it shows, or to the first refused field.
ghost use Rattle.std.specs.Prelude.{◌≡◌, ◌≤◌, [], IfOk};
ghost use Rattle.serde_json.specs.Data.{depth};
ghost use Rattle.serde_json.specs.View.{view};
ghost use Rattle.icb_schema.specs.Reading.{json_in};
ghost use Rattle.icb_meta.specs.Answers.{Shows};
ghost use Rattle.icb_meta.specs.Shown.{fields_of, heading_of, layout_of, or_field, state_of};

use crate::fault::Refusal;
use crate::fields::{Fields, Heading, Layout, State};
use crate::keys::{entries_field, properties_field};
use crate::members::{
    int_field, location_field, long_field, natural_field, uuid_field, version_field,
};
use crate::orders::{chosen_order, orders_field};
use crate::plain::has_float;
use crate::schemas::{current_schema, schemas_field};
use crate::snapshots::{current_field, snapshots_field};
use icb_schema::Text;
use serde_json::Value;
use std::alloc::Global;

/// The JSON value of a text.
pub(crate) fn json_in(alloc: Global, text: &[u8]) -> Result<Value, Refusal>
    ensures value { Shows view result (or_field [] (json_in text.now)) }
    ensures shallow { IfOk result (λ json. depth (view json) ≤ 127) }
{
    match Value::from_slice(alloc, text) {
        Ok(json) => Ok(json),
        Err(e) => if e.is_memory() {
            Err(Refusal::NoMemory)
        } else {
            Err(Refusal::Field(""))
        },
    }
}

/// The record that a value shows.
#[tactic(auto, unfolding(crate::specs::Shown::fields_of))]
pub(crate) fn fields_in(alloc: Global, object: &Value) -> Result<Fields, Refusal>
    ensures { Shows (λ fields. fields) result (fields_of (view object.now)) }
{
    if !object.is_object() || has_float(object) {
        return Err(Refusal::Field(""));
    }
    let heading = heading_in(alloc, object)?;
    let layout = layout_in(alloc, object)?;
    let state = state_in(alloc, object)?;
    Ok(Fields {
        heading,
        layout,
        state,
    })
}

/// What the table is and how far it has come.
#[tactic(auto, unfolding(crate::specs::Shown::heading_of))]
fn heading_in(alloc: Global, object: &Value) -> Result<Heading, Refusal>
    ensures { Shows (λ heading. heading) result (heading_of (view object.now)) }
{
    let _version = version_field(object)?;
    let uuid = uuid_field(object)?;
    let location = location_field(object)?;
    let last_sequence = natural_field(object, "last-sequence-number")?;
    let updated = long_field(object, "last-updated-ms")?;
    let _last_column = int_field(object, "last-column-id")?;
    let location = Text::from_str(alloc, location)?;
    Ok(Heading {
        uuid,
        location,
        last_sequence,
        updated,
    })
}

/// How rows are laid out.
#[tactic(auto, unfolding(crate::specs::Shown::layout_of))]
fn layout_in(alloc: Global, object: &Value) -> Result<Layout, Refusal>
    ensures { Shows (λ layout. layout) result (layout_of (view object.now)) }
{
    let schemas = schemas_field(alloc, object)?;
    let schema = current_schema(alloc, object, schemas.as_slice())?;
    let specs = orders_field(alloc, object, "partition-specs", "spec-id")?;
    let spec = chosen_order(object, "default-spec-id", specs.as_slice())?;
    let _last_partition = long_field(object, "last-partition-id")?;
    let orders = orders_field(alloc, object, "sort-orders", "order-id")?;
    let order = chosen_order(object, "default-sort-order-id", orders.as_slice())?;
    Ok(Layout {
        schema,
        spec: spec.id,
        partitioned: spec.has_fields,
        sorted: order.has_fields,
    })
}

/// What the table holds.
#[tactic(auto, unfolding(crate::specs::Shown::state_of))]
fn state_in(alloc: Global, object: &Value) -> Result<State, Refusal>
    ensures { Shows (λ state. state) result (state_of (view object.now)) }
{
    let properties = properties_field(alloc, object)?;
    let snapshots = snapshots_field(alloc, object)?;
    let current = current_field(object, snapshots.as_slice())?;
    let next_row = natural_field(object, "next-row-id")?;
    let entries = entries_field(alloc, object)?;
    Ok(State {
        properties,
        snapshots,
        current,
        next_row,
        entries,
    })
}
