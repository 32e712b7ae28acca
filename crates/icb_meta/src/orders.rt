//! Partition specs and sort orders (Apache Iceberg Table Spec, "Partitioning" and "Sorting").
ghost use Rattle.std.specs.Prelude.{◌≡◌, map};
ghost use Rattle.serde_json.specs.View.{view};
ghost use Rattle.icb_schema.specs.Reading.{all_read};
ghost use Rattle.icb_meta.specs.Answers.{Shows};
ghost use Rattle.icb_meta.specs.Forms.{order_in, order_named, orders_in};
ghost use Rattle.icb_meta.specs.Shown.{chosen_by, member, or_field};

use crate::distinct::have_distinct_ids;
use crate::fault::Refusal;
use crate::members::{needed_int, needed_items};
use serde_json::Value;
use std::alloc::Global;

/// A partition spec or a sort order, as far as it is looked at.
#[derive(Clone, Copy, Debug, Drop)]
pub(crate) struct Order {
    /// Its id.
    pub(crate) id: i32,
    /// It has fields.
    pub(crate) has_fields: bool,
}

/// The field of this name, partition specs or sort orders with distinct ids.
#[tactic(auto, unfolding(crate::specs::Forms::orders_in))]
pub(crate) fn orders_field(
    alloc: Global,
    object: &Value,
    name: &'static str,
    id_name: &str,
) -> Result<Vec<Order>, Refusal>
    ensures { Shows (λ orders. orders.items) result
        (member (orders_in id_name.now) name.now (view object.now)) }
{
    let Some(items) = needed_items(object, name) else {
        return Err(Refusal::Field(name));
    };
    let orders = orders_in(alloc, items, name, id_name)?;
    if have_distinct_ids(alloc, orders.as_slice())? {
        Ok(orders)
    } else {
        Err(Refusal::Field(name))
    }
}

/// Values that are all partition specs or sort orders.
fn orders_in(
    alloc: Global,
    items: &[Value],
    name: &'static str,
    id_name: &str,
) -> Result<Vec<Order>, Refusal>
    ensures { Shows (λ orders. orders.items) result
        (or_field name.now (all_read (order_in id_name.now) (map view items.now))) }
{
    let mut orders = Vec::new(alloc);
    for item in items {
        let Some(order) = order_in(item, id_name) else {
            return Err(Refusal::Field(name));
        };
        orders.push(order)?;
    }
    Ok(orders)
}

/// A partition spec or a sort order.
#[tactic(auto, unfolding(crate::specs::Forms::order_in))]
fn order_in(value: &Value, id_name: &str) -> Option<Order>
    ensures { result ≡ order_in id_name.now (view value.now) }
{
    let id = needed_int(value, id_name)?;
    let fields = needed_items(value, "fields")?;
    Some(Order {
        id,
        has_fields: !fields.is_empty(),
    })
}

/// The one that the field of this name names.
pub(crate) fn chosen_order(
    object: &Value,
    name: &'static str,
    orders: &[Order],
) -> Result<Order, Refusal>
    ensures { Shows (λ order. order) result
        (member (chosen_by (λ id. order_named id orders.now)) name.now (view object.now)) }
{
    match needed_int(object, name) {
        Some(id) => order_named(orders, id).ok_or(Refusal::Field(name)),
        None => Err(Refusal::Field(name)),
    }
}

/// The one of an id.
fn order_named(orders: &[Order], id: i32) -> Option<Order>
    ensures { result ≡ order_named id orders.now }
{
    for order in orders {
        if order.id == id {
            return Some(*order);
        }
    }
    None
}
