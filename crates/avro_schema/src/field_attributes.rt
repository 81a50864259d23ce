//! The attributes of a field other than its type: name, aliases, order and default.

ghost use Rattle.std.specs.Prelude.{◌≡◌, OnOk, option_map};
ghost use Rattle.serde_json.specs.View.{view};
ghost use Rattle.avro_schema.specs.Attributes.{without_all, order_in};
ghost use Rattle.avro_schema.specs.Inside.Borrowed.{value_data, members_data};
ghost use Rattle.avro_schema.specs.Inside.Declarations.{field_attribute_keys, field_attributes_in, field_attributes_view, bounded_value};
ghost use Rattle.avro_schema.specs.Inside.ReaderResults.{Gives};

use crate::attribute_map::{Attributes, take, take_default};
use crate::attributes::{names_if_any, take_text};
use crate::borrowed::{Json, text_of};
use crate::error::SchemaError;
use crate::keywords::order_of;
use crate::names::is_simple;
use crate::nesting::nests_within;
use avro_nodes::{MAX_NESTING, Order};
use serde_json::Value;
use std::alloc::Global;

/// The order of a field; ascending if the attribute is missing.
fn order_if_any(attribute: Option<Json<'_>>) -> Result<Order, SchemaError>
    ensures { Gives (λ o. o) result (order_in (option_map value_data attribute.entry)) }
{
    let Some(value) = attribute else {
        return Ok(Order::Ascending);
    };
    let Some(name) = text_of(&value) else {
        return Err(SchemaError::BadShape);
    };
    match order_of(name) {
        Some(order) => Ok(order),
        None => Err(SchemaError::BadShape),
    }
}

/// The default, or `None` if it is missing. `TooLarge` if it nests too deep.
fn value_if_any(attribute: Option<Value>) -> Result<Option<Value>, SchemaError>
    ensures { Gives (option_map view) result (bounded_value (option_map view attribute)) }
{
    let Some(value) = attribute else {
        return Ok(None);
    };
    if nests_within(&value, MAX_NESTING) {
        Ok(Some(value))
    } else {
        Err(SchemaError::TooLarge)
    }
}

/// The attributes of a field other than its type.
#[derive(Drop)]
pub struct FieldAttributes {
    pub name: String,
    pub aliases: Vec<String>,
    pub order: Order,
    pub value: Option<Value>,
}

/// Removes the name, aliases, order and default from the attributes of a field, and returns them.
///
/// # Errors
///
/// `BadShape` if the name is missing, the order is unknown, or one of these attributes has the
/// wrong JSON type. `BadName` if a name is malformed. `TooLarge` if the default nests too deep.
/// `OutOfMemory` if allocation fails. After an error, some of the attributes may be gone.
#[tactic(auto, unfolding(crate::specs::Inside::Declarations::field_attributes_in))]
pub fn field_attributes_of(
    alloc: Global,
    attributes: &mut Attributes<'_>,
) -> Result<FieldAttributes, SchemaError>
    ensures label { Gives field_attributes_view result (field_attributes_in (members_data attributes.old)) }
    ensures rest { OnOk result (members_data attributes.new
        ≡ without_all field_attribute_keys (members_data attributes.old)) }
{
    let name = take_text(alloc, attributes, "name")?;
    if !is_simple(name.as_str()) {
        return Err(SchemaError::BadName);
    }
    let aliases = names_if_any(alloc, take(attributes, "aliases"), None)?;
    let order = order_if_any(take(attributes, "order"))?;
    let value = value_if_any(take_default(attributes))?;
    Ok(FieldAttributes {
        name,
        aliases,
        order,
        value,
    })
}
