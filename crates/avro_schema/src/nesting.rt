//! The nesting depth of JSON values.

ghost use Rattle.std.specs.Prelude.{◌≡◌, nat_le};
ghost use Rattle.serde_json.specs.Data.{depth, items_depth, members_depth};
ghost use Rattle.serde_json.specs.View.{view, items_view, members_view};

use avro_nodes::Members;
use serde_json::Value;

/// Whether the value's nesting depth is within the limit. A scalar has depth 0; an array or object
/// is one level deeper than its deepest element.
#[cycle(nest)]
pub fn nests_within(value: &Value, limit: u32) -> bool
    ensures { result ≡ nat_le (depth (view value.now)) limit }
{
    match value {
        Value::Array(items) => limit > 0 && items_within(items, limit - 1),
        Value::Object(members) => limit > 0 && members_within(members, limit - 1),
        Value::Null | Value::Bool(_) | Value::Number(_) | Value::String(_) => true,
    }
}

#[cycle(nest)]
fn items_within(items: &Vec<Value>, limit: u32) -> bool
    ensures { result ≡ nat_le (items_depth (items_view items.now.items)) limit }
{
    for item in items {
        if !nests_within(item, limit) {
            return false;
        }
    }
    true
}

/// Whether each member's nesting depth is within the limit.
#[cycle(nest)]
pub fn members_within(members: &Members, limit: u32) -> bool
    ensures { result ≡ nat_le (members_depth (members_view members.now.entries)) limit }
{
    if members.is_empty() {
        return true;
    }
    for (_key, member) in members.iter() {
        if !nests_within(member, limit) {
            return false;
        }
    }
    true
}
