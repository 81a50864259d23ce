//! Writes JSON values as compact JSON.

ghost use Rattle.std.specs.Prelude.{◌≡◌, OnOk};
ghost use Rattle.serde_json.specs.Data.{array, object};
ghost use Rattle.serde_json.specs.View.{view, items_view, members_view};
ghost use Rattle.serde_json.specs.Written.{WritesValue};
ghost use Rattle.avro_nodes.specs.Inside.Objects.{EndsObject, WritesMember, AreOrdered};

use crate::compact::CompactWriter;
use crate::node::Members;
use serde_json::Value;
use std::alloc::AllocError;
use std::collections::btree_map::Iter;

/// The members of an object that aren't written yet, in byte order of their names.
pub(crate) type UnwrittenMembers<'a> = Iter<'a, String, Value>;

/// All members of an object, none of them written yet, in byte order of their names.
pub(crate) fn unwritten_members(members: &Members) -> UnwrittenMembers<'_>
    ensures all { result ≡ members.now.entries }
    ensures ordered { AreOrdered (members_view members.now.entries) }
{
    members.iter()
}

/// Writes a JSON value.
#[cycle(write)]
pub(crate) fn write_value(out: &mut CompactWriter, value: &Value) -> Result<(), AllocError>
    ensures { OnOk result (WritesValue (view value.now) out.old out.new) }
{
    match value {
        Value::Null => out.null(),
        Value::Bool(b) => out.boolean(*b),
        Value::Number(number) => out.number(number),
        Value::String(text) => out.string(text.as_str()),
        Value::Array(items) => write_array(out, items),
        Value::Object(members) => write_object(out, members),
    }
}

#[cycle(write)]
fn write_array(out: &mut CompactWriter, items: &Vec<Value>) -> Result<(), AllocError>
    ensures { OnOk result (WritesValue (array (items_view items.now.items)) out.old out.new) }
{
    out.begin_array()?;
    for item in items {
        write_value(out, item)?;
    }
    out.end_array()
}

#[cycle(write)]
fn write_object(out: &mut CompactWriter, members: &Members) -> Result<(), AllocError>
    ensures { OnOk result (WritesValue (object (members_view members.now.entries)) out.old out.new) }
{
    out.begin_object()?;
    for (name, value) in members.iter() {
        write_member(out, name.as_str(), value)?;
    }
    out.end_object()
}

/// Writes a member of an object: its name and its value.
#[cycle(write)]
pub(crate) fn write_member(
    out: &mut CompactWriter,
    name: &str,
    value: &Value,
) -> Result<(), AllocError>
    ensures { OnOk result (WritesMember name.now (view value.now) out.old out.new) }
{
    out.key(name)?;
    write_value(out, value)
}

/// Writes the remaining members of an object and its closing bracket.
pub(crate) fn write_rest(
    out: &mut CompactWriter,
    others: UnwrittenMembers<'_>,
) -> Result<(), AllocError>
    ensures { OnOk result (EndsObject (members_view others.entry) out.old out.new) }
{
    if others.len() == 0 {
        return out.end_object();
    }
    for (name, value) in others {
        write_member(out, name.as_str(), value)?;
    }
    out.end_object()
}
