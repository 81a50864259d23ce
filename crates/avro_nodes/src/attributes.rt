//! Writes the attributes of a type or a field. The members of an object are in byte order of their
//! names, so each function first writes the members that sort before its attribute.

ghost use Rattle.std.specs.Prelude.{◌≡◌, OnOk, Some, option_map, codes, string_bytes};
ghost use Rattle.serde_json.specs.Data.{string, array};
ghost use Rattle.serde_json.specs.View.{view, members_view};
ghost use Rattle.serde_json.specs.Written.{WritesValue};
ghost use Rattle.avro_nodes.specs.Nodes.{texts_view};
ghost use Rattle.avro_nodes.specs.Identity.{texts};
ghost use Rattle.avro_nodes.specs.Inside.Objects.{WritesOthersBefore, WritesName, WritesAttribute, texts_value, order_value, namespace_value};

use crate::compact::CompactWriter;
use crate::names::has_dot;
use crate::node::Order;
use crate::value::{UnwrittenMembers, write_member, write_value};
use serde_json::Value;
use std::alloc::AllocError;
use std::cmp::Ordering;

/// Writes the members that sort before the key, and skips a member with that key.
fn write_others_before(
    out: &mut CompactWriter,
    others: &mut UnwrittenMembers<'_>,
    key: &str,
) -> Result<(), AllocError>
    ensures { OnOk result (WritesOthersBefore key.now (members_view others.old)
        (members_view others.new) out.old out.new) }
{
    if others.len() == 0 {
        return Ok(());
    }
    for (name, value) in others.clone()? {
        match key.cmp(name.as_str()) {
            Ordering::Less => return Ok(()),
            Ordering::Equal => {
                others.next();
                return Ok(());
            }
            Ordering::Greater => write_member(out, name.as_str(), value)?,
        }
        others.next();
    }
    Ok(())
}

/// Writes an attribute's name, after the members that sort before it. The caller writes its value
/// next.
pub(crate) fn write_name(
    out: &mut CompactWriter,
    others: &mut UnwrittenMembers<'_>,
    key: &str,
) -> Result<(), AllocError>
    ensures { OnOk result (WritesName key.now (members_view others.old)
        (members_view others.new) out.old out.new) }
{
    write_others_before(out, others, key)?;
    out.key(key)
}

/// Writes an attribute whose value is a string.
pub(crate) fn write_text(
    out: &mut CompactWriter,
    others: &mut UnwrittenMembers<'_>,
    key: &str,
    text: &str,
) -> Result<(), AllocError>
    ensures { OnOk result (WritesAttribute (key.now, Some (string text.now))
        (members_view others.old) (members_view others.new) out.old out.new) }
{
    write_name(out, others, key)?;
    out.string(text)
}

/// Writes an array of strings.
pub(crate) fn write_texts(out: &mut CompactWriter, list: &[String]) -> Result<(), AllocError>
    ensures { OnOk result (WritesValue (array (texts (texts_view list.now))) out.old out.new) }
{
    out.begin_array()?;
    for text in list {
        out.string(text.as_str())?;
    }
    out.end_array()
}

/// Writes the aliases of a type or a field, unless there are none.
pub(crate) fn write_aliases(
    out: &mut CompactWriter,
    others: &mut UnwrittenMembers<'_>,
    aliases: &[String],
) -> Result<(), AllocError>
    ensures { OnOk result (WritesAttribute (codes "aliases", texts_value (texts_view aliases.now))
        (members_view others.old) (members_view others.new) out.old out.new) }
{
    if aliases.is_empty() {
        return Ok(());
    }
    write_name(out, others, "aliases")?;
    write_texts(out, aliases)
}

/// Writes a field's default, if any.
pub(crate) fn write_default(
    out: &mut CompactWriter,
    others: &mut UnwrittenMembers<'_>,
    value: &Option<Value>,
) -> Result<(), AllocError>
    ensures { OnOk result (WritesAttribute (codes "default", option_map view value.now)
        (members_view others.old) (members_view others.new) out.old out.new) }
{
    let Some(value) = value else {
        return Ok(());
    };
    write_name(out, others, "default")?;
    write_value(out, value)
}

/// Writes an enum's default, if any.
pub(crate) fn write_fallback(
    out: &mut CompactWriter,
    others: &mut UnwrittenMembers<'_>,
    fallback: &Option<String>,
) -> Result<(), AllocError>
    ensures { OnOk result (WritesAttribute (codes "default", option_map string (option_map string_bytes fallback.now))
        (members_view others.old) (members_view others.new) out.old out.new) }
{
    match fallback {
        None => Ok(()),
        Some(symbol) => write_text(out, others, "default", symbol.as_str()),
    }
}

/// Writes a field's order, unless it is ascending.
pub(crate) fn write_order(
    out: &mut CompactWriter,
    others: &mut UnwrittenMembers<'_>,
    order: Order,
) -> Result<(), AllocError>
    ensures { OnOk result (WritesAttribute (codes "order", order_value order)
        (members_view others.old) (members_view others.new) out.old out.new) }
{
    match order {
        Order::Ascending => Ok(()),
        Order::Descending => write_text(out, others, "order", "descending"),
        Order::Ignore => write_text(out, others, "order", "ignore"),
    }
}

/// Writes an empty namespace, if a name of the null namespace is defined inside another namespace.
pub(crate) fn write_namespace(
    out: &mut CompactWriter,
    others: &mut UnwrittenMembers<'_>,
    enclosing: &str,
    name: &str,
) -> Result<(), AllocError>
    ensures { OnOk result (WritesAttribute (codes "namespace", namespace_value enclosing.now name.now)
        (members_view others.old) (members_view others.new) out.old out.new) }
{
    if enclosing.is_empty() || has_dot(name) {
        return Ok(());
    }
    write_text(out, others, "namespace", "")
}
