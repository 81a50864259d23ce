//! Writes the parts of a type in an identity text, except for the types that it contains.

ghost use Rattle.std.specs.Prelude.{◌≡◌, ℕ, List, option_map, string_bytes, IfOk, OnOk};
ghost use Rattle.json.specs.Token.{Token};
ghost use Rattle.serde_json.specs.Data.{Items, array};
ghost use Rattle.serde_json.specs.View.{members_view};
ghost use Rattle.serde_json.specs.Written.{WritesValue};
ghost use Rattle.avro_nodes.specs.Nodes.{texts_view, named_view, field_view};
ghost use Rattle.avro_nodes.specs.Identity.{kind_text, primitive_value, array_value, map_value, enum_value, fixed_value, record_value, field_value};
ghost use Rattle.avro_nodes.specs.Inside.Objects.{merged, EndsObject, AwaitsValue, array_end, record_end};

use crate::attributes::{
    write_aliases, write_default, write_fallback, write_name, write_namespace, write_order,
    write_text, write_texts,
};
use crate::compact::CompactWriter;
use crate::node::{Field, Members, Named, PrimitiveKind};
use crate::value::{UnwrittenMembers, unwritten_members, write_rest};
use std::alloc::AllocError;

fn kind_text(kind: PrimitiveKind) -> &'static str
    ensures { result.now ≡ kind_text kind }
{
    match kind {
        PrimitiveKind::Null => "null",
        PrimitiveKind::Boolean => "boolean",
        PrimitiveKind::Int => "int",
        PrimitiveKind::Long => "long",
        PrimitiveKind::Float => "float",
        PrimitiveKind::Double => "double",
        PrimitiveKind::Bytes => "bytes",
        PrimitiveKind::Text => "string",
    }
}

/// Writes a primitive type: its name, or an object if it has other attributes.
///
/// # Errors
///
/// `AllocError` if an allocation fails; a part may be written then.
pub fn write_primitive(
    out: &mut CompactWriter,
    kind: PrimitiveKind,
    extra: &Members,
) -> Result<(), AllocError>
    ensures { OnOk result (WritesValue (primitive_value kind (members_view extra.now.entries))
        out.old out.new) }
{
    if extra.is_empty() {
        return out.string(kind_text(kind));
    }
    let mut others = unwritten_members(extra);
    out.begin_object()?;
    write_text(out, &mut others, "type", kind_text(kind))?;
    write_rest(out, others)
}

/// Writes an enum.
///
/// # Errors
///
/// `AllocError` if an allocation fails; a part may be written then.
pub fn write_enum(
    out: &mut CompactWriter,
    enclosing: &str,
    named: &Named,
    symbols: &[String],
    fallback: &Option<String>,
    extra: &Members,
) -> Result<(), AllocError>
    ensures { OnOk result (WritesValue (enum_value enclosing.now (named_view named.now)
        (texts_view symbols.now) (option_map string_bytes fallback.now)
        (members_view extra.now.entries)) out.old out.new) }
{
    let name = named.name.as_str();
    let mut others = unwritten_members(extra);
    out.begin_object()?;
    write_aliases(out, &mut others, &named.aliases)?;
    write_fallback(out, &mut others, fallback)?;
    write_text(out, &mut others, "name", name)?;
    write_namespace(out, &mut others, enclosing, name)?;
    write_name(out, &mut others, "symbols")?;
    write_texts(out, symbols)?;
    write_text(out, &mut others, "type", "enum")?;
    write_rest(out, others)
}

/// Writes a fixed.
///
/// # Errors
///
/// `AllocError` if an allocation fails; a part may be written then.
pub fn write_fixed(
    out: &mut CompactWriter,
    enclosing: &str,
    named: &Named,
    size: u32,
    extra: &Members,
) -> Result<(), AllocError>
    ensures { OnOk result (WritesValue (fixed_value enclosing.now (named_view named.now) size
        (members_view extra.now.entries)) out.old out.new) }
{
    let name = named.name.as_str();
    let mut others = unwritten_members(extra);
    out.begin_object()?;
    write_aliases(out, &mut others, &named.aliases)?;
    write_text(out, &mut others, "name", name)?;
    write_namespace(out, &mut others, enclosing, name)?;
    write_name(out, &mut others, "size")?;
    out.unsigned(u64::from(size))?;
    write_text(out, &mut others, "type", "fixed")?;
    write_rest(out, others)
}

/// Writes the beginning of an array. The caller writes the type of its items next.
///
/// # Errors
///
/// `AllocError` if an allocation fails; a part may be written then.
pub fn begin_array<'a>(
    out: &mut CompactWriter,
    extra: &'a Members,
) -> Result<UnwrittenMembers<'a>, AllocError>
    ensures { IfOk result (λ others. AwaitsValue
        (λ items. array_value items (members_view extra.now.entries))
        (merged array_end (members_view others)) out.old out.new) }
{
    let mut others = unwritten_members(extra);
    out.begin_object()?;
    write_name(out, &mut others, "items")?;
    Ok(others)
}

/// Writes the end of an array, after the type of its items.
///
/// # Errors
///
/// `AllocError` if an allocation fails; a part may be written then.
pub fn end_array(
    out: &mut CompactWriter,
    mut others: UnwrittenMembers<'_>,
) -> Result<(), AllocError>
    ensures { OnOk result (EndsObject (merged array_end (members_view others.entry)) out.old out.new) }
{
    write_text(out, &mut others, "type", "array")?;
    write_rest(out, others)
}

/// Writes the beginning of a map. The caller writes the type of its values next.
///
/// # Errors
///
/// `AllocError` if an allocation fails; a part may be written then.
pub fn begin_map<'a>(
    out: &mut CompactWriter,
    extra: &'a Members,
) -> Result<UnwrittenMembers<'a>, AllocError>
    ensures { IfOk result (λ others. AwaitsValue
        (λ values. map_value values (members_view extra.now.entries))
        (members_view others) out.old out.new) }
{
    let mut others = unwritten_members(extra);
    out.begin_object()?;
    write_text(out, &mut others, "type", "map")?;
    write_name(out, &mut others, "values")?;
    Ok(others)
}

/// Writes the beginning of a record. The caller writes its fields next.
///
/// # Errors
///
/// `AllocError` if an allocation fails; a part may be written then.
pub fn begin_record<'a>(
    out: &mut CompactWriter,
    named: &Named,
    extra: &'a Members,
) -> Result<UnwrittenMembers<'a>, AllocError>
    ensures { IfOk result (λ others. (enclosing : List ℕ) (fields : Items) (new end : List Token)
        → WritesValue (array fields) out.new new
        → EndsObject (merged (record_end enclosing (string_bytes named.now.name)) (members_view others)) new end
        → WritesValue (record_value enclosing (named_view named.now) fields
        (members_view extra.now.entries)) out.old end) }
{
    let mut others = unwritten_members(extra);
    out.begin_object()?;
    write_aliases(out, &mut others, &named.aliases)?;
    write_name(out, &mut others, "fields")?;
    Ok(others)
}

/// Writes the end of a record, after its fields.
///
/// # Errors
///
/// `AllocError` if an allocation fails; a part may be written then.
pub fn end_record(
    out: &mut CompactWriter,
    mut others: UnwrittenMembers<'_>,
    enclosing: &str,
    name: &str,
) -> Result<(), AllocError>
    ensures { OnOk result (EndsObject (merged (record_end enclosing.now name.now)
        (members_view others.entry)) out.old out.new) }
{
    write_text(out, &mut others, "name", name)?;
    write_namespace(out, &mut others, enclosing, name)?;
    write_text(out, &mut others, "type", "record")?;
    write_rest(out, others)
}

/// Writes the beginning of a field, with the key `type` at its end. The caller writes the type
/// next, and then, by `write_rest`, the returned members and the closing bracket.
///
/// # Errors
///
/// `AllocError` if an allocation fails; a part may be written then.
pub fn begin_field<'a>(
    out: &mut CompactWriter,
    field: &'a Field,
) -> Result<UnwrittenMembers<'a>, AllocError>
    ensures { IfOk result (λ others. AwaitsValue (field_value (field_view field.now))
        (members_view others) out.old out.new) }
{
    let mut others = unwritten_members(&field.extra);
    out.begin_object()?;
    write_aliases(out, &mut others, &field.aliases)?;
    write_default(out, &mut others, &field.value)?;
    write_text(out, &mut others, "name", field.name.as_str())?;
    write_order(out, &mut others, field.order)?;
    write_name(out, &mut others, "type")?;
    Ok(others)
}
