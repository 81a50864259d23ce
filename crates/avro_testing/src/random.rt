//! Random pairs of schemas. Both schemas draw the same random numbers. Each also draws its own, by
//! which it differs occasionally. All kinds of types occur. A type may refer to a record that is
//! around it or before it, so records can be recursive.

use crate::text::{Placeholders, push_template};
use rand_pcg::Pcg32;
use rand_pcg::rand_core::Rng;
use std::alloc::{AllocError, Global};

/// The primitive types, each with a default.
static PRIMITIVES: [(&str, &str); 8] = [
    ("null", "null"),
    ("boolean", "true"),
    ("int", "1"),
    ("long", "2"),
    ("float", "3"),
    ("double", "4"),
    ("bytes", r#""a""#),
    ("string", r#""b""#),
];

/// Types, each with a default. In a type, `@` is the inner type and `$` the name of a record. The
/// default `@` is that of the inner type, and an empty text means no default.
static TYPES: [(&str, &str); 8] = [
    (r#"{"type":"array","items":@}"#, "[]"),
    (r#"{"type":"map","values":@}"#, "{}"),
    (r#"["null",{"type":"array","items":@}]"#, "null"),
    (r#"[{"type":"map","values":@},"null"]"#, "{}"),
    (r#"["$","string","int"]"#, ""),
    ("@", "@"),
    ("@", "@"),
    ("@", "@"),
];

/// The symbols of enums.
static SYMBOLS: [&str; 4] = [r#""A""#, r#""A","B""#, r#""A","B","C""#, r#""C","A","D""#];

/// Defaults of the fixed types of 1 to 4 bytes.
static BYTES: [&str; 4] = [r#""a""#, r#""ab""#, r#""abc""#, r#""abcd""#];

/// The text of a schema so far.
#[derive(Drop)]
struct Draft {
    text: String,
    /// the full names of the records so far
    names: Vec<String>,
    /// the random numbers that both schemas of a pair draw
    shared: Pcg32,
    /// the random numbers that decide how this schema differs
    own: Pcg32,
}

/// What decides a type: the level and the index for the names in it, and random numbers.
#[derive(Clone, Copy)]
struct FieldDraw {
    level: u32,
    index: u32,
    shared: u32,
    own: u32,
}

/// The name of one of the records so far, or `long` if there are none.
fn name_of(names: &[String], word: u32) -> &str {
    let at = (word as usize).checked_rem(names.len()).unwrap_or(0);
    match names.get(at) {
        Some(name) => name.as_str(),
        None => "long",
    }
}

/// Adds the name of a field's enum or fixed type. Occasionally it is another name with aliases.
fn push_name(text: &mut String, letter: &str, drawn: FieldDraw) -> Result<(), AllocError> {
    let (level, index) = (drawn.level, drawn.index);
    if drawn.own % 32 == 2 {
        return write!(
            text,
            r#""name":"Other{letter}{level}x{index}","aliases":["m.{letter}{level}x{index}","n.{letter}{level}x{index}"],"#
        );
    }
    write!(text, r#""name":"{letter}{level}x{index}","#)
}

/// Adds an enum. Occasionally it has other symbols, or a default.
fn push_enum(text: &mut String, drawn: FieldDraw) -> Result<(), AllocError> {
    let other = u32::from(drawn.own % 16 == 0);
    let symbols = SYMBOLS[((drawn.shared % 4 + other) % 4) as usize];
    text.push_str(r#"{"type":"enum","#)?;
    push_name(text, "E", drawn)?;
    write!(text, r#""symbols":[{symbols}]"#)?;
    if drawn.own % 4 == 1 {
        text.push_str(r#","default":"A""#)?;
    }
    text.push_str("}")
}

/// Adds a fixed type, and returns its default. Occasionally it has another size.
fn push_fixed(text: &mut String, drawn: FieldDraw) -> Result<&'static str, AllocError> {
    let other = u32::from(drawn.own % 32 == 0);
    let size = (drawn.shared % 4 + other) % 4;
    text.push_str(r#"{"type":"fixed","#)?;
    push_name(text, "F", drawn)?;
    write!(text, r#""size":{}}}"#, size + 1)?;
    Ok(BYTES[size as usize])
}

/// Adds the name of a record, a primitive type, an enum or a fixed type. Returns its default, or an
/// empty text for a record.
fn push_inner(
    text: &mut String,
    names: &[String],
    drawn: FieldDraw,
) -> Result<&'static str, AllocError> {
    let rest = FieldDraw {
        shared: drawn.shared / 4,
        ..drawn
    };
    match drawn.shared % 4 {
        0 => {
            write!(text, r#""{}""#, name_of(names, rest.shared))?;
            Ok("")
        }
        1 => {
            let (primitive, default) = PRIMITIVES[(rest.shared % 8) as usize];
            write!(text, r#""{primitive}""#)?;
            Ok(default)
        }
        2 => {
            push_enum(text, rest)?;
            Ok(r#""A""#)
        }
        _ => push_fixed(text, rest),
    }
}

/// Adds a type. Returns its default, or an empty text if it has none.
fn push_type(
    alloc: Global,
    draft: &mut Draft,
    drawn: FieldDraw,
) -> Result<&'static str, AllocError> {
    let (around, own_default) = TYPES[(drawn.shared % 8) as usize];
    let rest = FieldDraw {
        shared: drawn.shared / 8,
        ..drawn
    };
    let mut inner = String::new(alloc);
    let default = push_inner(&mut inner, draft.names.as_slice(), rest)?;
    let marks = Placeholders {
        number: 0,
        is_first: false,
        inner: inner.as_str(),
        word: name_of(draft.names.as_slice(), rest.shared),
    };
    push_template(&mut draft.text, around, &marks)?;
    Ok(if own_default == "@" {
        default
    } else {
        own_default
    })
}

/// Adds a field after others. Occasionally it is left out, or has another type, or another name
/// with aliases.
fn push_field(alloc: Global, draft: &mut Draft, level: u32, index: u32) -> Result<(), AllocError> {
    let (shared, own) = (draft.shared.next_u32(), draft.own.next_u32());
    match own % 64 {
        0 => return Ok(()),
        1 => write!(
            draft.text,
            r#",{{"name":"g{level}x{index}","aliases":["h{level}x{index}","f{level}x{index}","f"],"type":"#
        )?,
        _ => write!(draft.text, r#",{{"name":"f{level}x{index}","type":"#)?,
    }
    let drawn = FieldDraw {
        level,
        index,
        shared: if own % 64 == 2 { own / 64 } else { shared },
        own: own / 64,
    };
    let default = push_type(alloc, draft, drawn)?;
    if own % 3 > 0 && !default.is_empty() {
        write!(draft.text, r#","default":{default}"#)?;
    }
    draft.text.push_str("}")
}

/// Adds the fields at three indexes, from this one on, after others. Each may be left out.
fn push_fields(alloc: Global, draft: &mut Draft, level: u32, from: u32) -> Result<(), AllocError> {
    for index in from..from.saturating_add(3) {
        push_field(alloc, draft, level, index)?;
    }
    Ok(())
}

/// Adds the beginning of a record, with one field. Occasionally the record has another namespace,
/// or another name with aliases.
fn open_record(alloc: Global, draft: &mut Draft, level: u32) -> Result<(), AllocError> {
    let (space, letter) = match draft.own.next_u32() % 16 {
        0 => ("m", "R"),
        1 => ("n", "S"),
        _ => ("n", "R"),
    };
    let name = format!(in alloc; "{space}.{letter}{level}")?;
    write!(draft.text, r#"{{"type":"record","name":"{name}","#)?;
    if letter == "S" {
        write!(draft.text, r#""aliases":["m.R{level}","n.R{level}"],"#)?;
    }
    draft.names.push(name)?;
    draft
        .text
        .push_str(r#""fields":[{"name":"f","type":"int"}"#)
}

/// Returns the text of one schema of the pair with this number. Each stream is another sequence of
/// random numbers. The two schemas of a pair have different streams, both other than 0.
///
/// # Errors
///
/// `AllocError` if an allocation fails.
pub fn random_text(alloc: Global, pair: u64, stream: u64) -> Result<String, AllocError> {
    let mut draft = Draft {
        text: String::new(alloc),
        names: Vec::new(alloc),
        shared: Pcg32::new(pair, 0),
        own: Pcg32::new(pair, stream),
    };
    let levels = 1 + draft.shared.next_u32() % 4;
    for level in 0..levels {
        open_record(alloc, &mut draft, level)?;
        push_fields(alloc, &mut draft, level, 0)?;
        write!(draft.text, r#",{{"name":"next","type":"#)?;
    }
    let last = FieldDraw {
        level: levels,
        index: 0,
        shared: draft.shared.next_u32(),
        own: draft.own.next_u32(),
    };
    push_type(alloc, &mut draft, last)?;
    for level in (0..levels).rev() {
        draft.text.push_str("}")?;
        push_fields(alloc, &mut draft, level, 3)?;
        draft.text.push_str("]}")?;
    }
    Ok(draft.text)
}
