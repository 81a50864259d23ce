//! Templates of long texts.
//!
//! Each line of a template is a part: a name for numbers, a space, and the text that is written for each number. In
//! this text, placeholders are replaced by numbers and by other texts (`Placeholders`). A line without a space adds
//! nothing. The numbers are
//!
//! - `once`: only 0;
//! - `each`: from 0 up to the count, without the count;
//! - `later`: from 1 up to the count, without the count, and `down`: the same in reverse;
//! - `last`: only the count;
//! - `A..B`: from A up to B, or down to B if B is less than A, in both cases without B;
//! - `N`, a number: from 0 on, as many as nearly fill the text to its maximum length. This part must have one byte, and
//!   the other parts N bytes for each number of the count and at most 200 more.

use std::alloc::{AllocError, Global};

/// A template of a text.
#[derive(Clone, Copy)]
pub struct Template {
    /// the text for the placeholder `$`
    pub word: &'static str,
    /// the parts, one on each line
    pub parts: &'static str,
}

/// The maximum length of a schema's text, in bytes.
const MAX_TEXT: u32 = 1_048_576;

/// The maximum length of the parts that neither fill the text nor depend on the count, in bytes.
const OTHER_BYTES: u32 = 200;

/// The maximum number of letters of a symbol.
const MAX_LETTERS: u32 = 4;

/// The values of the placeholders of a template.
#[derive(Clone, Copy)]
pub struct Placeholders<'a> {
    /// `#`; `<` is the number before it (for 0 it is 0), `>` the number after it, and `~` its symbol
    pub number: u32,
    /// whether `;` is nothing; else it is a comma
    pub is_first: bool,
    /// `@`
    pub inner: &'a str,
    /// `$`
    pub word: &'a str,
}

/// The letter with this index: `a` to `z`, then `A` to `Z`.
fn letter(index: u32) -> char {
    let within = (index % 26) as u8;
    char::from(if index < 26 {
        b'a' + within
    } else {
        b'A' + within
    })
}

/// Adds the symbol of a number: one letter for the first 52 numbers, and more letters for later ones.
fn push_symbol(text: &mut String, number: u32) -> Result<(), AllocError> {
    let mut rest = number;
    for _letter in 0..MAX_LETTERS {
        text.push(letter(rest % 52))?;
        rest /= 52;
        if rest == 0 {
            break;
        }
    }
    Ok(())
}

/// Adds the value of a placeholder, or the character itself if it is no placeholder.
fn push_placeholder(text: &mut String, mark: char, marks: &Placeholders) -> Result<(), AllocError> {
    let number = marks.number;
    match mark {
        '#' => write!(text, "{number}"),
        '<' => write!(text, "{}", number.saturating_sub(1)),
        '>' => write!(text, "{}", number.saturating_add(1)),
        '~' => push_symbol(text, number),
        '@' => text.push_str(marks.inner),
        '$' => text.push_str(marks.word),
        ';' if marks.is_first => Ok(()),
        ';' => text.push(','),
        _ => text.push(mark),
    }
}

/// Adds the text of a part, with the values of its placeholders.
pub fn push_template(
    text: &mut String,
    template: &str,
    marks: &Placeholders,
) -> Result<(), AllocError> {
    for mark in template.chars() {
        push_placeholder(text, mark, marks)?;
    }
    Ok(())
}

/// The numbers from `from` up or down to `to`, without `to`, as a range: its start, its end, which isn't in it, and
/// whether the numbers go down. If there are none, the end isn't above the start.
fn range(from: u32, to: u32) -> (u32, u32, bool) {
    if to < from {
        (to.saturating_add(1), from.saturating_add(1), true)
    } else {
        (from, to, false)
    }
}

/// The numbers of a part, as such a range. In the part's name, a number that can't be parsed counts as 0.
fn bounds(numbers: &str, count: u32) -> (u32, u32, bool) {
    match numbers {
        "once" => (0, 1, false),
        "each" => (0, count, false),
        "later" => (1, count, false),
        "down" => (1, count, true),
        "last" => (count, count.saturating_add(1), false),
        _ => match numbers.split_once("..") {
            Some((from, to)) => range(from.parse().unwrap_or(0), to.parse().unwrap_or(0)),
            None => {
                let bytes: u32 = numbers.parse().unwrap_or(0);
                let filled = OTHER_BYTES.saturating_add(bytes.saturating_mul(count));
                (0, MAX_TEXT.saturating_sub(filled), false)
            }
        },
    }
}

/// Adds the text of a part for each of its numbers. A line without a space adds nothing.
fn push_part(
    text: &mut String,
    line: &str,
    count: u32,
    inner: &str,
    word: &str,
) -> Result<(), AllocError> {
    let Some((numbers, template)) = line.split_once(" ") else {
        return Ok(());
    };
    let (from, to, is_down) = bounds(numbers, count);
    for at in from..to {
        let marks = Placeholders {
            number: if is_down { from + (to - 1 - at) } else { at },
            is_first: at == from,
            inner,
            word,
        };
        push_template(text, template, &marks)?;
    }
    Ok(())
}

/// Returns the text of a template with this count. The placeholder `@` is replaced by `inner`.
///
/// # Errors
///
/// `AllocError` if an allocation fails.
pub fn expand(
    alloc: Global,
    described: Template,
    inner: &str,
    count: u32,
) -> Result<String, AllocError> {
    let mut text = String::new(alloc);
    for line in described.parts.lines() {
        push_part(&mut text, line, count, inner, described.word)?;
    }
    Ok(text)
}
