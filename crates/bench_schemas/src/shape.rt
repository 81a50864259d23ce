//! Shapes: families of texts to measure.

use avro_testing::{Template, expand};
use std::alloc::{AllocError, Global};

/// Texts of one form and of growing size, which show how the time grows.
#[derive(Clone, Copy)]
pub struct Shape {
    pub name: &'static str,
    pub counts: &'static [u32],
    /// a large count with which the texts fit after a cycle, or 0 for none
    pub after_cycle: u32,
    /// the template for the placeholder `@`, or `HOLES` or `TWO_HOLES`
    pub inner: &'static str,
    /// the text to read, or the writer's text
    pub writer: Template,
    pub reader: Template,
}

/// No text.
pub const NO_TEXT: Template = Template {
    word: "",
    parts: "",
};

/// The first record of a cycle of 1,050 records, more than the pairs that may be open at once. A union in its first
/// field defines the rest of the cycle, and its last field has the text of a shape. The reader ignores the writer's
/// union, since its own first field has another name.
const LINKS: &str =
    r##"once {"type":"record","name":"Link0","fields":[{"name":"$","default":null,"type":["null",{"type":"record","name":"Link1049","fields":[{"name":"next","type":"Link0"}]}
1048..0 ,{"type":"record","name":"Link#","fields":[{"name":"next","type":"Link>"}]}
once ]},{"name":"next","type":"Link1"},{"name":"after_cycle","type":@}]}"##;

/// The inner text is fields with unions of null and the records n0.A, n1.A and so on. Each union lacks one of every 24
/// records, and ends with the template's word.
pub const HOLES: &str = "holes";

/// The same, but each union lacks two of every 24 records.
pub const TWO_HOLES: &str = "two holes";

/// The number of unions with holes in a text. Each union lacks one or two of every 24 records.
const UNIONS: u32 = 24;

/// The inner text for `HOLES`, or for `TWO_HOLES` if `has_two`.
fn unions(alloc: Global, count: u32, has_two: bool, word: &str) -> Result<String, AllocError> {
    let mut text = String::new(alloc);
    for union in 0..UNIONS {
        write!(text, r#",{{"name":"u{union}","type":["null""#)?;
        for record in 0..count {
            let first = record % UNIONS;
            let second = (first + 1 + record / UNIONS % (UNIONS - 1)) % UNIONS;
            if first != union && (!has_two || second != union) {
                write!(text, r#","n{record}.A""#)?;
            }
        }
        write!(text, "{word}]}}")?;
    }
    Ok(text)
}

/// The text of one of a shape's templates, with this count.
pub fn shape_text(
    alloc: Global,
    shape: &Shape,
    template: Template,
    count: u32,
) -> Result<String, AllocError> {
    let inner = if shape.inner == HOLES || shape.inner == TWO_HOLES {
        unions(alloc, count, shape.inner == TWO_HOLES, template.word)?
    } else {
        let repeated = Template {
            word: "",
            parts: shape.inner,
        };
        expand(alloc, repeated, "", count)?
    };
    expand(alloc, template, inner.as_str(), count)
}

/// A text after a cycle of records (`LINKS`). The writer's and the reader's text need different words.
pub fn put_after_cycle(
    alloc: Global,
    text: &str,
    word: &'static str,
) -> Result<String, AllocError> {
    let links = Template { word, parts: LINKS };
    expand(alloc, links, text, 0)
}
