//! The names of subjects.

ghost use Rattle.std.specs.Prelude.{◌≡◌, IsTrue, SomeIff, IfOk, string_bytes};
ghost use Rattle.std.specs.List.{list_any};
ghost use Rattle.std.specs.Str.{chars};
ghost use Rattle.reg_core.specs.Subjects.{is_control, is_subject};

use avro_nodes::OutOfMemory;
use std::marker::Model;

/// The name under which versions of a schema are registered. Contracts see its bytes. (Schema
/// Registry API reference, Subjects; its limits are this project's choice.)
#[derive(Debug, Drop)]
pub struct Subject {
    text: String,
}

impl Model for Subject {
    ghost use Rattle.std.specs.Prelude.{ℕ, List, IsTrue, string_bytes};
    ghost use Rattle.reg_core.specs.Subjects.{is_subject};

    ghost Value = { List ℕ };

    ghost view = { λ subject. string_bytes subject.text };

    ghost invariant = { λ subject. IsTrue (is_subject (string_bytes subject.text)) };
}

/// Whether the character is an ASCII control character.
fn is_control(c: char) -> bool
    ensures { result ≡ is_control c }
{
    c < '\u{20}' || c == '\u{7f}'
}

fn has_control(text: &str) -> bool
    ensures { result ≡ list_any is_control (chars text.now) }
{
    text.chars().any(|c| is_control(c))
}

/// Whether the text is a valid subject name: 1 to 255 bytes, without ASCII control characters.
pub fn is_subject(text: &str) -> bool
    ensures { result ≡ is_subject text.now }
{
    if text.is_empty() || text.len() > 255 {
        return false;
    }
    !has_control(text)
}

impl Subject {
    /// The subject with this text. `None` if the text is empty, has over 255 bytes, or contains
    /// U+007F or a code point below U+0020. It allocates nothing.
    pub fn new(text: String) -> Option<Subject>
        ensures { SomeIff result (IsTrue (is_subject (string_bytes text))) (string_bytes text) }
    {
        if is_subject(text.as_str()) {
            Some(Subject { text })
        } else {
            None
        }
    }

    /// The subject's text.
    pub fn as_str(&self) -> &str
        ensures text { result.now ≡ self.now }
        ensures subject { IsTrue (is_subject result.now) }
    {
        self.text.as_str()
    }

    /// A copy.
    ///
    /// # Errors
    ///
    /// `OutOfMemory` if an allocation for the text fails.
    pub fn try_clone(&self) -> Result<Subject, OutOfMemory>
        ensures { IfOk result (λ copy. copy ≡ self.now) }
    {
        Ok(Subject {
            text: self.text.clone()?,
        })
    }
}
