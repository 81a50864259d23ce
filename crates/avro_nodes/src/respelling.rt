//! What rewriting the numbers of a text gives.

ghost use Rattle.std.specs.Prelude.{◌≡◌, option_map};
ghost use Rattle.avro_nodes.specs.Respelling.{respelt_text};

/// What rewriting the numbers of a text gives (this project's choice; see `plain_of`).
#[derive(Debug, Drop)]
pub enum Respelling {
    /// Each number is written in plain decimal digits already.
    Unchanged,
    /// The text with its numbers rewritten.
    Changed(String),
    /// A number breaks the rule of `plain_of`.
    Invalid,
}

impl Respelling {
    /// The rewritten text of `original`, or `None` if a number is invalid.
    pub fn text<'a>(&'a self, original: &'a str) -> Option<&'a str>
        ensures { option_map (λ s. s.now) result ≡ respelt_text original.now self.now }
    {
        match self {
            Respelling::Unchanged => Some(original),
            Respelling::Changed(respelt) => Some(respelt.as_str()),
            Respelling::Invalid => None,
        }
    }
}
