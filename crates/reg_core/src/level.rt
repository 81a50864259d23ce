//! Compatibility levels.

ghost use Rattle.std.specs.Prelude.{◌≡◌, IfSome, Some};
ghost use Rattle.reg_core.specs.Compatibility.{is_transitive};
ghost use Rattle.reg_core.specs.Levels.{level_of, level_text};

/// A compatibility level: which earlier schemas of a subject a new one must be compatible with, and
/// in which direction. (Schema Registry API reference, Config.)
#[derive(Clone, Copy, Debug, PartialEq, Eq)]
pub enum Level {
    /// The new schema reads what the latest one wrote.
    Backward,
    /// The new schema reads what each earlier one wrote.
    BackwardTransitive,
    /// The latest schema reads what the new one writes.
    Forward,
    /// Each earlier schema reads what the new one writes.
    ForwardTransitive,
    /// Both directions, with the latest schema.
    Full,
    /// Both directions, with each earlier schema.
    FullTransitive,
    /// No schema is compared. It is spelt `NONE`.
    Off,
}

impl Level {
    /// The level with exactly this spelling, in upper case with `_`, or `None`.
    pub fn parse(text: &str) -> Option<Level>
        ensures value { result ≡ level_of text.now }
        ensures round_trip { IfSome result (λ level. level_text level ≡ text.now) }
    {
        if text == "BACKWARD" {
            Some(Level::Backward)
        } else if text == "BACKWARD_TRANSITIVE" {
            Some(Level::BackwardTransitive)
        } else if text == "FORWARD" {
            Some(Level::Forward)
        } else if text == "FORWARD_TRANSITIVE" {
            Some(Level::ForwardTransitive)
        } else if text == "FULL" {
            Some(Level::Full)
        } else if text == "FULL_TRANSITIVE" {
            Some(Level::FullTransitive)
        } else if text == "NONE" {
            Some(Level::Off)
        } else {
            None
        }
    }

    /// The level's spelling.
    pub fn text(self) -> &'static str
        ensures value { result.now ≡ level_text self }
        ensures parses_back { level_of result.now ≡ Some self }
    {
        match self {
            Level::Backward => "BACKWARD",
            Level::BackwardTransitive => "BACKWARD_TRANSITIVE",
            Level::Forward => "FORWARD",
            Level::ForwardTransitive => "FORWARD_TRANSITIVE",
            Level::Full => "FULL",
            Level::FullTransitive => "FULL_TRANSITIVE",
            Level::Off => "NONE",
        }
    }

    /// Whether a new schema is compared with all live versions of its subject.
    pub fn is_transitive(self) -> bool
        ensures { result ≡ is_transitive self }
    {
        match self {
            Level::BackwardTransitive | Level::ForwardTransitive | Level::FullTransitive => true,
            Level::Backward | Level::Forward | Level::Full | Level::Off => false,
        }
    }
}
