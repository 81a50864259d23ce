//! Modes.

ghost use Rattle.std.specs.Prelude.{◌≡◌, IfSome, Some};
ghost use Rattle.reg_core.specs.Modes.{mode_of, mode_text};

/// Whether writes are permitted. (Schema Registry API reference, Mode; the rules are this
/// project's own.)
#[derive(Clone, Copy, Debug, PartialEq, Eq)]
pub enum Mode {
    /// Reads and writes are permitted.
    Readwrite,
    /// Only reads are permitted, and setting the mode.
    Readonly,
}

impl Mode {
    /// The mode with exactly this spelling, in upper case, or `None`.
    pub fn parse(text: &str) -> Option<Mode>
        ensures value { result ≡ mode_of text.now }
        ensures round_trip { IfSome result (λ mode. mode_text mode ≡ text.now) }
    {
        if text == "READWRITE" {
            Some(Mode::Readwrite)
        } else if text == "READONLY" {
            Some(Mode::Readonly)
        } else {
            None
        }
    }

    /// The mode's spelling.
    pub fn text(self) -> &'static str
        ensures value { result.now ≡ mode_text self }
        ensures parses_back { mode_of result.now ≡ Some self }
    {
        match self {
            Mode::Readwrite => "READWRITE",
            Mode::Readonly => "READONLY",
        }
    }
}
