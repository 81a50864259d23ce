//! Replies to keep.

ghost use Rattle.std.specs.Prelude.{◌≡◌};

use reg_core::{Key, Reply};

/// A reply to keep under a retry key, with the text of its command.
#[derive(Clone, Copy, Debug)]
pub struct Keep<'a> {
    pub key: &'a Key<'a>,
    pub command: &'a str,
    pub reply: &'a Reply,
}

impl<'a> Keep<'a> {
    /// The text of the command.
    pub(crate) fn command_text(&self) -> &'a str
        ensures { result.now ≡ self.now.command.now }
    {
        self.command
    }
}
