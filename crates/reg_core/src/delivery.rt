//! A delivery: a command with its retry key.

use crate::command::Command;
use crate::key::Key;

/// A command as a client sent it, with its retry key, if any.
#[derive(Debug, Drop)]
pub struct Delivery<'a> {
    /// The retry key. A read's key is ignored.
    pub key: Option<Key<'a>>,
    /// The command.
    pub command: Command,
}
