//! The reply under a retry key, and the text of an id.

ghost use Rattle.std.specs.Prelude.{◌≡◌, None, IfOk, OnErr, option_map, string_bytes};
ghost use Rattle.reg_core.specs.Replies.{IsKeptStatus};
ghost use Rattle.reg_core.specs.Rows.{text_at};
ghost use Rattle.reg_tables.specs.KeptReplyViews.{kept_reply_view};
ghost use Rattle.reg_core.specs.KeptReplies.{entry_with};
ghost use Rattle.reg_store.specs.Spells.{stored_reply};
ghost use Rattle.reg_store.specs.Stores.{ReadsStore};
ghost use Rattle.reg_store.specs.Inside.Reads.{Reads};

use crate::conn::Conn;
use crate::error::StoreError;
use crate::store::Store;
use crate::store::texts::text_with_id;
use reg_core::{Key, Reply};
use reg_tables::{KeptReply, kept_reply};
use sqlite::Alter;

impl<S: Alter> Store<S> {
    /// The command's text and the reply under the key, or `None`.
    ///
    /// # Errors
    ///
    /// `Memory` or `Disk`, or `NotARegistry` if the tables no longer hold a registry. In each
    /// case nothing is changed.
    pub fn kept(&mut self, key: &Key<'_>) -> Result<Option<(String, Reply)>, StoreError>
        ensures { ReadsStore self.old self.new result (λ was found.
            was.replies key.now ≡ option_map (λ kept. entry_with (string_bytes kept.0) kept.1) found) }
    {
        if self.failed {
            return Err(StoreError::Disk);
        }
        let found = kept_under(&mut self.db, key);
        self.failed = matches!(found, Err(StoreError::Disk));
        found
    }

    /// The identity text of the id's schema, or `None`.
    ///
    /// # Errors
    ///
    /// `Memory` or `Disk`, or `NotARegistry` if the tables no longer hold a registry. In each
    /// case nothing is changed.
    pub fn text_of(&mut self, id: u32) -> Result<Option<String>, StoreError>
        ensures { ReadsStore self.old self.new result (λ was found.
            option_map string_bytes found ≡ text_at was.registry.schemas id) }
    {
        if self.failed {
            return Err(StoreError::Disk);
        }
        let text = text_with_id(&mut self.db, id);
        self.failed = matches!(text, Err(StoreError::Disk));
        text
    }
}

/// The command's text and the reply under the key, or `None`.
fn kept_under<S: Alter>(
    db: &mut Conn<S>,
    key: &Key<'_>,
) -> Result<Option<(String, Reply)>, StoreError>
    ensures { Reads db.old db.new result (λ was found.
        was.replies key.now ≡ option_map (λ kept. entry_with (string_bytes kept.0) kept.1) found) }
{
    match kept_reply(&mut db.idle, key.as_str())? {
        None => Ok(None),
        Some(row) => Ok(Some(reply_in(row)?)),
    }
}

/// The command's text and the reply of a row, if its status is one of a reply.
fn reply_in(row: KeptReply) -> Result<(String, Reply), StoreError>
    ensures ok { IfOk result (λ kept.
        kept_reply_view row ≡ stored_reply (entry_with (string_bytes kept.0) kept.1)) }
    ensures err { OnErr result (¬ IsKeptStatus row.status) }
{
    let KeptReply {
        command,
        status,
        body,
    } = row;
    let Ok(status) = u16::try_from(status) else {
        return Err(StoreError::NotARegistry);
    };
    match Reply::new(status, body) {
        Some(reply) => Ok((command, reply)),
        None => Err(StoreError::NotARegistry),
    }
}
