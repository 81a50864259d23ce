//! Connections outside a transaction.

ghost use Rattle.std.specs.Prelude.{◌≡◌, false};

use sqlite::{Alter, Connection};

/// A connection in autocommit mode. Every borrower must leave it in that mode.
#[derive(Drop)]
pub struct AutocommitConnection<S: Alter> {
    pub conn: Connection<S>,
    pub ghost autocommit: { conn.in_transaction ≡ false },
}
