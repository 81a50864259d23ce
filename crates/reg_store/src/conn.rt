//! A store's connection.

ghost use Rattle.std.specs.Prelude.{◌≡◌, None, false};

use reg_tables::AutocommitConnection;
use sqlite::{Alter, Connection};

/// A connection in autocommit mode without a step limit. Every borrower must leave it in autocommit
/// mode.
#[derive(Drop)]
pub struct Conn<S: Alter> {
    pub(crate) idle: AutocommitConnection<S>,
    ghost unlimited: { idle.conn.step_limit ≡ None },
}

impl<S: Alter> Conn<S> {
    ghost use Rattle.std.specs.Prelude.{◌≡◌, IsTrue, None, false};
    ghost use Rattle.sqlite.specs.Held.{state};

    /// The connection, which must be outside a transaction, without its step limit.
    pub(crate) fn new(mut conn: Connection<S>) -> Conn<S>
        requires { conn.in_transaction ≡ false }
        ensures same { result.idle.conn ≡ record conn { step_limit = None } }
        ensures settled { IsTrue (state S.Store result.idle.conn).is_open
            → (state S.Store result.idle.conn).now ≡ (state S.Store result.idle.conn).committed }
    {
        conn.set_step_limit(None);
        let _settled = conn.is_autocommit();
        Conn {
            idle: AutocommitConnection { conn },
        }
    }
}
