//! The reply to a known retry key.

ghost use Rattle.std.specs.Prelude.{◌≡◌, ◌≢◌, string_bytes};
ghost use Rattle.reg_core.specs.Replies.{fault};
ghost use Rattle.reg_core.specs.declared.code.Code.TheVariants.{KeyReused};

use reg_core::{Code, Reply};

/// The reply to a later delivery of a key. `kept` and `reply` are the text of the key's first
/// command and the first reply, and `text` is the later command's text. If the texts differ, the
/// reply is 42290.
pub(crate) fn answer_retry(kept: String, reply: Reply, text: &str) -> Reply
    ensures same { text.now ≡ string_bytes kept → result ≡ reply }
    ensures other { text.now ≢ string_bytes kept → result ≡ fault KeyReused }
{
    if text == kept.as_str() {
        reply
    } else {
        Reply::fault(Code::KeyReused)
    }
}
