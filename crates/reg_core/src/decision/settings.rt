//! Commands that set and show compatibility levels and modes.

ghost use Rattle.std.specs.Prelude.{◌≡◌, ◌≢◌, [], IfOk, Option, None, Some, option_copied};
ghost use Rattle.reg_core.specs.Inside.Evidence.{AddNoVersion};
ghost use Rattle.reg_core.specs.Registry.{Registry};
ghost use Rattle.reg_core.specs.Replies.{success};
ghost use Rattle.reg_core.specs.Settings.{set, setting_object, setting_reply, setting_reply_or_fault, own_or_global};
ghost use Rattle.reg_core.specs.Views.{ChangesFit, after_changes};

use crate::code::Code;
use crate::decision::{Change, Decision, unchanged};
use crate::level::Level;
use crate::mode::Mode;
use crate::reply::Reply;
use crate::subject::Subject;
use avro_nodes::OutOfMemory;
use serde_json::json;
use std::alloc::Global;

/// A kind of setting: a subject may have its own value, and there is a global one.
pub trait Setting: Copy {
    ghost use Rattle.std.specs.Prelude.{◌≡◌, IfOk, option_copied};
    ghost use Rattle.reg_core.specs.Registry.{Registry};
    ghost use Rattle.reg_core.specs.Settings.{Setting};
    ghost use Rattle.reg_core.specs.Views.{ChangeFits, after_change};
    ghost use Rattle.reg_core.specs.Inside.Evidence.{AddsNoVersion};

    ghost setting: { Setting Self };

    /// The value that the text spells, or `None`.
    fn read(text: &str) -> Option<Self>
        ensures { result ≡ setting.value_of text.now };

    /// The value's spelling.
    fn spelt(self) -> &'static str
        ensures { result.now ≡ setting.text_of self };

    /// The name of the value's member in the reply to PUT.
    fn member_in_put() -> &'static str
        ensures { result.now ≡ setting.member_in_put };

    /// The name of the value's member in the reply to GET.
    fn member_in_get() -> &'static str
        ensures { result.now ≡ setting.member_in_get };

    /// The code for a text that spells no value.
    fn unknown() -> Code
        ensures { result ≡ setting.unknown };

    /// The code for a subject without a value of its own.
    fn absent() -> Code
        ensures { result ≡ setting.absent };

    /// The change that sets the value: the subject's own, or the global one if there is no subject.
    fn to_change(self, subject: Option<&Subject>) -> Result<Change, OutOfMemory>
        ensures after { IfOk result (λ change. (g : Registry)
            → after_change change g ≡ setting.put g (option_copied subject.entry) self) }
        ensures fits { IfOk result (λ change. (g : Registry) → ChangeFits change g) }
        ensures adds_no_version { IfOk result (λ change. AddsNoVersion change) };
}

impl Setting for Level {
    ghost use Rattle.reg_core.specs.Settings.{level_setting};

    ghost setting = { level_setting };

    fn read(text: &str) -> Option<Level> {
        Level::parse(text)
    }

    fn spelt(self) -> &'static str {
        self.text()
    }

    fn member_in_put() -> &'static str {
        "compatibility"
    }

    fn member_in_get() -> &'static str {
        "compatibilityLevel"
    }

    fn unknown() -> Code {
        Code::InvalidLevel
    }

    fn absent() -> Code {
        Code::NoOwnLevel
    }

    fn to_change(self, subject: Option<&Subject>) -> Result<Change, OutOfMemory> {
        let change = match subject {
            None => Change::SetGlobal { level: self },
            Some(subject) => Change::SetLevel {
                subject: subject.try_clone()?,
                level: self,
            },
        };
        Ok(change)
    }
}

impl Setting for Mode {
    ghost use Rattle.reg_core.specs.Settings.{mode_setting};

    ghost setting = { mode_setting };

    fn read(text: &str) -> Option<Mode> {
        Mode::parse(text)
    }

    fn spelt(self) -> &'static str {
        self.text()
    }

    fn member_in_put() -> &'static str {
        "mode"
    }

    fn member_in_get() -> &'static str {
        "mode"
    }

    fn unknown() -> Code {
        Code::InvalidMode
    }

    fn absent() -> Code {
        Code::NoOwnMode
    }

    fn to_change(self, subject: Option<&Subject>) -> Result<Change, OutOfMemory> {
        let change = match subject {
            None => Change::SetGlobalMode { mode: self },
            Some(subject) => Change::SetMode {
                subject: subject.try_clone()?,
                mode: self,
            },
        };
        Ok(change)
    }
}

/// Sets the subject's own value, or the global one if there is no subject, to the value that the
/// text spells. Rejects a text that spells none; then nothing changes.
pub fn set<S: Setting>(
    alloc: Global,
    subject: Option<&Subject>,
    text: &str,
) -> Result<Decision, OutOfMemory>
    ensures reply { IfOk result (λ decision. (g : Registry)
        → decision.reply ≡ (set S.setting g (option_copied subject.entry) (S.setting.value_of text.now)).1) }
    ensures changes { IfOk result (λ decision. (g : Registry)
        → after_changes decision.changes.items g ≡ (set S.setting g (option_copied subject.entry) (S.setting.value_of text.now)).0) }
    ensures fit { IfOk result (λ decision. (g : Registry) → ChangesFit decision.changes.items g) }
    ensures adds_no_version { IfOk result (λ decision. AddNoVersion decision.changes.items) }
    ensures refusal { IfOk result (λ decision. decision.reply.status ≢ 200 → decision.changes.items ≡ []) }
{
    let Some(value) = S::read(text) else {
        return Ok(unchanged(alloc, Reply::fault(S::unknown())));
    };
    let reply = setting_object_reply(alloc, S::member_in_put(), value.spelt())?;
    let change = value.to_change(subject)?;
    let mut changes = Vec::new(alloc);
    changes.push(change)?;
    Ok(Decision { changes, reply })
}

/// The value to show of a subject: its own; if it has none and `default_to_global` is on, the
/// global one; else `None`.
pub fn own_or_global<S: Copy>(own: Option<S>, global: S, default_to_global: bool) -> Option<S>
    ensures { result ≡ own_or_global own global default_to_global }
{
    match own {
        Some(value) => Some(value),
        None if default_to_global => Some(global),
        None => None,
    }
}

/// The reply that shows the value, or a fault if there is none.
pub fn setting_reply_or_fault<S: Setting>(
    alloc: Global,
    value: Option<S>,
) -> Result<Reply, OutOfMemory>
    ensures { IfOk result (λ reply. reply ≡ setting_reply_or_fault S.setting value) }
{
    match value {
        Some(value) => setting_reply(alloc, value),
        None => Ok(Reply::fault(S::absent())),
    }
}

/// The reply that shows a value.
pub fn setting_reply<S: Setting>(alloc: Global, value: S) -> Result<Reply, OutOfMemory>
    ensures { IfOk result (λ reply. reply ≡ setting_reply S.setting value) }
{
    setting_object_reply(alloc, S::member_in_get(), value.spelt())
}

/// The reply with an object of one member: this name, with the text as its value.
fn setting_object_reply(alloc: Global, name: &str, text: &str) -> Result<Reply, OutOfMemory>
    ensures { IfOk result (λ reply. reply ≡ success (setting_object name.now text.now)) }
{
    let object = json!(in alloc; {name: text})?;
    Ok(Reply::success(object.to_string(alloc)?))
}
