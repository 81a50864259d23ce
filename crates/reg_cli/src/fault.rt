//! The errors of the command line.

ghost use Rattle.std.specs.Prelude.{◌≢◌};
ghost use Rattle.clap.specs.Words.{kind_of};
ghost use Rattle.reg_cli.specs.Tasks.{IsUsage};

use clap::error::ErrorKind;
use clap::{Command, Error};
use std::alloc::{AllocError, Global};
use thiserror::Error as ErrorText;

/// Why the arguments give no task. The program prints the text of `Usage` on standard error.
#[derive(Debug, Drop, ErrorText)]
pub enum LineFault {
    /// The arguments are wrong, or request help. The text has whole lines, each with its line end.
    #[error("{0}")]
    Usage(String),
    /// An allocation failed. The text has no line end.
    #[error("out of memory")]
    OutOfMemory,
}

impl From<AllocError> for LineFault {
    ghost use Rattle.std.specs.Prelude.{◌≡◌};
    ghost use Rattle.reg_cli.specs.declared.fault.LineFault.TheVariants.{OutOfMemory};

    ghost from_gives = { λ _ fault. fault ≡ OutOfMemory };

    fn from(_error: AllocError) -> LineFault {
        LineFault::OutOfMemory
    }
}

/// The fault for an error of `clap`: `Usage` with its text. It is `OutOfMemory` if an allocation
/// failed in `clap`, or if the text can't be allocated.
pub fn line_fault_of(alloc: Global, error: &Error) -> LineFault
    ensures { IsUsage result → kind_of error.now ≢ ErrorKind.OutOfMemory }
{
    match error.kind() {
        ErrorKind::OutOfMemory => LineFault::OutOfMemory,
        _ => match format!(in alloc; "{error}") {
            Ok(text) => LineFault::Usage(text),
            Err(_) => LineFault::OutOfMemory,
        },
    }
}

/// A usage error in the form of `clap`'s errors: this message, and the command's usage. `kind` is
/// the error's kind in `clap`. The fault is `OutOfMemory` if an allocation fails.
pub fn usage_error(
    alloc: Global,
    mut command: Command<'_>,
    kind: ErrorKind,
    message: &str,
) -> LineFault {
    match command.error(kind, message) {
        Ok(error) => line_fault_of(alloc, &error),
        Err(_) => LineFault::OutOfMemory,
    }
}
