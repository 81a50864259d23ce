//! The program's subcommands, their arguments and their help texts, for `clap`.

ghost use Rattle.std.specs.Prelude.{◌≡◌, IfOk, false};
ghost use Rattle.clap.specs.Words.{App, new_app, new_rule, rule_of, with_subcommand};
ghost use Rattle.reg_cli.specs.Commands.{IsApp, audit_command, root_command, check_command};
ghost use Rattle.reg_cli.specs.Commands.{connections_rule, database_rule, list_command, migrate_command, required};
ghost use Rattle.reg_cli.specs.Commands.{option_rule, port_rule, program, run_command, serve_command};
ghost use Rattle.reg_cli.specs.Commands.{text_command};

use crate::task::MAX_CONNECTIONS;
use clap::{Arg, Command, value_parser};
use std::alloc::{AllocError, Global};

/// An option with one value and a help text.
fn option<'a>(alloc: Global, name: &'a str, value: &'a str, help: &'a str) -> Arg<'a>
    ensures rule { rule_of result ≡ option_rule name.entry.now }
    ensures local { result.global ≡ false }
{
    Arg::new(alloc, name)
        .long(name)
        .value_name(value)
        .help(help)
}

/// A required positional argument with a help text.
fn positional<'a>(alloc: Global, name: &'a str, help: &'a str) -> Arg<'a>
    ensures rule { rule_of result ≡ required (new_rule name.entry.now) }
    ensures local { result.global ≡ false }
{
    Arg::new(alloc, name).required(true).help(help)
}

/// `--port N`, which is required. N is 1 to 65,535.
fn port<'a>(alloc: Global) -> Arg<'a>
    ensures rule { rule_of result ≡ port_rule }
    ensures local { result.global ≡ false }
{
    option(alloc, "port", "N", "The port on 127.0.0.1, 1 to 65535")
        .required(true)
        .value_parser(value_parser!(u16).range(1..))
}

/// `--connections N`, which is optional. N is 1 to `MAX_CONNECTIONS`.
fn connections<'a>(alloc: Global) -> Arg<'a>
    ensures rule { rule_of result ≡ connections_rule }
    ensures local { result.global ≡ false }
{
    option(
        alloc,
        "connections",
        "N",
        "Stop after this many connections, 1 to 2147483647 (the default)",
    )
    .value_parser(value_parser!(u32).range(1..=i64::from(MAX_CONNECTIONS)))
}

/// `--db F`, which is required.
fn database<'a>(alloc: Global) -> Arg<'a>
    ensures rule { rule_of result ≡ required database_rule }
    ensures local { result.global ≡ false }
{
    option(alloc, "db", "F", "The registry's file").required(true)
}

/// `--db F`, which is optional, for a file that may be missing or empty.
fn new_database<'a>(alloc: Global) -> Arg<'a>
    ensures rule { rule_of result ≡ database_rule }
    ensures local { result.global ≡ false }
{
    option(
        alloc,
        "db",
        "F",
        "The registry's file, created if it is missing or empty",
    )
}

/// A subcommand with its help texts, and no arguments yet.
fn subcommand<'a>(alloc: Global, name: &'a str, about: &'a str, after_help: &'a str) -> Command<'a>
    ensures { IsApp (new_app name.entry.now) result }
{
    Command::new(alloc, name)
        .about(about)
        .after_help(after_help)
}

/// `run [--db F]`.
fn run_command<'a>(alloc: Global) -> Result<Command<'a>, AllocError>
    ensures { IfOk result (IsApp run_command) }
{
    subcommand(
        alloc,
        "run",
        "Answer the HTTP requests on standard input, on standard output",
        "Without --db, the registry is a new one in memory. Status 0 if the input ended
between requests, or a valid request ended the connection. Status 2 after an
error, with one line on standard error.",
    )
    .arg(new_database(alloc))
}

/// `serve --db F --port N [--connections N]`.
fn serve_command<'a>(alloc: Global) -> Result<Command<'a>, AllocError>
    ensures { IfOk result (IsApp serve_command) }
{
    subcommand(
        alloc,
        "serve",
        "Serve a registry over HTTP on 127.0.0.1",
        "Serves one connection after another. F and F-wal belong together while the
program runs and after it was killed. Status 0 after the last connection, 2 if the
server can't start or continue, with one line on standard error.",
    )
    .arg(new_database(alloc).required(true))?
    .arg(port(alloc))?
    .arg(connections(alloc))
}

/// `check --reader F --writer F`.
fn check_command<'a>(alloc: Global) -> Result<Command<'a>, AllocError>
    ensures { IfOk result (IsApp check_command) }
{
    subcommand(
        alloc,
        "check",
        "Check whether a reader's schema can read a writer's data",
        "Prints compatible (status 0) or incompatible (status 1).
Status 2 after an error, with one line on standard error.",
    )
    .arg(option(alloc, "reader", "F", "The file with the reader's schema").required(true))?
    .arg(option(alloc, "writer", "F", "The file with the writer's schema").required(true))
}

/// `text F`.
fn text_command<'a>(alloc: Global) -> Result<Command<'a>, AllocError>
    ensures { IfOk result (IsApp text_command) }
{
    subcommand(
        alloc,
        "text",
        "Print the canonical text of a schema",
        "Two schemas are the same if their canonical texts are equal. Status 0, or 2 after
an error, with one line on standard error.",
    )
    .arg(positional(alloc, "F", "The file with the schema"))
}

/// `list --db F W`.
///
/// # Errors
///
/// `AllocError` if an allocation fails.
pub fn list_command<'a>(alloc: Global) -> Result<Command<'a>, AllocError>
    ensures { IfOk result (IsApp list_command) }
{
    subcommand(
        alloc,
        "list",
        "List the subjects, versions or schemas of a registry as CSV",
        "Prints a header, then one line for each subject, version or schema:
  subjects  subject,level,live,deleted: its own level, how many versions are live and deleted
  versions  subject,version,id,deleted
  schemas   id,text
Status 0, or 2 after an error, with one line on standard error.",
    )
    .arg(database(alloc))?
    .arg(positional(alloc, "W", "What to list: subjects, versions or schemas"))
}

/// `migrate --db F`.
fn migrate_command<'a>(alloc: Global) -> Result<Command<'a>, AllocError>
    ensures { IfOk result (IsApp migrate_command) }
{
    subcommand(
        alloc,
        "migrate",
        "Upgrade a registry's file from layout 1 to layout 2",
        "Prints layout 2: N versions kept, or layout 2: nothing to do. The registry stays as
it is, and so do the responses kept for retry keys. Back up F first, because older
programs can't read layout 2. Status 0, or 2 after an error, with one line on
standard error.",
    )
    .arg(database(alloc))
}

/// `audit --db F`.
fn audit_command<'a>(alloc: Global) -> Result<Command<'a>, AllocError>
    ensures { IfOk result (IsApp audit_command) }
{
    subcommand(
        alloc,
        "audit",
        "Check the stored versions against their evidence again",
        "Compares each version that has evidence with those that it was compared with when
it was registered. Prints evidence holds (status 0) if all pairs are compatible as
the level required then, otherwise evidence does not hold (status 1). Status 2 after
an error, with one line on standard error.",
    )
    .arg(database(alloc))
}

/// The program without its subcommands.
fn root_command<'a>(alloc: Global) -> Result<Command<'a>, AllocError>
    ensures { IfOk result (IsApp root_command) }
{
    Command::new(alloc, "avroreg")
        .no_binary_name(true)
        .subcommand_required(true)
        .about("A schema registry for Apache Avro")
        .after_help(
            "Status 2 after an error, with one line on standard error. Status 64 if the arguments
are wrong, with a message that says why. A help text has status 64 too.

Examples:
  avroreg serve --db registry.db --port 8081
  avroreg list --db registry.db subjects",
        )
        .bin_name("avroreg")
}

/// Adds a subcommand to a command. Returns `AllocError` if `added` is one, or if an allocation
/// fails.
fn with_subcommand<'a>(
    command: Command<'a>,
    added: Result<Command<'a>, AllocError>,
) -> Result<Command<'a>, AllocError>
    ensures { (a b : App) → IsApp a command.entry → IfOk added.entry (IsApp b)
        → IfOk result (IsApp (with_subcommand a b.top)) }
{
    command.subcommand(added?)
}

/// The program with its subcommands.
///
/// # Errors
///
/// `AllocError` if an allocation fails.
pub fn program<'a>(alloc: Global) -> Result<Command<'a>, AllocError>
    ensures { IfOk result (IsApp program) }
{
    let program = with_subcommand(root_command(alloc)?, run_command(alloc))?;
    let program = with_subcommand(program, serve_command(alloc))?;
    let program = with_subcommand(program, check_command(alloc))?;
    let program = with_subcommand(program, text_command(alloc))?;
    let program = with_subcommand(program, list_command(alloc))?;
    let program = with_subcommand(program, migrate_command(alloc))?;
    with_subcommand(program, audit_command(alloc))
}
