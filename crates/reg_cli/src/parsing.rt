//! Turns arguments into tasks.

ghost use Rattle.std.specs.Prelude.{◌≡◌, None, Some, MatchResult, map, string_bytes};
ghost use Rattle.clap.specs.Words.{found_of, rows_of};
ghost use Rattle.reg_cli.specs.Line.{audit_task_in, check_task_in, line, list_task_in, migrate_task_in, serve_task_in, task_in, text_task_in};
ghost use Rattle.reg_cli.specs.Tasks.{IsUsage, task_view};

use crate::command::{list_command, program};
use crate::fault::{LineFault, line_fault_of, usage_error};
use crate::task::{Job, Server, Task};
use crate::values::{connections_in, copy_of, listing_in, port_in, value_of};
use clap::ArgMatches;
use clap::error::ErrorKind;
use std::alloc::{AllocError, Global};

/// The error for a missing or unknown subcommand, a missing value, or an invalid number. `clap`
/// rejects such arguments, so the program never shows it.
fn incomplete(alloc: Global) -> Result<LineFault, AllocError> {
    Ok(usage_error(
        alloc,
        program(alloc)?,
        ErrorKind::MissingRequiredArgument,
        "a command or a value is missing",
    ))
}

/// The error for an argument that names no listing.
fn unknown_listing(alloc: Global, argument: &str) -> Result<LineFault, AllocError> {
    let message = format!(in alloc;
        "invalid value '{argument}' for '<W>'\n  [possible values: subjects, versions, schemas]"
    )?;
    let command = list_command(alloc)?.bin_name("avroreg list")?;
    Ok(usage_error(alloc, command, ErrorKind::InvalidValue, message.as_str()))
}

/// The task of `serve`, or a usage error if a required value is missing, or if `port_in` or
/// `connections_in` is `None`. A port or count of 0 and a count above `max_connections` are accepted
/// here, but `clap` rejects them first.
fn serve_task_in(alloc: Global, matches: &ArgMatches<'_>) -> Result<Task, LineFault>
    ensures { MatchResult result
        (λ task. serve_task_in (rows_of (found_of matches.now)) ≡ Some (task_view task))
        (λ fault. IsUsage fault → serve_task_in (rows_of (found_of matches.now)) ≡ None) }
{
    let Some(database) = value_of(matches, "db") else {
        return Err(incomplete(alloc)?);
    };
    let Some(port) = value_of(matches, "port") else {
        return Err(incomplete(alloc)?);
    };
    let Some(port) = port_in(port) else {
        return Err(incomplete(alloc)?);
    };
    let Some(connections) = connections_in(value_of(matches, "connections")) else {
        return Err(incomplete(alloc)?);
    };
    Ok(Task::Server(Server {
        database: String::from_str(alloc, database)?,
        port,
        connections,
    }))
}

/// The task of `check`, or a usage error if a value is missing.
fn check_task_in(alloc: Global, matches: &ArgMatches<'_>) -> Result<Task, LineFault>
    ensures { MatchResult result
        (λ task. check_task_in (rows_of (found_of matches.now)) ≡ Some (task_view task))
        (λ fault. IsUsage fault → check_task_in (rows_of (found_of matches.now)) ≡ None) }
{
    let Some(reader) = value_of(matches, "reader") else {
        return Err(incomplete(alloc)?);
    };
    let Some(writer) = value_of(matches, "writer") else {
        return Err(incomplete(alloc)?);
    };
    Ok(Task::Job(Job::Check {
        reader: String::from_str(alloc, reader)?,
        writer: String::from_str(alloc, writer)?,
    }))
}

/// The task of `text`, or a usage error if its value is missing.
fn text_task_in(alloc: Global, matches: &ArgMatches<'_>) -> Result<Task, LineFault>
    ensures { MatchResult result
        (λ task. text_task_in (rows_of (found_of matches.now)) ≡ Some (task_view task))
        (λ fault. IsUsage fault → text_task_in (rows_of (found_of matches.now)) ≡ None) }
{
    let Some(file) = value_of(matches, "F") else {
        return Err(incomplete(alloc)?);
    };
    Ok(Task::Job(Job::Text {
        file: String::from_str(alloc, file)?,
    }))
}

/// The task of `list`, or a usage error if a value is missing or names no listing.
fn list_task_in(alloc: Global, matches: &ArgMatches<'_>) -> Result<Task, LineFault>
    ensures { MatchResult result
        (λ task. list_task_in (rows_of (found_of matches.now)) ≡ Some (task_view task))
        (λ fault. IsUsage fault → list_task_in (rows_of (found_of matches.now)) ≡ None) }
{
    let Some(database) = value_of(matches, "db") else {
        return Err(incomplete(alloc)?);
    };
    let Some(argument) = value_of(matches, "W") else {
        return Err(incomplete(alloc)?);
    };
    let Some(kind) = listing_in(argument) else {
        return Err(unknown_listing(alloc, argument)?);
    };
    Ok(Task::Job(Job::List {
        database: String::from_str(alloc, database)?,
        kind,
    }))
}

/// The task of `migrate`, or a usage error if the value of `--db` is missing.
fn migrate_task_in(alloc: Global, matches: &ArgMatches<'_>) -> Result<Task, LineFault>
    ensures { MatchResult result
        (λ task. migrate_task_in (rows_of (found_of matches.now)) ≡ Some (task_view task))
        (λ fault. IsUsage fault → migrate_task_in (rows_of (found_of matches.now)) ≡ None) }
{
    let Some(database) = value_of(matches, "db") else {
        return Err(incomplete(alloc)?);
    };
    Ok(Task::Job(Job::Migrate {
        database: String::from_str(alloc, database)?,
    }))
}

/// The task of `audit`, or a usage error if the value of `--db` is missing.
fn audit_task_in(alloc: Global, matches: &ArgMatches<'_>) -> Result<Task, LineFault>
    ensures { MatchResult result
        (λ task. audit_task_in (rows_of (found_of matches.now)) ≡ Some (task_view task))
        (λ fault. IsUsage fault → audit_task_in (rows_of (found_of matches.now)) ≡ None) }
{
    let Some(database) = value_of(matches, "db") else {
        return Err(incomplete(alloc)?);
    };
    Ok(Task::Job(Job::Audit {
        database: String::from_str(alloc, database)?,
    }))
}

/// The task of a subcommand, from the values of its arguments. A usage error if there is no such
/// subcommand, or if a value is missing or invalid.
fn task_in(alloc: Global, name: &str, matches: &ArgMatches<'_>) -> Result<Task, LineFault>
    ensures { MatchResult result
        (λ task. task_in name.now (rows_of (found_of matches.now)) ≡ Some (task_view task))
        (λ fault. IsUsage fault → task_in name.now (rows_of (found_of matches.now)) ≡ None) }
{
    match name {
        "run" => Ok(Task::Job(Job::Run {
            database: copy_of(alloc, value_of(matches, "db"))?,
        })),
        "serve" => serve_task_in(alloc, matches),
        "check" => check_task_in(alloc, matches),
        "text" => text_task_in(alloc, matches),
        "list" => list_task_in(alloc, matches),
        "migrate" => migrate_task_in(alloc, matches),
        "audit" => audit_task_in(alloc, matches),
        _ => Err(incomplete(alloc)?),
    }
}

/// The task of the arguments, which don't include the program's name.
///
/// # Errors
///
/// `Usage` if the arguments are wrong or request help: `clap` rejects them, or the argument of
/// `list` isn't the name of a listing. `OutOfMemory` if an allocation fails.
pub fn task_of(alloc: Global, arguments: &[String]) -> Result<Task, LineFault>
    ensures { MatchResult result
        (λ task. line (map string_bytes arguments.now) ≡ Some (task_view task))
        (λ fault. IsUsage fault → line (map string_bytes arguments.now) ≡ None) }
{
    match program(alloc)?.try_get_matches_from(arguments) {
        Ok(matches) => match matches.subcommand() {
            Some((name, inner)) => task_in(alloc, name, inner),
            None => Err(incomplete(alloc)?),
        },
        Err(error) => Err(line_fault_of(alloc, &error)),
    }
}
