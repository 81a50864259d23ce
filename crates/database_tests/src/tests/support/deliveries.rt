//! Deliveries and their replies.

use reg_core::{Command, Key, OutOfMemory, Reply, Subject, Text};
use reg_service::{Delivery, Service};
use sqlite::Alter;
use std::alloc::Global;
use std::test::Fail;

/// A write of one of four kinds, or the read that needs no row. A schema has a supported type, and
/// a version is soft-deleted.
#[derive(Clone, Copy)]
pub enum ListedCommand {
    SetGlobal(&'static str),
    Register(&'static str, &'static str),
    DeleteVersion(&'static str, &'static str),
    /// whether permanently
    DeleteSubject(&'static str, bool),
    Types,
}

/// A retry key or none, a command, and the status and the body of the reply.
pub type Row = (Option<&'static str>, ListedCommand, u16, &'static str);

fn text_of(alloc: Global, text: &str) -> Result<Text, OutOfMemory> {
    Ok(Text::from(String::from_str(alloc, text)?))
}

/// The subject with this text. All subjects in the rows are valid.
fn subject_of(alloc: Global, text: &str) -> Result<Subject, OutOfMemory> {
    Subject::new(String::from_str(alloc, text)?).ok_or(OutOfMemory)
}

fn command_of(alloc: Global, listed: ListedCommand) -> Result<Command, OutOfMemory> {
    Ok(match listed {
        ListedCommand::SetGlobal(level) => Command::SetGlobal {
            level: text_of(alloc, level)?,
        },
        ListedCommand::Register(subject, text) => Command::Register {
            subject: subject_of(alloc, subject)?,
            text: text_of(alloc, text)?,
            supported: true,
        },
        ListedCommand::DeleteVersion(subject, version) => Command::DeleteVersion {
            subject: subject_of(alloc, subject)?,
            version: text_of(alloc, version)?,
            permanent: false,
        },
        ListedCommand::DeleteSubject(subject, permanent) => Command::DeleteSubject {
            subject: subject_of(alloc, subject)?,
            permanent,
        },
        ListedCommand::Types => Command::Types,
    })
}

/// The delivery of a row.
fn delivery_of(alloc: Global, row: &Row) -> Result<Delivery<'static>, OutOfMemory> {
    Ok(Delivery {
        key: row.0.and_then(|text| Key::parse(text)),
        command: command_of(alloc, row.1)?,
    })
}

/// The deliveries of rows.
///
/// # Errors
///
/// `OutOfMemory` if an allocation fails.
pub fn deliveries_of(alloc: Global, rows: &[Row]) -> Result<Vec<Delivery<'static>>, OutOfMemory> {
    let mut list = Vec::with_capacity(alloc, rows.len())?;
    for row in rows {
        list.push(delivery_of(alloc, row)?)?;
    }
    Ok(list)
}

/// The reply of a service, without the contract of `Service::answer`.
fn answer<S: Alter + Drop>(service: &mut Service<S>, delivery: &Delivery) -> Reply {
    service.answer(delivery)
}

/// The replies of a service, with one call for each delivery.
///
/// # Errors
///
/// `OutOfMemory` if allocating the replies fails.
pub fn answer_each<S: Alter + Drop>(
    alloc: Global,
    service: &mut Service<S>,
    list: &[Delivery],
) -> Result<Vec<Reply>, OutOfMemory> {
    let mut replies = Vec::with_capacity(alloc, list.len())?;
    for delivery in list {
        replies.push(answer(service, delivery))?;
    }
    Ok(replies)
}

/// The replies of a service to all deliveries in one run, without the contract of `Service::run`.
///
/// # Errors
///
/// `OutOfMemory` if allocating the replies fails.
pub fn run_all<S: Alter + Drop>(
    service: &mut Service<S>,
    list: &[Delivery],
) -> Result<Vec<Reply>, OutOfMemory> {
    service.run(list)
}

/// Checks that a reply is the reply of a row.
fn check_reply(reply: &Reply, row: &Row) -> Result<(), Fail> {
    if reply.status() == row.2 && reply.body() == row.3 {
        return Ok(());
    }
    let (status, body) = (reply.status(), reply.body());
    Err(Fail::new(format_args!("{status} {body}, and not {} {}", row.2, row.3)))
}

/// The body of the reply 50001.
const FAULT: &str = "{\"error_code\":50001,\"message\":\"Error in the backend data store\"}";

/// The number of replies, from the first on, that are the replies of their rows. All later ones
/// must be 50001.
///
/// # Errors
///
/// A failed test if there is another reply, or another number of replies.
pub fn count_answered(replies: &[Reply], rows: &[Row]) -> Result<usize, Fail> {
    if replies.len() != rows.len() {
        return Err("there are more or fewer replies".into());
    }
    let is_fault = |reply: &Reply| reply.status() == 500;
    let count = replies.iter().position(is_fault).unwrap_or(rows.len());
    for (at, (reply, row)) in replies.iter().zip(rows).enumerate() {
        if at < count {
            check_reply(reply, row)?;
        } else {
            check_reply(reply, &(row.0, row.1, 500, FAULT))?;
        }
    }
    Ok(count)
}
