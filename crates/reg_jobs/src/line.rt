//! Lines on standard error.

ghost use Rattle.std.specs.Prelude.{◌≡◌};
ghost use Rattle.reg_jobs.specs.Errors.{Puts};
ghost use Rattle.reg_jobs.specs.Names.{shown_name};
ghost use Rattle.reg_jobs.specs.Outcomes.{ReportsResult, result_of, line_of, line_with, result_view, layout_or_port_of, status_of, text_of_line, text_of_parts};

use crate::errors::ErrorWriter;
use crate::name::put_name;
use crate::outcome::{Fault, JobError, Outcome, result_of, status_of};
use itoa::Buffer;
use std::io::Write;

/// A line on standard error: a text, the name of a file or nothing, and up to three more parts.
#[derive(Clone, Copy)]
struct ErrorLine<'a> {
    front: &'a str,
    name: &'a str,
    rest: [&'a str; 3],
}

/// A line without a name.
fn bare_line<'a>(front: &'a str) -> ErrorLine<'a>
    ensures { text_of_line result ≡ front.entry.now }
{
    ErrorLine {
        front,
        name: "",
        rest: ["", "", ""],
    }
}

/// A line with the name of a file, or with an empty name.
fn file_line<'a>(front: &'a str, name: &'a str, rest: [&'a str; 3]) -> ErrorLine<'a>
    ensures { result ≡ record { front = front.entry; name = name.entry; rest = rest.entry } }
{
    ErrorLine { front, name, rest }
}

/// The layout or the port that a fault names, otherwise 0.
fn layout_or_port_of(fault: Fault) -> u32
    ensures { result ≡ layout_or_port_of fault }
{
    match fault {
        Fault::OldLayout(layout) => layout,
        Fault::NewerLayout(layout) => layout,
        Fault::CannotListen(port) => port.into(),
        _ => 0,
    }
}

/// The line for a fault. `digits` must be those of the layout or port that the fault names; they
/// aren't compared. `put_line` escapes control characters of `file`.
fn line_with<'a>(fault: Fault, file: &'a str, digits: &'a str) -> ErrorLine<'a>
    ensures { text_of_line result ≡ line_with fault (shown_name file.entry.now) digits.entry.now }
{
    match fault {
        Fault::ReadFailed => bare_line("avroreg: read failed\n"),
        Fault::WriteFailed => bare_line("avroreg: write failed\n"),
        Fault::MalformedInput => bare_line("avroreg: malformed input\n"),
        Fault::OutOfMemory => bare_line("avroreg: out of memory\n"),
        Fault::CannotRead => file_line("avroreg: cannot read ", file, ["\n", "", ""]),
        Fault::NotSchema => file_line("avroreg: ", file, [" is not a schema\n", "", ""]),
        Fault::CannotOpen => file_line("avroreg: cannot open ", file, ["\n", "", ""]),
        Fault::NotRegistry => file_line("avroreg: ", file, [" is not a registry\n", "", ""]),
        Fault::OldLayout(_) => file_line(
            "avroreg: ",
            file,
            [" has layout ", digits, ", run migrate\n"],
        ),
        Fault::NewerLayout(_) => file_line(
            "avroreg: ",
            file,
            [" has layout ", digits, ", newer than this program\n"],
        ),
        Fault::CannotListen(_) => file_line(
            "avroreg: cannot listen on port ",
            "",
            [digits, "\n", ""],
        ),
        Fault::CannotAccept => bare_line("avroreg: cannot accept connections\n"),
    }
}

/// Writes the parts in order.
fn put_parts<E: Write + Drop>(errors: &mut ErrorWriter<E>, parts: &[&str])
    ensures { Puts E.contents errors.old errors.new (text_of_parts parts.now) }
{
    for part in parts {
        errors.put(part.as_bytes());
    }
}

/// Writes a line, with the file's name as it is shown.
fn put_line<E: Write + Drop>(errors: &mut ErrorWriter<E>, line: ErrorLine)
    ensures { Puts E.contents errors.old errors.new (text_of_line line.entry) }
{
    errors.put(line.front.as_bytes());
    put_name(errors, line.name);
    put_parts(errors, &line.rest);
}

/// Writes the line for an error.
pub fn put_job_error<E: Write + Drop>(errors: &mut ErrorWriter<E>, job_error: JobError)
    ensures { Puts E.contents errors.old errors.new (line_of job_error.entry.fault job_error.entry.file.now) }
{
    let mut digits = Buffer::new();
    let number = digits.format(layout_or_port_of(job_error.fault));
    put_line(errors, line_with(job_error.fault, job_error.file, number));
}

/// Writes the line for a result if it is an error, and returns the program's status.
pub fn report_result<E: Write + Drop>(
    errors: &mut ErrorWriter<E>,
    answer: Result<u8, JobError>,
) -> u8
    ensures reports { ReportsResult E.contents (result_view answer.entry) errors.old errors.new }
    ensures status { result ≡ status_of (result_view answer.entry) }
{
    if let Err(job_error) = answer {
        put_job_error(errors, job_error);
    }
    status_of(answer)
}

/// Writes the line for an outcome on a file if it is an error, and returns the program's status.
pub fn report<E: Write + Drop>(errors: &mut ErrorWriter<E>, outcome: Outcome, file: &str) -> u8
    ensures reports { ReportsResult E.contents (result_of outcome file.now file.now) errors.old errors.new }
    ensures status { result ≡ status_of (result_of outcome file.now file.now) }
{
    let answer = result_of(outcome, file, file);
    report_result(errors, answer)
}
