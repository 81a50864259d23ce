//! Measures how long it takes to read and to resolve schemas.
//!
//! The arguments are `read`, `resolve` or `behind`, then the name of a shape or `all`, and
//! optionally a count of the shape's parts. Without a count, each of the shape's own counts is
//! measured; for `behind` there is one or none.
//!
//! `read` reads a text by `Schema::read`, which makes its identity text, and by `serde_json` into a
//! `Value`. It prints the length, the times, their ratio, and `refused` if the text is no schema.
//! `resolve` resolves a writer's and a reader's text by `resolves` and by `resolves_plain`. It
//! prints the numbers of their places, the verdicts, the visits and the times. `behind` does the
//! same with each text after a cycle of records. There the recursion of `resolves` goes too deep,
//! and elimination decides. `files W R` resolves the texts of two files.
//!
//! Each time is that of the shortest of up to 2,000 runs. A call whose runs took over 0.2 seconds
//! in all isn't run again. A run has one call, or 16 if a call takes less than 10 microseconds;
//! then the time is their mean. Each measurement ends with the peak memory of the process so far.
//!
//! `random` resolves 2,000 random pairs, always the same ones, and fails if the two ways disagree.
//! Without arguments the program does nothing.

#![tactic(auto)]

mod hostile;
mod reading;
mod resolution;
mod shape;
mod times;

use anyhow::{Context, Result, bail, ensure};
use avro_resolve::{resolves, resolves_plain};
use avro_schema::Schema;
use avro_testing::random_text;
use hostile::hostile;
use reading::reading;
use resolution::resolution;
use shape::{Shape, put_after_cycle, shape_text};
use std::alloc::{AllocError, Global};
use std::{env, fs};
use times::{Call, Timing, times};

/// A measurement.
#[derive(Clone, Copy)]
enum Measurement {
    Reading,
    Resolution,
    /// resolution of texts after a cycle
    AfterCycle,
}

/// No shapes.
static NONE: &[Shape] = &[];

/// The number of random pairs.
const RANDOM_PAIRS: u64 = 2000;

/// Prints the peak memory of the process so far.
fn print_memory(rt: &HostRuntime) -> Result<()> {
    let status = fs::read_to_string(rt, "/proc/self/status")?;
    for line in status.lines() {
        if line.starts_with("VmHWM:") {
            println!(rt; "  {line}")?;
        }
    }
    Ok(())
}

/// Measures how long it takes to read the text of a shape.
fn read(rt: &HostRuntime, shape: &Shape, count: u32) -> Result<()> {
    let text = shape_text(rt.alloc(), shape, shape.writer, count)?;
    let text = text.as_str();
    let (schema, json) = times(rt, Call::Schema(text), Call::Json(text))?;
    ensure!(json.verdict.yes, "the text is not JSON");
    let (name, bytes) = (shape.name, text.len());
    let percent = schema.nanos.saturating_mul(100) / json.nanos.max(1);
    let (whole, rest) = (percent / 100, percent % 100);
    let verdict = if schema.verdict.yes { "" } else { "  refused" };
    print!(rt;
        "{name:<10} {count:>6} {bytes:>7} bytes  schema {:>9} ns  serde_json {:>9} ns  ratio {whole}.{rest:02}{verdict}",
        schema.nanos, json.nanos
    )?;
    print_memory(rt)
}

/// Prints how long one way to resolve took, in microseconds.
fn print_time(rt: &HostRuntime, way: &str, timing: Timing) -> Result<()> {
    let (whole, tenths) = (timing.nanos / 1000, timing.nanos / 100 % 10);
    println!(rt; "  {way} in {whole}.{tenths} us")?;
    Ok(())
}

/// The writer's and the reader's text of a shape, after a cycle of records if `is_after_cycle`.
fn pair_of(
    alloc: Global,
    shape: &Shape,
    count: u32,
    is_after_cycle: bool,
) -> Result<(String, String), AllocError> {
    let writer = shape_text(alloc, shape, shape.writer, count)?;
    let reader = shape_text(alloc, shape, shape.reader, count)?;
    if !is_after_cycle {
        return Ok((writer, reader));
    }
    let writer = put_after_cycle(alloc, writer.as_str(), "written")?;
    let reader = put_after_cycle(alloc, reader.as_str(), "read")?;
    Ok((writer, reader))
}

/// Measures how long it takes to resolve a writer's and a reader's text.
fn compare(rt: &HostRuntime, title: &str, writer: &str, reader: &str) -> Result<()> {
    let writer = Schema::read(rt.alloc(), writer)?;
    let reader = Schema::read(rt.alloc(), reader)?;
    let (recursion, elimination) = times(
        rt,
        Call::Recursion(&writer, &reader),
        Call::Elimination(&writer, &reader),
    )?;
    let (rows, columns) = (writer.places(), reader.places());
    println!(rt; "{title}: {rows} and {columns} places")?;
    println!(rt;
        "  resolves: {} with {} visits",
        recursion.verdict.yes, recursion.verdict.visits
    )?;
    print_time(rt, "resolves", recursion)?;
    println!(rt; "  resolves_plain: {}", elimination.verdict.yes)?;
    print_time(rt, "resolves_plain", elimination)?;
    print_memory(rt)
}

/// Measures how long it takes to resolve the pair of a shape.
fn resolve(rt: &HostRuntime, shape: &Shape, count: u32, is_after_cycle: bool) -> Result<()> {
    let (writer, reader) = pair_of(rt.alloc(), shape, count, is_after_cycle)?;
    let title = format!(in rt.alloc(); "{} {count}", shape.name)?;
    compare(rt, title.as_str(), writer.as_str(), reader.as_str())
}

/// Measures how long it takes to resolve the texts of two files.
fn compare_files(rt: &HostRuntime, arguments: &[String]) -> Result<()> {
    let (writer, reader) = (arguments.get(1), arguments.get(2));
    let writer = writer.context("the writer's file is wanted")?;
    let reader = reader.context("the reader's file is wanted")?;
    let written = fs::read_to_string(rt, writer.as_str())?;
    let read = fs::read_to_string(rt, reader.as_str())?;
    compare(rt, writer.as_str(), written.as_str(), read.as_str())
}

/// Whether a random pair resolves. It is an error if the two ways disagree.
fn agreed_verdict(alloc: Global, pair: u64) -> Result<bool> {
    let writer = random_text(alloc, pair, 1)?;
    let reader = random_text(alloc, pair, 2)?;
    let writer = Schema::read(alloc, writer.as_str())?;
    let reader = Schema::read(alloc, reader.as_str())?;
    let yes = resolves(alloc, &writer, &reader)?.yes;
    if resolves_plain(alloc, &writer, &reader)? != yes {
        bail!("the two ways answer pair {pair} differently");
    }
    Ok(yes)
}

/// Resolves all random pairs in both ways, and prints how many resolve.
fn resolve_random(rt: &HostRuntime) -> Result<()> {
    let mut yes = 0u64;
    for pair in 0..RANDOM_PAIRS {
        if agreed_verdict(rt.alloc(), pair)? {
            yes = yes.saturating_add(1);
        }
    }
    println!(rt; "{RANDOM_PAIRS} random pairs: both ways agree on each, and {yes} resolve")?;
    Ok(())
}

/// Measures a shape with a count.
fn measure(rt: &HostRuntime, measured: Measurement, shape: &Shape, count: u32) -> Result<()> {
    match measured {
        Measurement::Reading => read(rt, shape, count),
        Measurement::Resolution => resolve(rt, shape, count, false),
        Measurement::AfterCycle => resolve(rt, shape, count, true),
    }
}

/// Measures a shape with this count. If it is `None`, measures the shape with each of its counts;
/// after a cycle only with `after_cycle`, or not at all if that is 0.
fn measure_shape(
    rt: &HostRuntime,
    measured: Measurement,
    shape: &Shape,
    count: Option<u32>,
) -> Result<()> {
    if let Some(count) = count {
        return measure(rt, measured, shape, count);
    }
    if let Measurement::AfterCycle = measured {
        if shape.after_cycle > 0 {
            measure(rt, measured, shape, shape.after_cycle)?;
        }
        return Ok(());
    }
    for count in shape.counts {
        measure(rt, measured, shape, *count)?;
    }
    Ok(())
}

/// Measures the shape of this name, or every shape for `all`. It is an error if there is none.
fn measure_all(
    rt: &HostRuntime,
    measured: Measurement,
    name: &str,
    count: Option<u32>,
) -> Result<()> {
    let (shapes, more) = match measured {
        Measurement::Reading => (reading(), NONE),
        Measurement::Resolution | Measurement::AfterCycle => (resolution(), hostile()),
    };
    let mut found = false;
    for shape in shapes.iter().chain(more) {
        if name == "all" || name == shape.name {
            found = true;
            measure_shape(rt, measured, shape, count)?;
        }
    }
    ensure!(found, "no shape is named {name}");
    Ok(())
}

/// The count in an argument, or `None` if there is no argument.
fn count_of(word: Option<&String>) -> Result<Option<u32>> {
    match word {
        Some(word) => Ok(Some(word.parse()?)),
        None => Ok(None),
    }
}

/// Runs the measurement that the arguments describe. Without arguments it does nothing.
fn run_command(rt: &HostRuntime, arguments: &[String]) -> Result<()> {
    let Some(word) = arguments.first() else {
        return Ok(());
    };
    let word = word.as_str();
    if word == "random" {
        return resolve_random(rt);
    }
    if word == "files" {
        return compare_files(rt, arguments);
    }
    let measured = match word {
        "read" => Measurement::Reading,
        "resolve" => Measurement::Resolution,
        "behind" => Measurement::AfterCycle,
        _ => bail!("no measurement is named {word}"),
    };
    let name = arguments.get(1).context("the name of a shape is wanted")?;
    measure_all(rt, measured, name.as_str(), count_of(arguments.get(2))?)
}

fn main(rt: HostRuntime) -> Result<()> {
    let arguments: Vec<String> = env::args(&rt)?.skip(1).collect(rt.alloc())?;
    run_command(&rt, arguments.as_slice())
}
