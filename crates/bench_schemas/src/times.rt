//! Times of reading and resolving.

use anyhow::Result;
use avro_resolve::{Verdict, resolves, resolves_plain};
use avro_schema::Schema;
use serde_json::Value;
use std::alloc::Global;
use std::rt::Clock;
use std::time::Instant;

/// The maximum number of runs of a call.
const MAX_RUNS: u32 = 2000;

/// The total time after which a call isn't run again, in nanoseconds.
const MAX_NANOS: u64 = 200_000_000;

/// A call is short if it takes less than this, in nanoseconds. A run makes several short calls, so that the time of
/// reading the clock hardly counts.
const SHORT_NANOS: u64 = 10_000;

/// The number of short calls in a run.
const CALLS_PER_RUN: u64 = 16;

/// A call to measure. Its time includes dropping its result.
#[derive(Clone, Copy)]
pub enum Call<'a> {
    /// `Schema::read`
    Schema(&'a str),
    /// `Value::from_str` of `serde_json`
    Json(&'a str),
    /// `resolves`
    Recursion(&'a Schema, &'a Schema),
    /// `resolves_plain`, which counts no visits
    Elimination(&'a Schema, &'a Schema),
}

/// The result of a call, and its times.
#[derive(Clone, Copy)]
pub struct Timing {
    pub verdict: Verdict,
    /// the time of a call in the shortest run, in nanoseconds; in a run of several calls, their mean
    pub nanos: u64,
    /// the time of all calls, in nanoseconds
    spent: u64,
}

/// The state before the first run.
const NOT_RUN: Timing = Timing {
    verdict: Verdict {
        yes: false,
        visits: 0,
    },
    nanos: u64::MAX,
    spent: 0,
};

/// Makes the call once. For a text, the verdict is whether it is accepted, without visits.
fn run_once(alloc: Global, call: Call) -> Result<Verdict> {
    let yes = match call {
        Call::Schema(text) => Schema::read(alloc, text).is_ok(),
        Call::Json(text) => Value::from_str(alloc, text).is_ok(),
        Call::Recursion(writer, reader) => return Ok(resolves(alloc, writer, reader)?),
        Call::Elimination(writer, reader) => resolves_plain(alloc, writer, reader)?,
    };
    Ok(Verdict { yes, visits: 0 })
}

/// Makes another run, unless the call has run for long enough.
fn run(rt: &(impl Clock + AllocGlobal), call: Call, timing: &mut Timing) -> Result<()> {
    if timing.spent > MAX_NANOS {
        return Ok(());
    }
    let calls = if timing.nanos < SHORT_NANOS {
        CALLS_PER_RUN
    } else {
        1
    };
    let start = Instant::now(rt)?;
    for _call in 0..calls {
        timing.verdict = run_once(rt.alloc(), call)?;
    }
    let took = u64::try_from(start.elapsed(rt)?.as_nanos()).unwrap_or(u64::MAX);
    timing.spent = timing.spent.saturating_add(took);
    timing.nanos = timing.nanos.min(took / calls);
    Ok(())
}

/// Runs two calls in turn, so that other load on the machine affects both.
pub fn times(rt: &(impl Clock + AllocGlobal), one: Call, other: Call) -> Result<(Timing, Timing)> {
    let mut first = NOT_RUN;
    let mut second = NOT_RUN;
    for _run in 0..MAX_RUNS {
        run(rt, one, &mut first)?;
        run(rt, other, &mut second)?;
    }
    Ok((first, second))
}
