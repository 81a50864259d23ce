//! Many connections, served by one thread.

ghost use Rattle.std.specs.Prelude.{◌≡◌, ◌≤◌, ◌<◌, ◌+◌, ◌-◌, ◌^◌, true, false, OnErr};
ghost use Rattle.slab.specs.Slab.{slab_len};
ghost use Rattle.reg_service.specs.Processing.{ProcessesEach};
ghost use Rattle.reg_jobs.specs.Connections.{Advances, IsNothing, ReportsAccept};
ghost use Rattle.reg_jobs.specs.Networks.{ChangesNothing};
ghost use Rattle.reg_jobs.specs.Listening.{ServesConnections, ReportsAcceptFailures};

mod connection;
mod network;
mod place;
mod schedule;
mod sockets;
mod table;
mod ticks;

use crate::errors::ErrorWriter;
pub use network::{Network, Output, Readiness};
use place::Phase;
use reg_core::OutOfMemory;
use reg_http::Workspace;
use reg_service::Service;
use schedule::{Action, Schedule};
pub use sockets::Sockets;
use sqlite::Alter;
use std::alloc::Global;
use std::io::{Read, Write};
use std::net::{Net, TcpListener};
use std::time::Clock;
use table::{Accepted, Table};
pub use ticks::NoClock;
use ticks::Ticks;

/// The number of events for which memory is reserved at the start.
const EVENTS: usize = 256;

/// Accepts a connection if one waits, and gives it a place.
fn accept<I: Read + Drop, O: Output + Drop, N: Network<I, O>, E: Write + Drop>(
    network: &mut N,
    table: &mut Table<I, O>,
    schedule: &mut Schedule,
    errors: &mut ErrorWriter<E>,
)
    requires { table.old.accepted < 2 ^ 32 - 1 }
    ensures advances { Advances I.remaining O.contents N.accepted N.closed IsNothing table.old network.old table.new network.new }
    ensures count { table.new.accepted ≤ table.old.accepted + 1 }
    ensures failed { table.new.has_failed ≡ true → table.new.accepted ≡ table.old.accepted }
    ensures reports { ReportsAccept E.contents table.old table.new errors.old errors.new }
{
    match table.accept(network, errors) {
        Accepted::Added(key) => {
            if !schedule.add(key) {
                table.close(network, key);
            }
        }
        Accepted::Again => {}
        Accepted::Nothing => schedule.accept_nothing(),
        Accepted::Later => schedule.accept_later(),
    }
}

/// The turn of a connection. Afterwards it has another place, or none if it is over.
fn take_turn<I: Read + Drop, O: Output + Drop, N: Network<I, O>, S: Alter>(
    network: &mut N,
    table: &mut Table<I, O>,
    schedule: &mut Schedule,
    key: usize,
    workspace: &mut Workspace,
    service: &mut Service<S>,
)
    ensures advances { Advances I.remaining O.contents N.accepted N.closed (ProcessesEach service.old service.new)
        table.old network.old table.new network.new }
    ensures count { table.new.accepted ≡ table.old.accepted }
    ensures failed { table.new.has_failed ≡ table.old.has_failed }
{
    let Some(mut place) = schedule.place(key) else {
        return;
    };
    table.take_turn(network, key, &mut place, workspace, schedule.now(), service);
    if let Phase::Over = place.phase {
        schedule.remove(key);
    } else {
        schedule.settle(key, place);
    }
}

/// What the server needs besides its connections.
#[derive(Drop)]
struct Desk<'a, C: Clock> {
    schedule: Schedule,
    ticks: Ticks<'a, C>,
    ready: Vec<Readiness>,
    workspace: Workspace,
}

/// Waits for events, and begins a round.
fn wait<I: Read + Drop, O: Output + Drop, N: Network<I, O>, C: Clock>(
    network: &mut N,
    desk: &mut Desk<'_, C>,
    millis: Option<u64>,
)
    ensures { ChangesNothing N.accepted N.closed network.old network.new }
{
    let may_accept = network.wait(millis, &mut desk.ready);
    if desk.ready.is_empty() && !may_accept {
        desk.ticks.count_quiet();
    }
    desk.schedule
        .begin_round(desk.ticks.now(), desk.ready.as_slice(), may_accept);
}

/// Does one action after another until none is left, and closes the connections that are open.
fn serve_all<
    I: Read + Drop,
    O: Output + Drop,
    N: Network<I, O>,
    C: Clock,
    S: Alter,
    E: Write + Drop,
>(
    network: &mut N,
    table: &mut Table<I, O>,
    desk: &mut Desk<'_, C>,
    connections: u32,
    service: &mut Service<S>,
    errors: &mut ErrorWriter<E>,
)
    requires count { table.old.accepted ≤ connections }
    requires failed { table.old.has_failed ≡ false }
    ensures advances { Advances I.remaining O.contents N.accepted N.closed (ProcessesEach service.old service.new)
        table.old network.old table.new network.new }
    ensures empty { slab_len table.new.connections ≡ 0 }
    ensures count { table.new.accepted ≤ connections }
    ensures failed { table.new.has_failed ≡ true → table.new.accepted < connections }
    ensures reports { ReportsAccept E.contents table.old table.new errors.old errors.new }
{
    for _ in 0..u64::MAX {
        let accepts = table.accepted() < connections;
        match desk.schedule.next_action(accepts) {
            Action::Accept if accepts => accept(network, table, &mut desk.schedule, errors),
            Action::Turn(key) => take_turn(
                network,
                table,
                &mut desk.schedule,
                key,
                &mut desk.workspace,
                service,
            ),
            Action::Close(key) => {
                table.close(network, key);
                desk.schedule.remove(key);
            }
            Action::Wait(millis) => wait(network, desk, millis),
            _ => break,
        }
    }
    table.close_all(network);
}

/// Serves this number of connections of a network, all at once, and returns when all have ended. A
/// connection gets one response in a turn, or 64 KB of it, and its next turn after the others that
/// wait for one. If no connection can be accepted, it reports that on `errors`, once until the next
/// success, and tries again every quarter of a second.
///
/// It closes a connection without a request after 75 seconds. A request has thirty seconds to
/// arrive, its response thirty to be taken, and in ten seconds at least a byte has to move. If all
/// 4,096 places are taken, or no descriptor is left, it closes the one that has been idle longest.
///
/// # Errors
///
/// `OutOfMemory` if memory for reading is missing at the start. No connection was accepted then.
pub fn serve_network<
    I: Read + Drop,
    O: Output + Drop,
    N: Network<I, O>,
    C: Clock,
    S: Alter,
    E: Write + Drop,
>(
    alloc: Global,
    clock: &C,
    network: &mut N,
    connections: u32,
    service: &mut Service<S>,
    errors: &mut ErrorWriter<E>,
) -> Result<(), OutOfMemory>
    ensures sessions { ServesConnections I.remaining O.contents connections (N.accepted network.old) (N.accepted network.new)
        (N.closed network.old) (N.closed network.new) service.old service.new }
    ensures reports { ReportsAcceptFailures E.contents connections errors.old errors.new }
    ensures err { OnErr result ((network.new ≡ network.old) × (service.new ≡ service.old)) }
{
    let mut desk = Desk {
        schedule: Schedule::new(alloc),
        ticks: Ticks::of(clock),
        ready: Vec::with_capacity(alloc, EVENTS)?,
        workspace: Workspace::new(alloc)?,
    };
    let mut table = Table::new(alloc);
    serve_all(network, &mut table, &mut desk, connections, service, errors);
    Ok(())
}

/// Serves this number of connections of a listener, without a clock: it closes a connection only
/// after as many waits without any event as a clock would take.
pub fn serve_on<H: Net, S: Alter, E: Write + Drop>(
    alloc: Global,
    net: &H,
    listener: &TcpListener,
    connections: u32,
    service: &mut Service<S>,
    errors: &mut ErrorWriter<E>,
)
    ensures reports { ReportsAcceptFailures E.contents connections errors.old errors.new }
{
    let Ok(listener) = listener.try_clone() else {
        return;
    };
    if let Ok(mut network) = Sockets::of(alloc, net, listener) {
        let _ = serve_network(alloc, &NoClock, &mut network, connections, service, errors);
    }
}
