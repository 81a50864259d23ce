//! Serves connections, without the contracts of the server.

use reg_jobs::{ErrorWriter, Sockets, serve_network, serve_on};
use reg_service::Service;
use sqlite::Alter;
use std::alloc::Global;
use std::io::sink;
use std::net::{Net, TcpListener};
use std::test::Fail;
use std::time::Clock;

/// Serves this number of connections without a clock.
pub(super) fn accept<H: Net, S: Alter>(
    alloc: Global,
    net: &H,
    listener: &TcpListener,
    count: u32,
    service: &mut Service<S>,
) {
    serve_on(
        alloc,
        net,
        listener,
        count,
        service,
        &mut ErrorWriter::to(sink()),
    );
}

/// Serves this number of connections with a clock.
///
/// # Errors
///
/// A failed test if the system reports no events, or memory is missing at the start.
pub(super) fn accept_by<H: Net, C: Clock, S: Alter>(
    alloc: Global,
    net: &H,
    clock: &C,
    listener: &TcpListener,
    count: u32,
    service: &mut Service<S>,
) -> Result<(), Fail> {
    let mut network = Sockets::of(alloc, net, listener.try_clone()?)?;
    serve_network(
        alloc,
        clock,
        &mut network,
        count,
        service,
        &mut ErrorWriter::to(sink()),
    )?;
    Ok(())
}
