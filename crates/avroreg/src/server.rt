//! Serves a registry on a port of 127.0.0.1.

use reg_jobs::{ErrorWriter, Opened, Outcome, Server, Sockets, open_store, report, serve_opened};
use sqlite::{Alter, Connection};
use std::alloc::Global;
use std::io::{self, Stderr};
use std::net::{Ipv4Addr, TcpListener};

/// The outcome if the program can't listen on the server's port: why the database has no registry,
/// otherwise `NotListening`. Returns the connection to the database, too.
fn open_in_vain<S: Alter + Drop>(
    alloc: Global,
    server: &Server,
    opened: Opened<S>,
) -> (Outcome, Option<Connection<S>>) {
    match open_store(alloc, opened) {
        Ok(store) => (
            Outcome::NotListening(server.port),
            Some(store.into_connection()),
        ),
        Err((error, connection)) => (Outcome::Unopened(error), connection),
    }
}

/// The network of the server's port.
fn listen(rt: &HostRuntime, server: &Server) -> io::Result<Sockets> {
    let listener = TcpListener::bind(rt, (Ipv4Addr::LOCALHOST, server.port))?;
    Sockets::of(rt.alloc(), rt, listener)
}

/// Serves a server's connections over the database that was opened for it. Returns the program's
/// status, and the connection to the database if one was opened. A disk fault may have closed it.
pub fn serve<S: Alter + Drop>(
    rt: &HostRuntime,
    server: &Server,
    opened: Opened<S>,
    errors: &mut ErrorWriter<Stderr>,
) -> (u8, Option<Connection<S>>) {
    let alloc = rt.alloc();
    let (outcome, connection) = match listen(rt, server) {
        Ok(mut network) => {
            serve_opened(alloc, rt, &mut network, server.connections, opened, errors)
        }
        Err(_) => open_in_vain(alloc, server, opened),
    };
    let status = report(errors, outcome, server.database.as_str());
    (status, connection)
}
