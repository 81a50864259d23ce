//! The registry of a database, and a session over it.

ghost use Rattle.std.specs.Prelude.{◌≡◌, IfOk, IfErr, false};
ghost use Rattle.sqlite.specs.Held.{state};
ghost use Rattle.sqlite.specs.State.{HasCleanDisk};
ghost use Rattle.reg_store.specs.Stores.{has_failed, state_of};
ghost use Rattle.reg_store.specs.Opening.{OpensOver};
ghost use Rattle.reg_service.specs.Processing.{ServesEach};
ghost use Rattle.reg_http.specs.Sessions.{Session};
ghost use Rattle.reg_jobs.specs.Databases.{ReturnsConnection, IsCreatedIn, CreatesNone, OpensNone, RunsOnStore};
ghost use Rattle.reg_jobs.specs.Listening.{ServesConnections, ReportsAcceptFailures};

use crate::errors::ErrorWriter;
use crate::listening::{Network, Output, serve_network};
use reg_core::OutOfMemory;
use reg_http::{Ended, serve};
use reg_service::Service;
use reg_store::{Store, StoreError};
use sqlite::{Alter, Connection};
use std::alloc::Global;
use std::io::{Read, Write};
use std::time::Clock;

/// Runs a session over a store, and returns its connection.
pub fn run_on_store<R: Read, W: Write, S: Alter>(
    alloc: Global,
    store: Store<S>,
    reader: &mut R,
    writer: &mut W,
) -> (Ended, Connection<S>)
    ensures clean { HasCleanDisk (state S.Store result.1) → HasCleanDisk (state_of store) }
    ensures session { RunsOnStore store result.1 (λ before after. Session (ServesEach before after)
        (R.remaining reader.old) (R.remaining reader.new) (W.contents writer.old) (W.contents writer.new) result.0) }
{
    let mut service = Service::new(alloc, store);
    let ended = serve(alloc, reader, writer, &mut service);
    (ended, service.into_store().into_connection())
}

/// Serves this number of connections of a network over a store, and returns the store's connection.
/// The result is `Closed`, or `Memory` if memory for reading was missing at the start.
pub fn serve_on_store<
    I: Read + Drop,
    O: Output + Drop,
    N: Network<I, O>,
    C: Clock,
    S: Alter,
    E: Write + Drop,
>(
    alloc: Global,
    clock: &C,
    network: &mut N,
    connections: u32,
    store: Store<S>,
    errors: &mut ErrorWriter<E>,
) -> (Ended, Connection<S>)
    ensures clean { HasCleanDisk (state S.Store result.1) → HasCleanDisk (state_of store) }
    ensures sessions { RunsOnStore store result.1 (ServesConnections I.remaining O.contents connections
        (N.accepted network.old) (N.accepted network.new) (N.closed network.old) (N.closed network.new)) }
    ensures reports { ReportsAcceptFailures E.contents connections errors.old errors.new }
{
    let mut service = Service::new(alloc, store);
    let ended = match serve_network(alloc, clock, network, connections, &mut service, errors) {
        Ok(()) => Ended::Closed,
        Err(OutOfMemory) => Ended::Memory,
    };
    (ended, service.into_store().into_connection())
}

/// Creates a registry in an empty database.
///
/// # Errors
///
/// Those of `Store::create`, and `Disk` for a connection inside a transaction. The connection is
/// returned.
pub fn create_in<S: Alter>(
    alloc: Global,
    connection: Connection<S>,
) -> Result<Store<S>, (StoreError, Option<Connection<S>>)>
    ensures done { IfOk result (λ store. HasCleanDisk (state_of store) → IsCreatedIn (state S.Store connection) (state_of store)) }
    ensures unfailed { IfOk result (λ store. has_failed store ≡ false) }
    ensures fault { IfErr result (λ e. ReturnsConnection S.Store e.1 (λ new. CreatesNone (state S.Store connection) new e.0)) }
{
    if !connection.is_autocommit() {
        return Err((StoreError::Disk, Some(connection)));
    }
    match Store::create(alloc, connection) {
        Ok(store) => Ok(store),
        Err((error, connection)) => Err((error, Some(connection))),
    }
}

/// Opens the registry of a database.
///
/// # Errors
///
/// Those of `Store::open`, and `Disk` for a connection inside a transaction. The connection is
/// returned.
pub fn open_in<S: Alter>(
    alloc: Global,
    connection: Connection<S>,
) -> Result<Store<S>, (StoreError, Option<Connection<S>>)>
    ensures done { IfOk result (λ store. HasCleanDisk (state_of store) → OpensOver (state S.Store connection) (state_of store)) }
    ensures unfailed { IfOk result (λ store. has_failed store ≡ false) }
    ensures fault { IfErr result (λ e. ReturnsConnection S.Store e.1 (λ new. OpensNone (state S.Store connection) new e.0)) }
{
    if !connection.is_autocommit() {
        return Err((StoreError::Disk, Some(connection)));
    }
    match Store::open(alloc, connection) {
        Ok(store) => Ok(store),
        Err((error, connection)) => Err((error, Some(connection))),
    }
}
