//! The open connections of a server.

ghost use Rattle.std.specs.Prelude.{◌≡◌, ◌≤◌, ◌<◌, ◌+◌, ◌-◌, ◌^◌, [], true, false, None};
ghost use Rattle.slab.specs.Slab.{Updates, slab_len};
ghost use Rattle.reg_service.specs.Processing.{ProcessesEach};

use super::connection::Connection;
use super::network::{Network, Output};
use super::place::{Phase, Place};
use crate::errors::ErrorWriter;
use crate::line::put_job_error;
use crate::outcome::Fault;
use reg_http::Workspace;
use reg_service::Service;
use slab::Slab;
use sqlite::Alter;
use std::alloc::Global;
use std::io::{ErrorKind, Read, Write};

/// The outcome of accepting.
#[derive(Clone, Copy)]
pub enum Accepted {
    /// A connection was added under this key.
    Added(usize),
    /// Nothing was added, but another connection may wait: memory was missing for the one that was
    /// accepted, or the accept was interrupted.
    Again,
    /// No connection waits.
    Nothing,
    /// The system can't accept one at the moment.
    Later,
}

/// The open connections by their keys, and the number of those that were accepted.
#[derive(Drop)]
pub struct Table<I, O> {
    alloc: Global,
    connections: Slab<Connection<I, O>>,
    accepted: u32,
    /// The last accept failed, which was reported.
    has_failed: bool,
}

impl<I: Read + Drop, O: Output + Drop> Table<I, O> {
    ghost use Rattle.reg_jobs.specs.Connections.{IsHistory, Advances, Enters, IsNothing, ReportsAccept};

    /// A table without a connection.
    pub fn new(alloc: Global) -> Table<I, O>
        ensures history { IsHistory I.remaining O.contents 0 result.connections result.accepted [] [] [] }
        ensures none { result.accepted ≡ 0 }
        ensures unfailed { result.has_failed ≡ false }
    {
        Table {
            alloc,
            connections: Slab::new(alloc),
            accepted: 0,
            has_failed: false,
        }
    }

    /// The number of connections that were accepted.
    pub fn accepted(&self) -> u32
        ensures { result ≡ self.now.accepted }
    {
        self.accepted
    }

    /// Adds a connection that was accepted. If memory for it is missing, it is closed.
    fn add<N: Network<I, O>>(&mut self, network: &mut N, input: I, output: O) -> Accepted
        requires { self.old.accepted < 2 ^ 32 - 1 }
        ensures adds { Enters I.remaining O.contents N.accepted N.closed self.old network.old (input, output) self.new network.new }
        ensures count { self.new.accepted ≡ self.old.accepted + 1 }
        ensures failed { self.new.has_failed ≡ self.old.has_failed }
    {
        let connection = Connection::of(self.alloc, input, output, self.accepted);
        self.accepted += 1;
        match self.connections.insert(connection) {
            Ok(key) => Accepted::Added(key),
            Err(failed) => {
                let (input, output) = failed.value.into_halves();
                network.close(input, output);
                Accepted::Again
            }
        }
    }

    /// Accepts a connection if one waits. If that fails, it reports that on `errors`, once until
    /// the next success.
    pub fn accept<N: Network<I, O>, E: Write + Drop>(
        &mut self,
        network: &mut N,
        errors: &mut ErrorWriter<E>,
    ) -> Accepted
        requires { self.old.accepted < 2 ^ 32 - 1 }
        ensures advances { Advances I.remaining O.contents N.accepted N.closed IsNothing self.old network.old self.new network.new }
        ensures count { self.new.accepted ≤ self.old.accepted + 1 }
        ensures failed { self.new.has_failed ≡ true → self.new.accepted ≡ self.old.accepted }
        ensures reports { ReportsAccept E.contents self.old self.new errors.old errors.new }
    {
        match network.accept(self.connections.vacant_key()) {
            Ok((input, output)) => {
                self.has_failed = false;
                self.add(network, input, output)
            }
            Err(error) if error.kind() == ErrorKind::WouldBlock => Accepted::Nothing,
            Err(error) if error.kind() == ErrorKind::Interrupted => Accepted::Again,
            Err(_) => {
                self.fail(errors);
                Accepted::Later
            }
        }
    }

    /// Records that an accept failed, and reports it if the last one hadn't failed.
    fn fail<E: Write + Drop>(&mut self, errors: &mut ErrorWriter<E>)
        ensures same { self.new.connections ≡ self.old.connections }
        ensures count { self.new.accepted ≡ self.old.accepted }
        ensures reports { ReportsAccept E.contents self.old self.new errors.old errors.new }
    {
        if !self.has_failed {
            put_job_error(errors, Fault::CannotAccept.on(""));
        }
        self.has_failed = true;
    }

    /// The turn of a connection. It is closed if it is over.
    pub fn take_turn<N: Network<I, O>, S: Alter>(
        &mut self,
        network: &mut N,
        key: usize,
        place: &mut Place,
        workspace: &mut Workspace,
        now: u64,
        service: &mut Service<S>,
    )
        ensures advances { Advances I.remaining O.contents N.accepted N.closed (ProcessesEach service.old service.new)
            self.old network.old self.new network.new }
        ensures count { self.new.accepted ≡ self.old.accepted }
        ensures failed { self.new.has_failed ≡ self.old.has_failed }
    {
        let Some(mut connection) = self.connections.try_remove(key) else {
            return;
        };
        connection.take_turn(self.alloc, workspace, place, now, service);
        connection.shrink(self.alloc, place);
        place.room = connection.room();
        if let Phase::Over = place.phase {
            let (input, output) = connection.into_halves();
            network.close(input, output);
            return;
        }
        let _key = self.connections.insert_reserved(connection);
    }

    /// Closes a connection.
    pub fn close<N: Network<I, O>>(&mut self, network: &mut N, key: usize)
        ensures advances { Advances I.remaining O.contents N.accepted N.closed IsNothing self.old network.old self.new network.new }
        ensures removes { Updates self.old.connections self.new.connections key None }
        ensures count { self.new.accepted ≡ self.old.accepted }
        ensures failed { self.new.has_failed ≡ self.old.has_failed }
    {
        if let Some(connection) = self.connections.try_remove(key) {
            let (input, output) = connection.into_halves();
            network.close(input, output);
        }
    }

    /// Closes all connections.
    pub fn close_all<N: Network<I, O>>(&mut self, network: &mut N)
        ensures advances { Advances I.remaining O.contents N.accepted N.closed IsNothing self.old network.old self.new network.new }
        ensures empty { slab_len self.new.connections ≡ 0 }
        ensures count { self.new.accepted ≡ self.old.accepted }
        ensures failed { self.new.has_failed ≡ self.old.has_failed }
    {
        for key in 0..self.connections.capacity() {
            self.close(network, key);
        }
    }
}
