//! Services over new and existing registries, registries of layout 1, and why a database can't be
//! opened.

use super::databases::kept;
use super::disks::{DatabaseTask, empty_disk, on_disk};
use super::failed::check_stays_failed;
use reg_service::Service;
use reg_store::{Store, StoreError, create_first};
use sqlite::{Alter, Connection, Files, MemStore};
use sqlite_disk::{Fuse, Memory};
use std::alloc::Global;
use std::test::Fail;

/// A service over a new registry in an empty database, or the connection if the disk fails.
///
/// # Errors
///
/// A failed test if a transaction is open, or no registry can be created for another reason.
pub fn created<S: Alter + Drop>(
    alloc: Global,
    connection: Connection<S>,
) -> Result<Result<Service<S>, Connection<S>>, Fail> {
    if !connection.is_autocommit() {
        return Err("a transaction is open".into());
    }
    match Store::create(alloc, connection) {
        Ok(store) => Ok(Ok(Service::new(alloc, store))),
        Err((StoreError::Disk, connection)) => Ok(Err(connection)),
        Err((error, _)) => Err(error.into()),
    }
}

/// A service over the registry of a database.
///
/// # Errors
///
/// A failed test if a transaction is open, or the registry can't be opened.
pub fn opened<S: Alter + Drop>(
    alloc: Global,
    connection: Connection<S>,
) -> Result<Service<S>, Fail> {
    if !connection.is_autocommit() {
        return Err("a transaction is open".into());
    }
    match Store::open(alloc, connection) {
        Ok(store) => Ok(Service::new(alloc, store)),
        Err((error, _)) => Err(error.into()),
    }
}

/// Why a database can't be opened, or `None` if it can.
///
/// # Errors
///
/// A failed test if a transaction is open.
pub fn open_error<S: Alter + Drop>(
    alloc: Global,
    connection: Connection<S>,
) -> Result<(Option<StoreError>, Connection<S>), Fail> {
    if !connection.is_autocommit() {
        return Err("a transaction is open".into());
    }
    match Store::open(alloc, connection) {
        Ok(store) => Ok((None, store.into_connection())),
        Err((error, connection)) => Ok((Some(error), connection)),
    }
}

/// The connection of a service. If the service has failed, each call on its store must return
/// `Disk`.
///
/// # Errors
///
/// A failed test if a call returns anything else, or an allocation fails.
pub fn connection_of<S: Alter + Drop>(
    alloc: Global,
    service: Service<S>,
) -> Result<Connection<S>, Fail> {
    let mut store = service.into_store();
    if store.failed() {
        check_stays_failed(alloc, &mut store)?;
    }
    Ok(store.into_connection())
}

/// Creates a registry of layout 1 in an empty database, and executes statements.
#[derive(Drop)]
struct CreateLayout1<'a> {
    statements: &'a str,
}

impl<'a> DatabaseTask for CreateLayout1<'a> {
    fn work<S: Alter + Drop>(
        &mut self,
        _: Global,
        connection: Connection<S>,
    ) -> Result<Connection<S>, Fail> {
        if !connection.is_autocommit() {
            return Err("a transaction is open".into());
        }
        let (made, mut connection) = create_first(connection);
        made?;
        connection.execute_batch(self.statements)?;
        Ok(connection)
    }
}

/// The files of a registry of layout 1, after these statements.
///
/// # Errors
///
/// A failed test if no registry can be created, a statement fails, or the files can't be closed.
pub fn layout1_registry(alloc: Global, statements: &str) -> Result<Files<Fuse<Memory>>, Fail> {
    let (files, closed) = on_disk(alloc, empty_disk(alloc), &mut CreateLayout1 { statements })?;
    if !closed {
        return Err("no registry was made".into());
    }
    Ok(files)
}

/// A service over a new registry in memory.
fn new_service(alloc: Global) -> Result<Service<MemStore>, Fail> {
    match Store::create(alloc, Connection::open_in_memory(alloc)?) {
        Ok(store) => Ok(Service::new(alloc, store)),
        Err((error, _)) => Err(error.into()),
    }
}

/// A task over a service on any storage.
pub trait ServiceTask {
    /// Runs the task.
    ///
    /// # Errors
    ///
    /// A failed test.
    fn work<S: Alter + Drop>(
        &mut self,
        alloc: Global,
        service: &mut Service<S>,
    ) -> Result<(), Fail>;
}

/// Runs the task over a new registry in memory.
///
/// # Errors
///
/// A failed test, as the task says, or if an allocation fails.
pub fn in_memory<T: ServiceTask>(alloc: Global, task: &mut T) -> Result<(), Fail> {
    task.work(alloc, &mut new_service(alloc)?)
}

/// Runs the task over a new registry in memory, and returns the kept replies.
///
/// # Errors
///
/// A failed test, as the task says, or if an allocation fails.
pub fn kept_in_memory<T: ServiceTask>(alloc: Global, task: &mut T) -> Result<String, Fail> {
    let mut service = new_service(alloc)?;
    task.work(alloc, &mut service)?;
    kept(alloc, &mut service.into_store().into_connection())
}
