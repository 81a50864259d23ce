//! What is opened for a job.

ghost use Rattle.std.specs.Prelude.{◌≡◌, IfOk, option_map};
ghost use Rattle.reg_jobs.specs.Opening.{OpensFor, OpensExisting, OpensOrCreates};

use avro_nodes::OutOfMemory;
use reg_cli::Job;
use reg_store::StoreError;
use sqlite::{Alter, Connection};
use std::alloc::Global;

/// What was opened for a job.
#[derive(Drop)]
pub enum Opened<S: Alter> {
    /// Nothing: the registry is in memory.
    Nothing,
    /// The bytes of the files that the job names, in order; `None` for a file that couldn't be
    /// read.
    Texts(Vec<Option<Vec<u8>>>),
    /// No database was opened. `NotARegistry`: only its log is left, or for a job that creates no
    /// registry, the file has no contents yet. `Disk`: it can't be opened.
    Failed(StoreError),
    /// An empty database, in which the job creates its registry.
    Fresh(Connection<S>),
    /// Any other database. Whether it has a registry is checked later.
    Database(Connection<S>),
}

impl<S: Alter> Opened<S> {
    ghost use Rattle.reg_jobs.specs.Opening.{text_at, connection_in};

    /// The text of the file at a position, or `None` if it couldn't be read.
    pub(crate) fn text(&self, position: usize) -> Option<&[u8]>
        ensures { option_map (λ bytes. bytes.now) result ≡ text_at self.entry.now position }
    {
        match self {
            Opened::Texts(texts) => match texts.get(position) {
                Some(Some(text)) => Some(text.as_slice()),
                _ => None,
            },
            _ => None,
        }
    }

    /// The opened connection, or `None`.
    pub(crate) fn into_connection(self) -> Option<Connection<S>>
        ensures { result ≡ connection_in self }
    {
        match self {
            Opened::Fresh(connection) => Some(connection),
            Opened::Database(connection) => Some(connection),
            _ => None,
        }
    }
}

/// Opens the files that a job names.
pub trait Opener<S: Alter> {
    ghost use Rattle.std.specs.Prelude.{ℕ, List, Option, Some, None, IfOk};
    ghost use Rattle.reg_jobs.specs.Opening.{IsReadAs, OpensExisting, OpensOrCreates, file_bytes};

    // What is known of the file with a name: nothing (`None`); or its bytes, or that it can't be
    // read (`Some None`).
    ghost known: { Self → List ℕ → Option (Option (List ℕ)) } = { λ _ _. None };

    /// Opens the database in a file, and creates it if it is missing or empty, unless its log is
    /// left.
    ///
    /// # Errors
    ///
    /// `OutOfMemory` if an allocation fails. Every other failure is `Opened::Failed`.
    fn open_or_create(&self, file: &str) -> Result<Opened<S>, OutOfMemory>
        ensures { IfOk result OpensOrCreates };

    /// Opens the database in a file for a job that creates no registry. It creates no file.
    ///
    /// # Errors
    ///
    /// `OutOfMemory` if an allocation fails. Every other failure is `Opened::Failed`.
    fn open_existing(&self, file: &str) -> Result<Opened<S>, OutOfMemory>
        ensures { IfOk result OpensExisting };

    /// The bytes of a file, or `None` if it can't be read.
    ///
    /// # Errors
    ///
    /// `OutOfMemory` if an allocation fails.
    fn read(&self, file: &str) -> Result<Option<Vec<u8>>, OutOfMemory>
        ensures { IfOk result (λ bytes. IsReadAs (known self.now file.now) (file_bytes (Some bytes))) };
}

/// Opens what a job names: nothing, one database, or the files of its schemas, in order: for `check`
/// the reader's first.
///
/// # Errors
///
/// `OutOfMemory` if an allocation fails.
pub fn open_for<S: Alter, O: Opener<S>>(
    alloc: Global,
    opener: &O,
    job: &Job,
) -> Result<Opened<S>, OutOfMemory>
    ensures { IfOk result (OpensFor (O.known opener.now) job.now) }
{
    match job {
        Job::Run { database: None } => Ok(Opened::Nothing),
        Job::Run {
            database: Some(file),
        } => opener.open_or_create(file.as_str()),
        Job::List { database, .. } | Job::Migrate { database } | Job::Audit { database } => {
            opener.open_existing(database.as_str())
        }
        Job::Text { file } => {
            let text = opener.read(file.as_str())?;
            Ok(Opened::Texts(vec![in alloc; text]?))
        }
        Job::Check { reader, writer } => {
            let first = opener.read(reader.as_str())?;
            let second = opener.read(writer.as_str())?;
            Ok(Opened::Texts(vec![in alloc; first, second]?))
        }
    }
}
