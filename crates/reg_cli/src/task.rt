//! The program's tasks.

/// The largest number of connections after which a server may stop, and the default.
pub const MAX_CONNECTIONS: u32 = 2_147_483_647;

/// The kind of a listing.
#[derive(Clone, Copy, Debug, PartialEq, Eq)]
pub enum ListingKind {
    /// The subjects with versions: each with its own level, if any, and how many of its versions
    /// are live and how many soft-deleted.
    Subjects,
    /// The versions of each subject, soft-deleted ones too.
    Versions,
    /// The identity text of each schema, by its id.
    Schemas,
}

/// A task that uses only files and the standard streams.
#[derive(Debug, Drop)]
pub enum Job {
    /// Answer the requests on standard input, on standard output. The registry is in a database
    /// file, or a new one in memory.
    Run { database: Option<String> },
    /// Print the identity text of the schema in a file.
    Text { file: String },
    /// Print whether the reader's schema can read data of the writer's schema. Each is in a file.
    Check { reader: String, writer: String },
    /// Print a listing of the registry in a database file.
    List { database: String, kind: ListingKind },
    /// Upgrade the registry in a database file from layout 1 to layout 2.
    Migrate { database: String },
    /// Print whether all pairs in the evidence of a registry are compatible. The registry is in a
    /// database file.
    Audit { database: String },
}

/// A server for a registry, on 127.0.0.1.
#[derive(Debug, Drop)]
pub struct Server {
    /// The name of the database file.
    pub database: String,
    /// The port, 1 to 65,535.
    pub port: u16,
    /// The number of connections after which it stops, 1 to `MAX_CONNECTIONS`.
    pub connections: u32,
}

/// A task of the program.
#[derive(Debug, Drop)]
pub enum Task {
    Job(Job),
    Server(Server),
}
