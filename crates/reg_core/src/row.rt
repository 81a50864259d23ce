//! Versions of subjects.

ghost use Rattle.std.specs.Prelude.{◌≡◌, IfOk};

use crate::subject::Subject;
use avro_nodes::OutOfMemory;
use std::marker::Model;

/// A version of a subject: its number, the id of its schema, and whether it is soft-deleted.
/// Contracts see a pair: the key (subject and number), and the rest.
#[derive(Debug, Drop)]
pub struct Row {
    subject: Subject,
    version: u32,
    id: u32,
    deleted: bool,
}

impl Model for Row {
    ghost use Rattle.reg_core.specs.Registry.{Row};

    ghost Value = { Row };

    ghost view = { λ row. ((row.subject, row.version), record { id = row.id; deleted = row.deleted }) };
}

impl Row {
    /// The version of the subject with this number and id.
    pub fn new(subject: Subject, version: u32, id: u32, deleted: bool) -> Row
        ensures { result ≡ ((subject, version), record { id = id; deleted = deleted }) }
    {
        Row {
            subject,
            version,
            id,
            deleted,
        }
    }

    /// The subject.
    pub fn subject(&self) -> &Subject
        ensures { result.now ≡ self.now.0.0 }
    {
        &self.subject
    }

    /// The version's number.
    pub fn version(&self) -> u32
        ensures { result ≡ self.now.0.1 }
    {
        self.version
    }

    /// The id of the version's schema.
    pub fn id(&self) -> u32
        ensures { result ≡ self.now.1.id }
    {
        self.id
    }

    /// Whether the version is soft-deleted.
    pub fn deleted(&self) -> bool
        ensures { result ≡ self.now.1.deleted }
    {
        self.deleted
    }
}
