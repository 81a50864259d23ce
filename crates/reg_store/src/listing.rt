//! The kinds of listings.

/// A kind of listing. It determines the fields of each line; numbers are decimal.
#[derive(Clone, Copy, Debug, PartialEq, Eq)]
pub enum Listing {
    /// The subjects that have versions, soft-deleted ones too, in the order of their bytes: the
    /// subject, its own level or an empty text, and the counts of its live and of its soft-deleted
    /// versions.
    Subjects,
    /// The versions of all subjects, soft-deleted ones too, in the order of subjects and numbers:
    /// the subject, the number, the id, and `true` or `false` for soft-deleted.
    Versions,
    /// The schemas in the order of their ids: the id and the identity text.
    Schemas,
}
