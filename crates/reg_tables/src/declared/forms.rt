//! The declarations of the tables of both layouts.

use sqlite_schema::schema::Kind;

/// The declaration of a column of a STRICT table: its name and type. `Required` means NOT NULL.
pub enum ColumnForm {
    Nullable(&'static [u8], Kind),
    Required(&'static [u8], Kind),
}

/// A foreign key.
pub enum ReferenceForm {
    /// This column, counted from 1, is the id of a text.
    ToText(usize),
    /// The first two columns are the key of a version. If the version is deleted, so is the row.
    ToVersion,
}

/// The declaration of a table with one automatic index: that of its PRIMARY KEY, or in `texts` that
/// of the UNIQUE column.
pub struct TableForm {
    pub name: &'static [u8],
    /// The name of the automatic index, which SQLite chooses.
    pub index: &'static [u8],
    /// The column that is an alias of the rowid, counted from 0, or `None`.
    pub key: Option<usize>,
    /// The columns of the primary key, counted from 1; 0 is the rowid.
    pub primary: &'static [usize],
    /// The columns of the automatic index, counted from 1.
    pub unique: &'static [usize],
    pub columns: &'static [ColumnForm],
    /// Whether the table checks that its fourth column is 0 or 1. It has no other check.
    pub has_flag: bool,
    pub references: &'static [ReferenceForm],
}

pub const TEXTS: TableForm = TableForm {
    name: b"texts",
    index: b"sqlite_autoindex_texts_1",
    key: Some(0),
    primary: &[0],
    unique: &[2],
    columns: &[
        ColumnForm::Nullable(b"id", Kind::Integer),
        ColumnForm::Required(b"text", Kind::Text),
    ],
    has_flag: false,
    references: &[],
};

pub const VERSIONS: TableForm = TableForm {
    name: b"versions",
    index: b"sqlite_autoindex_versions_1",
    key: None,
    primary: &[1, 2],
    unique: &[1, 2],
    columns: &[
        ColumnForm::Required(b"subject", Kind::Text),
        ColumnForm::Required(b"version", Kind::Integer),
        ColumnForm::Required(b"id", Kind::Integer),
        ColumnForm::Required(b"deleted", Kind::Integer),
    ],
    has_flag: true,
    references: &[ReferenceForm::ToText(3)],
};

pub const LEVELS: TableForm = TableForm {
    name: b"levels",
    index: b"sqlite_autoindex_levels_1",
    key: None,
    primary: &[1],
    unique: &[1],
    columns: &[
        ColumnForm::Required(b"subject", Kind::Text),
        ColumnForm::Required(b"level", Kind::Text),
    ],
    has_flag: false,
    references: &[],
};

pub const KEPT: TableForm = TableForm {
    name: b"kept",
    index: b"sqlite_autoindex_kept_1",
    key: None,
    primary: &[1],
    unique: &[1],
    columns: &[
        ColumnForm::Required(b"key", Kind::Text),
        ColumnForm::Required(b"command", Kind::Text),
        ColumnForm::Required(b"status", Kind::Integer),
        ColumnForm::Required(b"body", Kind::Text),
    ],
    has_flag: false,
    references: &[],
};

pub const META: TableForm = TableForm {
    name: b"meta",
    index: b"sqlite_autoindex_meta_1",
    key: None,
    primary: &[1],
    unique: &[1],
    columns: &[
        ColumnForm::Required(b"name", Kind::Text),
        ColumnForm::Required(b"value", Kind::Text),
    ],
    has_flag: false,
    references: &[],
};

pub const MODES: TableForm = TableForm {
    name: b"modes",
    index: b"sqlite_autoindex_modes_1",
    key: None,
    primary: &[1],
    unique: &[1],
    columns: &[
        ColumnForm::Required(b"subject", Kind::Text),
        ColumnForm::Required(b"mode", Kind::Text),
    ],
    has_flag: false,
    references: &[],
};

pub const EVIDENCE: TableForm = TableForm {
    name: b"evidence",
    index: b"sqlite_autoindex_evidence_1",
    key: None,
    primary: &[1, 2],
    unique: &[1, 2],
    columns: &[
        ColumnForm::Required(b"subject", Kind::Text),
        ColumnForm::Required(b"version", Kind::Integer),
        ColumnForm::Required(b"level", Kind::Text),
    ],
    has_flag: false,
    references: &[ReferenceForm::ToVersion],
};

pub const AGAINST: TableForm = TableForm {
    name: b"against",
    index: b"sqlite_autoindex_against_1",
    key: None,
    primary: &[1, 2, 3],
    unique: &[1, 2, 3],
    columns: &[
        ColumnForm::Required(b"subject", Kind::Text),
        ColumnForm::Required(b"version", Kind::Integer),
        ColumnForm::Required(b"position", Kind::Integer),
        ColumnForm::Required(b"id", Kind::Integer),
    ],
    has_flag: false,
    references: &[ReferenceForm::ToText(4), ReferenceForm::ToVersion],
};
