//! The schemas of both layouts: their tables and indexes, and the trees of these.

use crate::declared::forms::{
    AGAINST, EVIDENCE, KEPT, LEVELS, META, MODES, TEXTS, TableForm, VERSIONS,
};

/// A table and the number of its tree. Its automatic index has the next tree.
pub struct TableInTree {
    pub form: &'static TableForm,
    pub tree: u32,
}

/// The declaration of an index.
pub enum IndexForm {
    /// The automatic index of a table: SQLite makes it for the PRIMARY KEY or for UNIQUE.
    OfKey(TableInTree),
    /// The index on the ids of versions, in this tree.
    OfIds(u32),
}

/// The declaration of a schema without views.
pub struct SchemaForm {
    pub tables: &'static [TableInTree],
    pub indexes: &'static [IndexForm],
}

const TEXTS_AT: TableInTree = TableInTree {
    form: &TEXTS,
    tree: 0,
};

const VERSIONS_AT: TableInTree = TableInTree {
    form: &VERSIONS,
    tree: 2,
};

const LEVELS_AT: TableInTree = TableInTree {
    form: &LEVELS,
    tree: 4,
};

const KEPT_AT: TableInTree = TableInTree {
    form: &KEPT,
    tree: 6,
};

const META_AT: TableInTree = TableInTree {
    form: &META,
    tree: 8,
};

const MODES_AT_10: TableInTree = TableInTree {
    form: &MODES,
    tree: 10,
};

const EVIDENCE_AT_12: TableInTree = TableInTree {
    form: &EVIDENCE,
    tree: 12,
};

const AGAINST_AT_14: TableInTree = TableInTree {
    form: &AGAINST,
    tree: 14,
};

const MODES_AT_11: TableInTree = TableInTree {
    form: &MODES,
    tree: 11,
};

const EVIDENCE_AT_13: TableInTree = TableInTree {
    form: &EVIDENCE,
    tree: 13,
};

const AGAINST_AT_15: TableInTree = TableInTree {
    form: &AGAINST,
    tree: 15,
};

pub const LAYOUT_ONE: SchemaForm = SchemaForm {
    tables: &[TEXTS_AT, VERSIONS_AT, LEVELS_AT, KEPT_AT, META_AT],
    indexes: &[
        IndexForm::OfKey(TEXTS_AT),
        IndexForm::OfKey(VERSIONS_AT),
        IndexForm::OfKey(LEVELS_AT),
        IndexForm::OfKey(KEPT_AT),
        IndexForm::OfKey(META_AT),
        IndexForm::OfIds(10),
    ],
};

pub const LAYOUT_ONE_UNINDEXED: SchemaForm = SchemaForm {
    tables: &[TEXTS_AT, VERSIONS_AT, LEVELS_AT, KEPT_AT, META_AT],
    indexes: &[
        IndexForm::OfKey(TEXTS_AT),
        IndexForm::OfKey(VERSIONS_AT),
        IndexForm::OfKey(LEVELS_AT),
        IndexForm::OfKey(KEPT_AT),
        IndexForm::OfKey(META_AT),
    ],
};

/// Layout 2, its new tables made after the index.
pub const LAYOUT_TWO: SchemaForm = SchemaForm {
    tables: &[
        TEXTS_AT,
        VERSIONS_AT,
        LEVELS_AT,
        KEPT_AT,
        META_AT,
        MODES_AT_11,
        EVIDENCE_AT_13,
        AGAINST_AT_15,
    ],
    indexes: &[
        IndexForm::OfKey(TEXTS_AT),
        IndexForm::OfKey(VERSIONS_AT),
        IndexForm::OfKey(LEVELS_AT),
        IndexForm::OfKey(KEPT_AT),
        IndexForm::OfKey(META_AT),
        IndexForm::OfIds(10),
        IndexForm::OfKey(MODES_AT_11),
        IndexForm::OfKey(EVIDENCE_AT_13),
        IndexForm::OfKey(AGAINST_AT_15),
    ],
};

/// Layout 2, its index made last.
pub const LAYOUT_TWO_INDEXED_LAST: SchemaForm = SchemaForm {
    tables: &[
        TEXTS_AT,
        VERSIONS_AT,
        LEVELS_AT,
        KEPT_AT,
        META_AT,
        MODES_AT_10,
        EVIDENCE_AT_12,
        AGAINST_AT_14,
    ],
    indexes: &[
        IndexForm::OfKey(TEXTS_AT),
        IndexForm::OfKey(VERSIONS_AT),
        IndexForm::OfKey(LEVELS_AT),
        IndexForm::OfKey(KEPT_AT),
        IndexForm::OfKey(META_AT),
        IndexForm::OfKey(MODES_AT_10),
        IndexForm::OfKey(EVIDENCE_AT_12),
        IndexForm::OfKey(AGAINST_AT_14),
        IndexForm::OfIds(16),
    ],
};

pub const LAYOUT_TWO_UNINDEXED: SchemaForm = SchemaForm {
    tables: &[
        TEXTS_AT,
        VERSIONS_AT,
        LEVELS_AT,
        KEPT_AT,
        META_AT,
        MODES_AT_10,
        EVIDENCE_AT_12,
        AGAINST_AT_14,
    ],
    indexes: &[
        IndexForm::OfKey(TEXTS_AT),
        IndexForm::OfKey(VERSIONS_AT),
        IndexForm::OfKey(LEVELS_AT),
        IndexForm::OfKey(KEPT_AT),
        IndexForm::OfKey(META_AT),
        IndexForm::OfKey(MODES_AT_10),
        IndexForm::OfKey(EVIDENCE_AT_12),
        IndexForm::OfKey(AGAINST_AT_14),
    ],
};
