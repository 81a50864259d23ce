//! The tables of the registry over `sqlite`: functions that make, change and read them. The
//! contracts describe their contents as finite maps.
//!
//! A function that writes takes a transaction and never commits it. On `Ok` the contents have
//! changed as its clause says. On an error the caller must roll the transaction back.
//! A function that reads takes an `AutocommitConnection` and changes nothing. A function that
//! checks the schema takes a `Connection` and can't fail.
//! Clauses about contents and errors are true while the disk has returned what was written to it
//! (`HasCleanDisk`).
//!
//! # Errors
//!
//! Errors are those of `sqlite`. The functions refer to three kinds of them:
//!
//! - a *read error* is `OutOfMemory`, a disk fault (`SystemIoFailure`, `DatabaseCorrupt`, `DiskFull`,
//!   or `Closed` after an earlier fault), or `OperationInterrupted` at the step limit;
//! - a *write error* is a read error, or `TransactionState` if an earlier failure has ended the
//!   transaction;
//! - an *insert error* is a write error, `TooBig` for a row that is too large, or `NoRowid` or
//!   `ConstraintViolation(PrimaryKey)` if the row's rowid is out of range or taken.
//!
//! A function that writes may return any other error if the schema isn't the one that its comment
//! names, or if the rows show no contents (`HoldsContents`): for example, a number is negative.
//!
//! The tables *can't be read* in these cases:
//!
//! - the schema doesn't begin with the five tables of layout 1, or has a view;
//! - for a table that layout 2 adds: the tables aren't those of layout 2, or there is a view;
//! - in some table a cell has another type, is out of range or isn't UTF-8;
//! - in some table two rows have the same key.
//!
//! In the first two cases, any function that reads may return any other error, except `raw_meta`.

#![tactic(auto)]

mod autocommit;
mod creation;
mod declared;
mod evidence;
mod kept;
mod keyed;
mod levels;
mod listed;
mod meta;
mod modes;
mod raw_texts;
mod statement;
mod texts;
mod versions;
mod with_id;

pub use autocommit::AutocommitConnection;
pub use creation::{add_tables, create_layout_one, create_layout_two, index_versions};
pub use declared::{
    has_layout_one, has_layout_two, is_empty_database, is_unindexed_one, is_unindexed_two,
};
pub use evidence::{
    RawAgainst, RawEvidence, against_at, against_count, against_of, evidence_level_of, put_against,
    put_evidence, raw_evidence,
};
pub use kept::{KeptReply, RawKept, keep_reply, kept_reply, raw_kept};
pub use levels::{RawLevel, drop_level, own_level, raw_levels, set_level};
pub use listed::{
    ListedVersion, SubjectVersion, all_versions, any_version_of_id, first_version_after,
    last_live_version_of, last_version_of, next_version_of, versions_of, versions_of_id,
};
pub use meta::{RawMeta, global_level, mark_layout_two, raw_meta, set_global, set_global_mode};
pub use modes::{RawMode, drop_mode, own_mode, raw_modes, set_mode};
pub use raw_texts::{RawText, text_ids, texts_between};
pub use texts::{id_of, last_id, put_text, text_of};
pub use versions::{
    RawVersion, VersionEntry, drop_version, mark_deleted, put_version, raw_versions, version_of,
};
pub use with_id::{VERSIONS_LIMIT, last_version_with_id, some_versions_of_id};
