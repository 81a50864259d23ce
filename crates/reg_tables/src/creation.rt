//! Makes the tables of both layouts.

ghost use Rattle.std.specs.Prelude.{◌≡◌, ◌⊎◌, codes};
ghost use Rattle.sqlite.specs.Schema.{Schema};
ghost use Rattle.reg_tables.specs.Layout.{partial_layout_one, layout_one, layout_one_unindexed, meta, GetsIndex, layout_two};
ghost use Rattle.reg_tables.specs.Contents.{Contents, HoldsContents, HoldsLayoutOne};
ghost use Rattle.reg_tables.specs.Rooms.{HasRoom};
ghost use Rattle.reg_tables.specs.FailedCalls.{IsWriteFault};
ghost use Rattle.reg_tables.specs.Changes.{no_contents, new_contents_one, contents_before_level, contents_of_layout, new_contents_two};
ghost use Rattle.reg_tables.specs.Writing.{Transforms, IsEmpty, Holding};

use crate::meta::put_meta;
use crate::statement::run;
use sqlite::{Alter, Error, Transaction};

/// Makes `texts` and `versions`.
fn make_schema_tables<S: Alter>(tx: &mut Transaction<'_, S>) -> Result<(), Error>
    ensures { Transforms IsWriteFault S.Store tx.old tx.new result IsEmpty
        (λ _ db. HoldsContents (partial_layout_one 2) db no_contents) }
{
    run(
        tx,
        "CREATE TABLE texts (id INTEGER PRIMARY KEY, text TEXT NOT NULL UNIQUE) STRICT",
        &[],
    )?;
    run(
        tx,
        "CREATE TABLE versions (subject TEXT NOT NULL, version INTEGER NOT NULL, id INTEGER NOT NULL REFERENCES texts (id), deleted INTEGER NOT NULL CHECK (deleted = 0 OR deleted = 1), PRIMARY KEY (subject, version)) STRICT",
        &[],
    )
}

/// Makes `levels`, `kept` and `meta`.
fn make_other_tables<S: Alter>(tx: &mut Transaction<'_, S>) -> Result<(), Error>
    ensures { Transforms IsWriteFault S.Store tx.old tx.new result
        (Holding (partial_layout_one 2)) (Holding layout_one_unindexed) }
{
    run(
        tx,
        "CREATE TABLE levels (subject TEXT NOT NULL PRIMARY KEY, level TEXT NOT NULL) STRICT",
        &[],
    )?;
    run(
        tx,
        "CREATE TABLE kept (key TEXT NOT NULL PRIMARY KEY, command TEXT NOT NULL, status INTEGER NOT NULL, body TEXT NOT NULL) STRICT",
        &[],
    )?;
    run(
        tx,
        "CREATE TABLE meta (name TEXT NOT NULL PRIMARY KEY, value TEXT NOT NULL) STRICT",
        &[],
    )
}

/// Makes the index `versions_of_id`. Tables that another program made may lack it
/// (`is_unindexed_one`, `is_unindexed_two`).
///
/// # Errors
///
/// A write error; others only if both of these functions return `false`.
pub fn index_versions<S: Alter>(tx: &mut Transaction<'_, S>) -> Result<(), Error>
    ensures { Transforms IsWriteFault S.Store tx.old tx.new result
        (λ (about : Schema × Schema × Contents) db. GetsIndex about.0 about.1 × HoldsContents about.0 db about.2)
        (λ about db. HoldsContents about.1 db about.2) }
{
    run(tx, "CREATE INDEX versions_of_id ON versions (id)", &[])
}

/// Makes the empty tables and the index of layout 1.
fn make_tables<S: Alter>(tx: &mut Transaction<'_, S>) -> Result<(), Error>
    ensures { Transforms IsWriteFault S.Store tx.old tx.new result IsEmpty
        (λ _ db. HoldsLayoutOne db no_contents) }
{
    make_schema_tables(tx)?;
    make_other_tables(tx)?;
    index_versions(tx)
}

/// Makes the tables of layout 1, and writes the format and a layout's number to `meta`.
fn make_numbered<S: Alter>(tx: &mut Transaction<'_, S>, number: &str) -> Result<(), Error>
    requires known { (number.now ≡ codes "1") ⊎ (number.now ≡ codes "2") }
    ensures { Transforms IsWriteFault S.Store tx.old tx.new result IsEmpty
        (λ _ db. HoldsLayoutOne db (contents_before_level number.now) × HasRoom (db.trees meta.tree) 2) }
{
    make_tables(tx)?;
    put_meta(tx, "format", "avroreg")?;
    put_meta(tx, "layout", number)
}

/// Makes the tables of layout 1, with this layout number and the other rows of `meta` that both
/// layouts have.
pub(crate) fn create_as<S: Alter>(tx: &mut Transaction<'_, S>, number: &str) -> Result<(), Error>
    requires known { (number.now ≡ codes "1") ⊎ (number.now ≡ codes "2") }
    ensures { Transforms IsWriteFault S.Store tx.old tx.new result IsEmpty
        (λ _ db. HoldsLayoutOne db (contents_of_layout number.now) × HasRoom (db.trees meta.tree) 1) }
{
    make_numbered(tx, number)?;
    put_meta(tx, "global", "BACKWARD")
}

/// Makes a new registry in layout 1, with the global level BACKWARD, in a database without tables,
/// indexes and views (`is_empty_database`). (Schema Registry API reference, Config.)
///
/// # Errors
///
/// A write error; others only if `is_empty_database` returns `false`.
pub fn create_layout_one<S: Alter>(tx: &mut Transaction<'_, S>) -> Result<(), Error>
    ensures { Transforms IsWriteFault S.Store tx.old tx.new result IsEmpty
        (λ _ db. HoldsLayoutOne db new_contents_one) }
{
    create_as(tx, "1")
}

/// Adds `modes`, `evidence` and `against`, all empty, to layout 1 with its index. The tables of
/// layout 1 keep their rows.
///
/// # Errors
///
/// A write error; others only if the schema isn't layout 1 with its index.
pub fn add_tables<S: Alter>(tx: &mut Transaction<'_, S>) -> Result<(), Error>
    ensures { Transforms IsWriteFault S.Store tx.old tx.new result (Holding layout_one) (Holding layout_two) }
{
    run(
        tx,
        "CREATE TABLE modes (subject TEXT NOT NULL PRIMARY KEY, mode TEXT NOT NULL) STRICT",
        &[],
    )?;
    run(
        tx,
        "CREATE TABLE evidence (subject TEXT NOT NULL, version INTEGER NOT NULL, level TEXT NOT NULL, PRIMARY KEY (subject, version), FOREIGN KEY (subject, version) REFERENCES versions (subject, version) ON DELETE CASCADE) STRICT",
        &[],
    )?;
    run(
        tx,
        "CREATE TABLE against (subject TEXT NOT NULL, version INTEGER NOT NULL, position INTEGER NOT NULL, id INTEGER NOT NULL REFERENCES texts (id), PRIMARY KEY (subject, version, position), FOREIGN KEY (subject, version) REFERENCES versions (subject, version) ON DELETE CASCADE) STRICT",
        &[],
    )
}

/// Makes a new registry in layout 2, with the global level BACKWARD and the global mode READWRITE,
/// in a database without tables, indexes and views (`is_empty_database`). (Schema Registry API
/// reference, Config, Mode.)
///
/// # Errors
///
/// A write error; others only if `is_empty_database` returns `false`.
pub fn create_layout_two<S: Alter>(tx: &mut Transaction<'_, S>) -> Result<(), Error>
    ensures { Transforms IsWriteFault S.Store tx.old tx.new result IsEmpty
        (λ _ db. HoldsContents layout_two db new_contents_two) }
{
    create_as(tx, "2")?;
    put_meta(tx, "mode", "READWRITE")?;
    add_tables(tx)
}
