//! Lookups of versions take few steps, although the subject or the id has a hundred versions.

use reg_tables::{
    AutocommitConnection, create_layout_two, last_live_version_of, last_version_of,
    last_version_with_id, put_text, put_version, some_versions_of_id, version_of, versions_of,
};
use sqlite::{Alter, Connection, Error, ErrorCode, Transaction};
use std::alloc::Global;
use std::test::Fail;

/// The subject s has this many versions, each with its own id. The same number of other subjects
/// have a version with the id of the first version of s.
const VERSIONS: u32 = 100;

/// Five of the other subjects have a second version, with this id; s has none.
const OTHER: u32 = 101;

/// Adds the texts of all ids.
fn add_texts<S: Alter>(alloc: Global, tx: &mut Transaction<'_, S>) -> Result<(), Fail> {
    for id in 1..=OTHER {
        let text = format!(in alloc; "{id}")?;
        put_text(tx, id, &text)?;
    }
    Ok(())
}

/// Adds the versions of s.
fn add_versions<S: Alter>(tx: &mut Transaction<'_, S>) -> Result<(), Fail> {
    for number in 1..=VERSIONS {
        put_version(tx, "s", number, number, false)?;
    }
    Ok(())
}

/// Adds the versions of the other subjects.
fn add_subjects<S: Alter>(alloc: Global, tx: &mut Transaction<'_, S>) -> Result<(), Fail> {
    for place in 0..VERSIONS {
        let subject = format!(in alloc; "t{place}")?;
        put_version(tx, &subject, 1, 1, false)?;
        if place < 5 {
            put_version(tx, &subject, 2, OTHER, false)?;
        }
    }
    Ok(())
}

/// Creates the tables, and fills them.
fn fill<S: Alter>(alloc: Global, connection: &mut Connection<S>) -> Result<(), Fail> {
    if !connection.is_autocommit() {
        return Err("a transaction is open".into());
    }
    let mut tx = connection.transaction();
    create_layout_two(&mut tx)?;
    add_texts(alloc, &mut tx)?;
    add_versions(&mut tx)?;
    add_subjects(alloc, &mut tx)?;
    tx.commit()?;
    Ok(())
}

/// Looks up versions of s by their numbers.
fn look_up_numbers<S: Alter>(db: &mut AutocommitConnection<S>) -> Result<(), Fail> {
    last_version_of(db, "s")?;
    last_live_version_of(db, "s")?;
    version_of(db, "s", 1)?;
    Ok(())
}

/// Looks up the last version of s by its id, and the versions of two ids that few versions have.
fn look_up_ids<S: Alter>(alloc: Global, db: &mut AutocommitConnection<S>) -> Result<(), Fail> {
    last_version_with_id(db, "s", VERSIONS, false)?;
    some_versions_of_id(alloc, db, VERSIONS)?;
    some_versions_of_id(alloc, db, OTHER)?;
    Ok(())
}

/// Looks up versions of an id that many versions have. The same number of steps must not be enough
/// to list the versions of s.
fn look_up_many<S: Alter>(alloc: Global, db: &mut AutocommitConnection<S>) -> Result<(), Fail> {
    some_versions_of_id(alloc, db, 1)?;
    match versions_of(alloc, db, "s") {
        Ok(_) => Err("the limit is not kept".into()),
        Err(Error::SqliteFailure(ErrorCode::OperationInterrupted)) => Ok(()),
        Err(error) => Err(error.into()),
    }
}

/// No clause bounds the steps of a lookup. The step limit in this test does.
#[test]
fn lookups_take_few_steps(rt: HostRuntime) -> Result<(), Fail> {
    let alloc = rt.alloc();
    let mut connection = Connection::open_in_memory(alloc)?;
    fill(alloc, &mut connection)?;
    connection.set_step_limit(Some(12));
    if !connection.is_autocommit() {
        return Err("a transaction is open".into());
    }
    let mut db = AutocommitConnection { conn: connection };
    look_up_numbers(&mut db)?;
    look_up_ids(alloc, &mut db)?;
    db.conn.set_step_limit(Some(70));
    look_up_many(alloc, &mut db)
}
