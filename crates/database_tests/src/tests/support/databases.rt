//! The contents of databases, as texts.

use sqlite::{Alter, Connection, Error, Row};
use std::alloc::Global;
use std::test::Fail;

/// Selects the statements that declare a database's tables and indexes.
const DECLARED: &str = "SELECT type, name, sql FROM sqlite_schema ORDER BY name";

/// Selects the rows of the tables that both layouts have.
const ROWS: &str =
    "SELECT 'kept' AS what, key || ' ' || status || ' ' || command AS name, body AS value FROM kept UNION ALL SELECT 'level', subject, level FROM levels UNION ALL SELECT 'meta', name, value FROM meta UNION ALL SELECT 'text', '' || id, text FROM texts UNION ALL SELECT 'version', subject || ' ' || version, id || ' ' || deleted FROM versions ORDER BY what, name";

/// Selects the rows of the tables that layout 2 adds.
const ADDED: &str =
    "SELECT 'against' AS what, subject || ' ' || version || ' ' || position AS name, '' || id AS value FROM against UNION ALL SELECT 'evidence', subject || ' ' || version, level FROM evidence UNION ALL SELECT 'mode', subject, mode FROM modes ORDER BY what, name";

/// Selects the kept replies.
const KEPT: &str = "SELECT key, command, status || ' ' || body FROM kept ORDER BY key";

/// The rows of a query. If it fails, as it does if a table is missing, there are none.
fn rows_of<S: Alter + Drop>(
    alloc: Global,
    connection: &mut Connection<S>,
    sql: &str,
) -> Result<Vec<Row>, Error> {
    match connection.query_all(sql, &[]) {
        Ok(rows) => Ok(rows),
        Err(_) => Ok(Vec::new(alloc)),
    }
}

/// Adds the first three cells of each row to the text, one line for each row. NULL is empty.
fn add_rows(text: &mut String, rows: &[Row]) -> Result<(), Fail> {
    for row in rows {
        for at in 0..3 {
            let cell: Option<String> = row.get(at)?;
            text.push_str(cell.as_ref().map_or("", |cell| cell.as_str()))?;
            text.push('|')?;
        }
        text.push('\n')?;
    }
    Ok(())
}

/// The contents of the database: its declarations, and the rows of a registry of either layout, one
/// line each. Empty for an empty database.
///
/// # Errors
///
/// A failed test if allocating the text fails.
pub fn contents<S: Alter + Drop>(
    alloc: Global,
    connection: &mut Connection<S>,
) -> Result<String, Fail> {
    let mut text = String::new(alloc);
    let declared = rows_of(alloc, connection, DECLARED)?;
    add_rows(&mut text, &declared)?;
    let rows = rows_of(alloc, connection, ROWS)?;
    add_rows(&mut text, &rows)?;
    let added = rows_of(alloc, connection, ADDED)?;
    add_rows(&mut text, &added)?;
    Ok(text)
}

/// The kept replies in the database, one line each.
///
/// # Errors
///
/// A failed test if allocating the text fails.
pub fn kept<S: Alter + Drop>(
    alloc: Global,
    connection: &mut Connection<S>,
) -> Result<String, Fail> {
    let mut text = String::new(alloc);
    let rows = rows_of(alloc, connection, KEPT)?;
    add_rows(&mut text, &rows)?;
    Ok(text)
}
