//! Stores over a disk that has failed.

use reg_core::{Change, Command, Key, Level};
use reg_store::{Listing, Store, StoreError};
use sqlite::Alter;
use std::alloc::Global;
use std::test::Fail;

/// Whether `kept`, `view` and `text_of` of a failed store return `Disk`.
fn reads_fail<S: Alter + Drop>(store: &mut Store<S>) -> Result<bool, Fail> {
    let key = Key::parse("k").ok_or("no key")?;
    Ok(
        matches!(store.kept(&key), Err(StoreError::Disk))
            && matches!(store.view(&Command::Global, None), Err(StoreError::Disk))
            && matches!(store.text_of(1), Err(StoreError::Disk)),
    )
}

/// Whether `rows`, `lines` and `audit` of a failed store return `Disk`.
fn walks_fail<S: Alter + Drop>(store: &mut Store<S>) -> bool {
    matches!(store.rows(Listing::Subjects), Err(StoreError::Disk))
        && matches!(store.lines(Listing::Subjects), Err(StoreError::Disk))
        && matches!(store.audit(), Err(StoreError::Disk))
}

/// Checks that every call on a failed store returns `Disk`.
pub fn check_stays_failed<S: Alter + Drop>(
    alloc: Global,
    store: &mut Store<S>,
) -> Result<(), Fail> {
    let mut changes = Vec::new(alloc);
    changes.push(Change::SetGlobal { level: Level::Full })?;
    if reads_fail(store)?
        && walks_fail(store)
        && matches!(store.apply(&changes, None), Err(StoreError::Disk))
    {
        return Ok(());
    }
    Err("a store that has failed answers otherwise".into())
}
