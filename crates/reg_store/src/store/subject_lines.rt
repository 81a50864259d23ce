//! The lines of subjects in the order of their bytes.

ghost use Rattle.std.specs.Prelude.{◌≡◌, IfOk, map};
ghost use Rattle.std.specs.FinMap.{entries};
ghost use Rattle.reg_store.specs.Listings.{fields_of, lines_of, subject_listed, subjects_of};
ghost use Rattle.reg_store.specs.Inside.Reads.{MayRead, Reads};

use crate::conn::Conn;
use crate::error::StoreError;
use crate::store::levels::own;
use crate::store::lines::{push_line, subject_line};
use crate::store::rows::{all_rows, subject_rows};
use reg_core::{OutOfMemory, Row, Subject};
use sqlite::Alter;
use std::alloc::Global;

pub(crate) fn listed_subjects<S: Alter>(
    alloc: Global,
    db: &mut Conn<S>,
) -> Result<Vec<Vec<String>>, StoreError>
    ensures { Reads db.old db.new result (λ was lines.
        lines_of lines ≡ map (subject_listed was.registry) (subjects_of (entries was.registry.rows))) }
{
    let rows = all_rows(alloc, db)?;
    let subjects = subjects_of(alloc, rows.as_slice())?;
    each_subject(alloc, db, subjects.as_slice())
}

/// The distinct subjects of these versions, which are sorted by subject.
fn subjects_of<'a>(alloc: Global, rows: &'a [Row]) -> Result<Vec<&'a Subject>, OutOfMemory>
    ensures { IfOk result (λ subjects. map (λ subject. subject.now) subjects.items ≡ subjects_of rows.now) }
{
    let mut subjects: Vec<&'a Subject> = rows.iter().map(|row| row.subject()).collect(alloc)?;
    subjects.dedup_by(|one, other| one.as_str() == other.as_str());
    Ok(subjects)
}

fn each_subject<S: Alter>(
    alloc: Global,
    db: &mut Conn<S>,
    subjects: &[&Subject],
) -> Result<Vec<Vec<String>>, StoreError>
    ensures { MayRead db.old db.new result (λ was lines.
        lines_of lines ≡ map (subject_listed was.registry) (map (λ subject. subject.now) subjects.now)) }
{
    let mut lines = Vec::new(alloc);
    for subject in subjects {
        push_line(&mut lines, listed_subject(alloc, db, subject)?)?;
    }
    Ok(lines)
}

pub(crate) fn listed_subject<S: Alter>(
    alloc: Global,
    db: &mut Conn<S>,
    subject: &Subject,
) -> Result<Vec<String>, StoreError>
    ensures { Reads db.old db.new result (λ was line.
        fields_of line ≡ subject_listed was.registry subject.now) }
{
    let rows = subject_rows(alloc, db, subject)?;
    let own = own(db, subject)?;
    Ok(subject_line(alloc, subject, own, rows.as_slice())?)
}
