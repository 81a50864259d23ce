//! The rows of `versions`, `levels`, `kept`, `modes` and `evidence`.

ghost use Rattle.std.specs.Prelude.{IsTrue, ◌↔◌, ◌≡◌};
ghost use Rattle.std.specs.List.{AllByRecursion};
ghost use Rattle.reg_core.specs.Replies.{IsKeptStatus};
ghost use Rattle.reg_rows.specs.Spelling.{FitsVersions, FitsLevels, FitsKept, FitsModes, IsLevelName, IsVersionRow, IsLevelRow, IsKeptRow, IsModeRow, IsEvidenceRow};

use reg_core::{Key, Level, MAX_NUMBER, Mode, is_subject};

/// Whether a row of `versions` may have these values: a valid subject, and a number from 1 to
/// 2,147,483,647.
pub fn fits_versions(subject: &str, number: u32) -> bool
    ensures { IsTrue result ↔ FitsVersions subject.now number }
{
    is_subject(subject) && number > 0 && number <= MAX_NUMBER
}

fn is_version_row(row: &(String, u32, u32, bool)) -> bool
    ensures { IsTrue result ↔ IsVersionRow row.now }
{
    fits_versions(row.0.as_str(), row.1)
}

/// Whether each row of `versions` has a valid subject and number.
pub(crate) fn are_version_rows(rows: &[(String, u32, u32, bool)]) -> bool
    ensures { IsTrue result ↔ AllByRecursion IsVersionRow rows.now }
{
    for row in rows {
        if !is_version_row(row) {
            return false;
        }
    }
    true
}

/// Whether the text is the name of one of the seven levels.
pub fn is_level_name(text: &str) -> bool
    ensures { IsTrue result ↔ IsLevelName text.now }
{
    Level::parse(text).is_some()
}

/// Whether a row of `levels` may have these values: a valid subject, and the name of one of the
/// seven levels.
pub fn fits_levels(subject: &str, level: &str) -> bool
    ensures { IsTrue result ↔ FitsLevels subject.now level.now }
{
    is_subject(subject) && is_level_name(level)
}

fn is_level_row(row: &(String, String)) -> bool
    ensures { IsTrue result ↔ IsLevelRow row.now }
{
    fits_levels(row.0.as_str(), row.1.as_str())
}

/// Whether each row of `levels` has a valid subject and level.
pub(crate) fn are_level_rows(rows: &[(String, String)]) -> bool
    ensures { IsTrue result ↔ AllByRecursion IsLevelRow rows.now }
{
    for row in rows {
        if !is_level_row(row) {
            return false;
        }
    }
    true
}

/// Whether replies with this status are kept.
fn is_kept_status(status: u32) -> bool
    ensures { IsTrue result ↔ IsKeptStatus status }
{
    match status {
        200 | 404 | 409 | 422 => true,
        _ => false,
    }
}

/// Whether a row of `kept` may have these values: a valid retry key, and a status whose replies are
/// kept.
pub fn fits_kept(key: &str, status: u32) -> bool
    ensures { IsTrue result ↔ FitsKept key.now status }
{
    Key::parse(key).is_some() && is_kept_status(status)
}

fn is_kept_row(row: &(String, String, u32, String)) -> bool
    ensures { IsTrue result ↔ IsKeptRow row.now }
{
    fits_kept(row.0.as_str(), row.2)
}

/// Whether each row of `kept` has a valid retry key and status.
pub(crate) fn are_kept_rows(rows: &[(String, String, u32, String)]) -> bool
    ensures { IsTrue result ↔ AllByRecursion IsKeptRow rows.now }
{
    for row in rows {
        if !is_kept_row(row) {
            return false;
        }
    }
    true
}

/// Whether a row of `modes` may have these values: a valid subject, and the name of one of the two
/// modes.
pub fn fits_modes(subject: &str, mode: &str) -> bool
    ensures { IsTrue result ↔ FitsModes subject.now mode.now }
{
    is_subject(subject) && Mode::parse(mode).is_some()
}

fn is_mode_row(row: &(String, String)) -> bool
    ensures { IsTrue result ↔ IsModeRow row.now }
{
    fits_modes(row.0.as_str(), row.1.as_str())
}

/// Whether each row of `modes` has a valid subject and mode.
pub(crate) fn are_mode_rows(rows: &[(String, String)]) -> bool
    ensures { IsTrue result ↔ AllByRecursion IsModeRow rows.now }
{
    for row in rows {
        if !is_mode_row(row) {
            return false;
        }
    }
    true
}

fn is_evidence_row(row: &(String, u32, String)) -> bool
    ensures { IsTrue result ↔ IsEvidenceRow row.now }
{
    is_level_name(row.2.as_str())
}

/// Whether each row of `evidence` has a valid level.
pub(crate) fn are_evidence_rows(rows: &[(String, u32, String)]) -> bool
    ensures { IsTrue result ↔ AllByRecursion IsEvidenceRow rows.now }
{
    for row in rows {
        if !is_evidence_row(row) {
            return false;
        }
    }
    true
}
