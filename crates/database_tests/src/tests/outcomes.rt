//! The line on standard error and the status, by the outcome of `run`, `list`, `audit` or `serve`.

use super::support::Failing;
use reg_http::Ended;
use reg_jobs::{AuditOutcome, ErrorWriter, ListOutcome, Outcome, report};
use reg_store::StoreError;
use std::test::Fail;

/// An outcome over the file F, its line, and its status. A success has no line. Its status is 0, or
/// 1 for a negative verdict.
#[rattlefmt::skip]
const OUTCOMES: [(Outcome, &str, u8); 26] = [
    (Outcome::Session(Ended::ReadFailed), "avroreg: read failed\n", 2),
    (Outcome::Session(Ended::WriteFailed), "avroreg: write failed\n", 2),
    (Outcome::Session(Ended::Malformed), "avroreg: malformed input\n", 2),
    (Outcome::Session(Ended::Memory), "avroreg: out of memory\n", 2),
    (Outcome::Unopened(StoreError::Memory), "avroreg: out of memory\n", 2),
    (Outcome::Unopened(StoreError::Disk), "avroreg: cannot open F\n", 2),
    (Outcome::Unopened(StoreError::NotARegistry), "avroreg: F is not a registry\n", 2),
    (Outcome::Unopened(StoreError::OldLayout(1)), "avroreg: F has layout 1, run migrate\n", 2),
    (Outcome::Unopened(StoreError::NewerLayout(2)), "avroreg: F has layout 2, newer than this program\n", 2),
    (Outcome::Unopened(StoreError::NewerLayout(999_999_999)), "avroreg: F has layout 999999999, newer than this program\n", 2),
    (Outcome::NotListening(1), "avroreg: cannot listen on port 1\n", 2),
    (Outcome::NotListening(65535), "avroreg: cannot listen on port 65535\n", 2),
    (Outcome::List(ListOutcome::Unread(StoreError::Memory)), "avroreg: out of memory\n", 2),
    (Outcome::List(ListOutcome::Unread(StoreError::Disk)), "avroreg: cannot open F\n", 2),
    (Outcome::List(ListOutcome::Unread(StoreError::NotARegistry)), "avroreg: F is not a registry\n", 2),
    (Outcome::List(ListOutcome::Unread(StoreError::OldLayout(1))), "avroreg: F has layout 1, run migrate\n", 2),
    (Outcome::List(ListOutcome::Unread(StoreError::NewerLayout(2))), "avroreg: F has layout 2, newer than this program\n", 2),
    (Outcome::List(ListOutcome::NotWritten), "avroreg: write failed\n", 2),
    (Outcome::List(ListOutcome::OutOfMemory), "avroreg: out of memory\n", 2),
    (Outcome::Audit(AuditOutcome::Unread(StoreError::Memory)), "avroreg: out of memory\n", 2),
    (Outcome::Audit(AuditOutcome::Unread(StoreError::Disk)), "avroreg: cannot open F\n", 2),
    (Outcome::Audit(AuditOutcome::NotWritten), "avroreg: write failed\n", 2),
    (Outcome::Session(Ended::Closed), "", 0),
    (Outcome::List(ListOutcome::Whole), "", 0),
    (Outcome::Audit(AuditOutcome::Verdict(true)), "", 0),
    (Outcome::Audit(AuditOutcome::Verdict(false)), "", 1),
];

/// A line is written in full, or up to the write that fails. The status is the same.
#[test]
fn outcomes_have_their_lines(rt: HostRuntime) -> Result<(), Fail> {
    for (outcome, line, status) in OUTCOMES {
        for writes in 0..=line.len() {
            let mut errors = ErrorWriter::to(Failing {
                taken: Vec::new(rt.alloc()),
                writes,
                takes_nothing: false,
            });
            assert_eq!(rt; report(&mut errors, outcome, "F"), status, "{line}");
            assert_eq!(rt; errors.has_lost(), writes < line.len(), "{line}");
            let taken = errors.into_writer().taken;
            assert!(rt;
                line.as_bytes().get(..writes) == Some(taken.as_slice()),
                "{line}"
            );
        }
    }
    Ok(())
}
