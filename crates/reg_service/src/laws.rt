//! A law of services: what a crash preserves, and what continues after it.

ghost use Rattle.reg_service.specs.Restarts.{ContinuesAfterCrash};

use crate::service::Service;
use sqlite::Alter;

/// A law of any four services: the deliveries of a list, a crash, a restart, and the deliveries of
/// another list. `old` is the service before the first list, and `new` the one after it. Each
/// database that a crash may leave spells a stored state. If `next` is a service over that state,
/// and `last` the service after its list, then the two lists are one, with at most one delivery in
/// between. That one is a first delivery of the first list, and it got 50001, as did all
/// deliveries after it. Both disks returned what was written to them.
pub fn lists_continue_after_crash<S: Alter>(
    old: &Service<S>,
    new: &Service<S>,
    next: &Service<S>,
    last: &Service<S>,
)
    ensures { ContinuesAfterCrash old.now new.now next.now last.now }
{}
