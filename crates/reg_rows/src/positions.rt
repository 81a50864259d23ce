//! The rows of `against`: the ids that each version was checked against, by position. In a list of
//! positions, an item is a subject, a version's number, and a position. In a list of versions, an
//! item is a subject and a version's number.

ghost use Rattle.std.specs.Prelude.{◌≡◌, ◌↔◌, Any, IsSorted, IsTrue, map};
ghost use Rattle.std.specs.List.{AllByRecursion};
ghost use Rattle.std.specs.declared.cmp.Ordering.{Ordering};
ghost use Rattle.reg_rows.specs.Positions.{HaveEvidence, AreContiguous, version_view, position_view};
ghost use Rattle.reg_rows.specs.Inside.Search.{AreSortedVersions, AreSortedPositions, HasVersion, HasPredecessorIn};

/// Whether the sorted keys contain the key.
fn is_among<K: Ord>(sorted: &[K], key: &K) -> bool
    requires { IsSorted K.cmp sorted.now }
    ensures { IsTrue result ↔ Any (λ other. K.cmp other key.now ≡ Ordering.Equal) sorted.now }
{
    sorted.binary_search(key).is_ok()
}

/// Whether the sorted versions contain the version of this position.
fn has_version<'a>(sorted: &[(&'a str, u32)], position: &(&'a str, u32, u32)) -> bool
    requires { AreSortedVersions sorted.now }
    ensures { IsTrue result ↔ HasVersion sorted.now position.now }
{
    is_among(sorted, &(position.0, position.1))
}

/// Whether the sorted versions contain the version (subject and number) of each item of
/// `version_positions`. True if there is no item.
fn contains_version_of_each<'a>(
    sorted: &[(&'a str, u32)],
    version_positions: &[(&'a str, u32, u32)],
) -> bool
    requires { AreSortedVersions sorted.now }
    ensures { IsTrue result ↔ AllByRecursion (HasVersion sorted.now) version_positions.now }
{
    for position in version_positions {
        if !has_version(sorted, position) {
            return false;
        }
    }
    true
}

/// Whether each version in `version_positions` is also in `versions_with_evidence`. Both lists may
/// be in any order.
pub fn have_evidence<'a>(
    versions_with_evidence: Vec<(&'a str, u32)>,
    version_positions: &[(&'a str, u32, u32)],
) -> bool
    ensures { IsTrue result
        ↔ HaveEvidence (map version_view versions_with_evidence.entry.items)
        (map position_view version_positions.now) }
{
    let mut sorted = versions_with_evidence;
    sorted.sort_unstable();
    contains_version_of_each(&sorted, version_positions)
}

/// Whether the position is 1, or the sorted positions contain its predecessor.
fn has_predecessor(sorted: &[(&str, u32, u32)], position: &(&str, u32, u32)) -> bool
    requires { AreSortedPositions sorted.now }
    ensures { IsTrue result ↔ HasPredecessorIn sorted.now position.now }
{
    match position.2 {
        0 => false,
        1 => true,
        number => is_among(sorted, &(position.0, position.1, number - 1)),
    }
}

/// Whether each of the sorted positions is 1 or has its predecessor.
fn have_predecessors(sorted: &[(&str, u32, u32)]) -> bool
    requires { AreSortedPositions sorted.now }
    ensures { IsTrue result ↔ AllByRecursion (HasPredecessorIn sorted.now) sorted.now }
{
    for position in sorted {
        if !has_predecessor(sorted, position) {
            return false;
        }
    }
    true
}

/// Whether the positions of each version are 1, 2, .. without a gap, in any order. An item is a
/// subject, a version's number, and a position. Duplicates aren't detected.
pub fn are_contiguous(version_positions: Vec<(&str, u32, u32)>) -> bool
    ensures { IsTrue result ↔ AreContiguous (map position_view version_positions.entry.items) }
{
    let mut sorted = version_positions;
    sorted.sort_unstable();
    have_predecessors(&sorted)
}
