//! Duplicate rowids.

ghost use Rattle.std.specs.Prelude.{◌↔◌, IsTrue};
ghost use Rattle.reg_store.specs.Inside.TableChecks.{AreDistinct};

/// Whether the numbers are distinct. Sorts them.
pub(crate) fn are_distinct(numbers: &mut [i64]) -> bool
    ensures { IsTrue result ↔ AreDistinct numbers.old }
{
    numbers.sort_unstable();
    for i in 1..numbers.len() {
        if numbers[i - 1] == numbers[i] {
            return false;
        }
    }
    true
}
