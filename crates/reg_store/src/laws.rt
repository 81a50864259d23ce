//! Laws of the tables.

ghost use Rattle.reg_store.specs.Spells.{Spells, SpellsUnopened, SpellsLayoutOne, SpellsAtMostOne};

/// A law of the tables: they spell at most one stored state. So the definitions of what tables
/// spell name one registry, with its kept replies and its evidence, for each database.
pub fn tables_spell_one_state()
    ensures layout_two { SpellsAtMostOne Spells }
    ensures unopened { SpellsAtMostOne SpellsUnopened }
    ensures layout_one { SpellsAtMostOne SpellsLayoutOne }
{}
