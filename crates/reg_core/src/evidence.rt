//! The evidence for an accepted version.

ghost use Rattle.std.specs.Prelude.{◌≡◌};

use crate::level::Level;
use std::marker::Model;

/// Why a version was accepted when it was registered: the level in force, and the schema ids of the
/// versions that the level compared with, in the order of their numbers.
#[derive(Debug, Drop)]
pub struct Evidence {
    level: Level,
    against: Vec<u32>,
}

impl Model for Evidence {
    ghost use Rattle.reg_core.specs.Evidence.{Evidence};

    ghost Value = { Evidence };

    ghost view = { λ evidence. record { level = evidence.level; against = evidence.against.items } };
}

impl Evidence {
    /// The evidence of this level and these ids.
    pub fn new(level: Level, against: Vec<u32>) -> Evidence
        ensures { result ≡ record { level = level; against = against.items } }
    {
        Evidence { level, against }
    }

    /// The level.
    pub fn level(&self) -> Level
        ensures { result ≡ self.now.level }
    {
        self.level
    }

    /// The ids of the schemas that the level compared with.
    pub fn against(&self) -> &[u32]
        ensures { result.now ≡ self.now.against }
    {
        &self.against
    }
}
