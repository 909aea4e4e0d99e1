ghost use Rattle.std.specs.Prelude.{◌≡◌};

use row_lang::SystemDef;
use std::marker::Model;

/// The systems of a document, by number. A contract sees them as the list of its items.
#[derive(Debug, Drop)]
pub struct SystemList {
    systems: Vec<SystemDef>,
}

impl Model for SystemList {
    ghost use Rattle.std.specs.Prelude.{List};
    ghost use Rattle.row_lang.specs.Systems.{System};

    ghost Value = { List System };

    ghost view = { λ a. a.systems.items };
}

impl SystemList {
    /// The list of these systems. No memory.
    pub fn from_vec(systems: Vec<SystemDef>) -> SystemList
        ensures { result ≡ systems.items }
    {
        SystemList { systems }
    }

    /// Its systems. No memory.
    pub fn as_slice(&self) -> &[SystemDef]
        ensures { result.now ≡ self.now }
    {
        &self.systems
    }
}
