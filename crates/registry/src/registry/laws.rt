//! The law of every registry.

ghost use Rattle.registry.specs.Laws.{IsLawfulRegistry};

use super::Registry;
use crate::parts::lawful::know_law;
use signal_sink::Listener;

impl<L: Listener> Registry<L> {
    /// What is true of every registry between two calls: its world is lawful within its limit, each
    /// pool's packed list has the identifiers that have a row in it, each once, each group's members
    /// stand first in the packed lists of the pools that it owns, in one order, and each listener that
    /// hears of a pool's rows removed has room for them all (`specs/Laws.antt`). A caller whose proof
    /// wants this of a registry calls it: it changes nothing, and looks at each pool once. No memory.
    /// (This project's own.)
    pub fn law(&self)
        ensures { IsLawfulRegistry self.now }
    {
        know_law(&self.parts);
    }
}
