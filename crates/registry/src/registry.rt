//! The registry.

mod components;
mod groups;
mod laws;
mod lending;
mod lifecycle;
mod listeners;
mod orders;
mod queries;
mod running;
mod sorting;

use super::parts::Parts;
pub use lending::Shell;
use signal_sink::Listener;
use std::marker::Model;

/// The entities of a world, the rows of each component, the owning groups, and the listeners of each
/// pool. A contract sees it as `Held` (`specs/Held.antt`). Each listener that hears of a pool's rows
/// removed has room for them all, so no call that removes rows takes memory. (EnTT:
/// `entt::basic_registry`.)
#[derive(Drop)]
pub struct Registry<L: Listener> {
    parts: Parts<L>,
}

impl<L: Listener> Model for Registry<L> {
    ghost use Rattle.registry.specs.Held.{Held};
    ghost use Rattle.registry.specs.Layout.{held_of, IsKept};

    ghost Value = { Held };

    ghost view = { λ a. held_of a.parts };

    ghost invariant = { λ a. IsKept a.parts };
}
