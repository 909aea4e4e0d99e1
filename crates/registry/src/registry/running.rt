//! Commands carried out.

ghost use Rattle.registry.specs.Costs.{RunsWithin};
ghost use Rattle.registry.specs.Running.{Asks, IsRun};

use super::Registry;
use crate::parts::commands;
use signal_sink::Listener;
use sparse_set::Steps;
use std::sync::ledger::Ledger;
use world_model::{Command, Reply};

impl<L: Listener> Registry<L> {
    /// Carries out a command and gives its reply: a refusal of the call that the command names is
    /// `Reply::Refused`. It asks what that call asks: a row or a value that fits, a view of at least one
    /// component that its entities are in. The reply to `Members` lists in ascending index, that to a
    /// sort in the order of the walk from the last identifier to the first. `OutOfMemory` where memory
    /// runs out, which it can only for creations that need a new slot, `Emplace`, `EmplaceOrReplace`,
    /// `Replace`, `Patch`, `View`, a `Group` that doesn't stand yet, `Members`, `SortPool` and
    /// `SortGroup`, and only where nothing else refuses the command; then all is as before. At most as
    /// many steps as the call. (This project's own.)
    pub fn run<G: Ledger>(&mut self, command: &Command, steps: &mut Steps<G>) -> Reply
        requires asked { Asks self.old.world command.now }
        ensures run { IsRun self.old self.new command.now result }
        ensures steps { RunsWithin self.old.world command.now steps.old steps.new }
    {
        commands::run(&mut self.parts, command, steps)
    }
}
