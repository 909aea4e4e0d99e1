//! What a step changes.

ghost use Rattle.std.specs.Prelude.{◌≡◌};
ghost use Rattle.tick_core.specs.Steps.{CanStep, after};

use super::versions::raise;
use super::{Core, Step};

impl Core {
    /// Takes a step that can be taken, which `can` tells. No memory.
    pub fn take(&mut self, step: &Step)
        requires { CanStep self.old step.now }
        ensures { self.new ≡ after self.old step.now }
    {
        match *step {
            Step::Claim { system } => self.systems[system as usize].claim(),
            Step::Take { system, pool } => self.systems[system as usize].take(pool),
            Step::Leave { system, pool } => self.systems[system as usize].give(pool),
            Step::Put { system, pool } => {
                self.systems[system as usize].give(pool);
                raise(&mut self.versions, pool);
            }
            Step::Finish { system } => self.systems[system as usize].finish(),
        }
    }
}
