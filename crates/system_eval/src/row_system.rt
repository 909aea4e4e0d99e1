//! Systems of the language, as a tick runs them.

ghost use Rattle.std.specs.Prelude.{◌≡◌};
ghost use Rattle.row_lang.specs.Effects.{system_effect};
ghost use Rattle.system_eval.specs.Runs.{IsRunnable, order_limit};
ghost use Rattle.system_eval.specs.RunLaws.{row-frame, row-local, row-few, row-sized};

use crate::sizes::least_own;
use crate::walk::{Task, choose, walk};
use entity_id::Profile;
use row_lang::SystemDef;
use system_api::{Buffer, Lent, System};
use world_model::Access;

/// A system of the language, in a profile. (This project's own; in EnTT a system is any function
/// that an `entt::organizer` is given.)
#[derive(Drop)]
pub struct RowSystem<'a> {
    /// The profile, by which fields hold identifiers.
    pub profile: Profile,
    /// The system.
    pub system: &'a SystemDef,
    pub ghost checked: { ∥ IsRunnable system.now ∥₁ },
}

impl<'a> RowSystem<'a> {
    /// A system that is checked, in this profile. No memory.
    pub fn new(profile: Profile, system: &'a SystemDef) -> RowSystem<'a>
        requires checked { ∥ IsRunnable system.now ∥₁ }
        ensures profile { result.profile ≡ profile }
        ensures system { result.system.now ≡ system.entry.now }
    {
        RowSystem { profile, system }
    }
}

impl<'a> System for RowSystem<'a> {
    ghost lists = { λ s. s.system.now.access };

    ghost effect = { λ s. system_effect s.profile s.system.now };

    ghost limit = { λ s. order_limit s.system.now };

    fn access(&self) -> &Access {
        self.system.access()
    }

    fn bound(&self, sizes: &[u32]) -> u64 {
        let least = least_own(sizes, self.system.access());
        u64::from(self.system.commands()) * u64::from(least)
    }

    fn run(&self, lent: &mut Lent<'_>, tick: u64, out: &mut Buffer) {
        let task = Task {
            profile: self.profile,
            system: self.system,
            tick,
        };
        let choice = choose(self.system.access(), lent);
        walk(&task, lent, choice.at, choice.end, out);
    }

    ghost frame = { λ s. row-frame s.profile s.system.now };

    ghost local = { λ s. row-local s.profile s.system.now };

    ghost few = { λ s. row-few s.profile s.system.now s.checked };

    ghost sized = { λ s. row-sized s.system.now };
}
