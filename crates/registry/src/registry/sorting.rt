//! Pools and groups sorted.

ghost use Rattle.std.specs.Prelude.{◌≡◌, ◌≢◌, ◌+◌, ◌≤◌, length, Some, Err, IfErr, OnOk, OnErr};
ghost use Rattle.world_model.specs.declared.command.Command.TheVariants.{SortPool, SortGroup};
ghost use Rattle.world_model.specs.declared.refusal.Refusal.{Refusal};
ghost use Rattle.world_model.specs.Contents.{pool_at, group_at};
ghost use Rattle.registry.specs.Costs.{sort_steps};
ghost use Rattle.registry.specs.Held.{Does, AsBefore, refusal_to};
ghost use Rattle.registry.specs.Packing.{Repacks};

use super::Registry;
use crate::parts::sorting;
use signal_sink::Listener;
use sparse_set::Steps;
use std::sync::ledger::Ledger;
use world_model::Refusal;

impl<L: Listener> Registry<L> {
    /// Puts a pool in the order of a field: the walk from the last identifier of its packed list to the
    /// first ascends by the field's value, and at equal values by index. No row changes, and nobody hears
    /// of it. `NoPool`, then `BadKey`, then `Owned`, exactly where the pool is not declared, it has no
    /// `int` field of this number, and a group owns it, with the least such group; `OutOfMemory` where none
    /// of these holds, and then all is as before. At most as many steps as the pool has rows, beside a sort
    /// of their keys, of `n log n` comparisons. Takes memory. (EnTT: `registry.sort<T>(compare)`, after
    /// which an iteration, which goes from the back, ascends.)
    pub fn sort_pool<G: Ledger>(
        &mut self,
        pool: u32,
        field: u32,
        steps: &mut Steps<G>,
    ) -> Result<(), Refusal>
        ensures ok { OnOk result (Does self.old self.new (SortPool pool field)) }
        ensures err { OnErr result (AsBefore self.old self.new) }
        ensures cause { IfErr result (λ refused. refused ≢ Refusal.OutOfMemory →
            refusal_to self.old (SortPool pool field) ≡ Some refused) }
        ensures refused { (cause : Refusal) →
            refusal_to self.old (SortPool pool field) ≡ Some cause → result ≡ Err cause }
        ensures packed { OnOk result (Repacks self.old self.new (SortPool pool field)) }
        ensures steps { steps.new ≤ steps.old + length (pool_at self.old.world pool) }
    {
        sorting::sort_pool(&mut self.parts, pool, field, steps)
    }

    /// Puts a group's members in the order of a field of a pool that the group owns or observes, in every
    /// pool that it owns: the walk from the last member to the first ascends by the field's value, and at
    /// equal values by index; what stands behind the members stays. No row changes, and nobody hears of it.
    /// `NoGroup`, `NoPool`, `BadKey`, `HasInner`, in this order, exactly where there is no such group, the
    /// pool is not declared, the group neither owns nor observes it or it has no `int` field of this
    /// number, and a more restrictive group owns one of the group's pools, with the least such group;
    /// `OutOfMemory` where none of these holds, and then all is as before. At most as many steps as the
    /// group has members in its owned pools, beside a sort of their keys, of `n log n` comparisons. Takes
    /// memory. (EnTT: `group.sort<T>(compare)`.)
    pub fn sort_group<G: Ledger>(
        &mut self,
        group: u32,
        pool: u32,
        field: u32,
        steps: &mut Steps<G>,
    ) -> Result<(), Refusal>
        ensures ok { OnOk result (Does self.old self.new (SortGroup group pool field)) }
        ensures err { OnErr result (AsBefore self.old self.new) }
        ensures cause { IfErr result (λ refused. refused ≢ Refusal.OutOfMemory →
            refusal_to self.old (SortGroup group pool field) ≡ Some refused) }
        ensures refused { (cause : Refusal) →
            refusal_to self.old (SortGroup group pool field) ≡ Some cause → result ≡ Err cause }
        ensures packed { OnOk result (Repacks self.old self.new (SortGroup group pool field)) }
        ensures steps { steps.new ≤ steps.old
            + sort_steps self.old.world (group_at self.old.world group) }
    {
        sorting::sort_group(&mut self.parts, group, pool, field, steps)
    }
}
