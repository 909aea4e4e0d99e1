//! Groups added.

ghost use Rattle.std.specs.Prelude.{◌≡◌, ◌≢◌, ◌+◌, ◌≤◌, Some, None, Err, IfOk, IfErr, OnOk, OnErr};
ghost use Rattle.world_model.specs.declared.command.Command.TheVariants.{Group};
ghost use Rattle.world_model.specs.declared.command.Reply.TheVariants.{GroupNumber};
ghost use Rattle.world_model.specs.declared.refusal.Refusal.{Refusal};
ghost use Rattle.world_model.specs.Contents.{group_where};
ghost use Rattle.world_model.specs.Groups.{is_same_group};
ghost use Rattle.registry.specs.Costs.{group_steps};
ghost use Rattle.registry.specs.Held.{Does, AsBefore, reply_to, refusal_to};
ghost use Rattle.registry.specs.Layout.{world_of, held_of, IsKept};
ghost use Rattle.registry.specs.Packing.{Repacks};

use super::Parts;
use super::copying::copy_group;
use super::lawful::know_law;
use group_rules::answers_are_those_of_worlds;
use signal_sink::Listener;
use sparse_set::Steps;
use std::sync::ledger::Ledger;
use world_model::{GroupDecl, Refusal};

// Adds a group, or finds the one with the same lists.
pub fn group<L: Listener, G: Ledger>(
    parts: &mut Parts<L>,
    decl: GroupDecl,
    steps: &mut Steps<G>,
) -> Result<u32, Refusal>
    requires { IsKept parts.old }
    ensures consistent { IsKept parts.new }
    ensures ok { OnOk result (Does (held_of parts.old) (held_of parts.new) (Group decl)) }
    ensures reply { IfOk result (λ number.
        reply_to (held_of parts.old) (Group decl) ≡ GroupNumber number) }
    ensures err { OnErr result (AsBefore (held_of parts.old) (held_of parts.new)) }
    ensures cause { IfErr result (λ refused. refused ≢ Refusal.OutOfMemory →
        refusal_to (held_of parts.old) (Group decl) ≡ Some refused) }
    ensures refused { (cause : Refusal) →
        refusal_to (held_of parts.old) (Group decl) ≡ Some cause → result ≡ Err cause }
    ensures memory { result ≡ Err Refusal.OutOfMemory →
        group_where (world_of parts.old) (is_same_group decl) ≡ None }
    ensures packed { OnOk result (Repacks (held_of parts.old) (held_of parts.new) (Group decl)) }
    ensures steps { steps.new ≤ steps.old + group_steps (world_of parts.old) decl }
{
    know_law(parts);
    answers_are_those_of_worlds();
    parts.groups.build(decl, &mut parts.pools, steps)
}

// The same by a declaration that is lent: it is copied where the group is new.
pub fn group_by_ref<L: Listener, G: Ledger>(
    parts: &mut Parts<L>,
    decl: &GroupDecl,
    steps: &mut Steps<G>,
) -> Result<u32, Refusal>
    requires { IsKept parts.old }
    ensures consistent { IsKept parts.new }
    ensures ok { OnOk result (Does (held_of parts.old) (held_of parts.new) (Group decl.now)) }
    ensures reply { IfOk result (λ number.
        reply_to (held_of parts.old) (Group decl.now) ≡ GroupNumber number) }
    ensures err { OnErr result (AsBefore (held_of parts.old) (held_of parts.new)) }
    ensures cause { IfErr result (λ refused. refused ≢ Refusal.OutOfMemory →
        refusal_to (held_of parts.old) (Group decl.now) ≡ Some refused) }
    ensures refused { (cause : Refusal) →
        refusal_to (held_of parts.old) (Group decl.now) ≡ Some cause → result ≡ Err cause }
    ensures memory { result ≡ Err Refusal.OutOfMemory →
        group_where (world_of parts.old) (is_same_group decl.now) ≡ None }
    ensures packed { OnOk result (Repacks (held_of parts.old) (held_of parts.new) (Group decl.now)) }
    ensures steps { steps.new ≤ steps.old + group_steps (world_of parts.old) decl.now }
{
    answers_are_those_of_worlds();
    match parts.groups.find(decl) {
        Ok(Some(number)) => Ok(number),
        Ok(None) => group_copied(parts, decl, steps),
        Err(refused) => Err(refused),
    }
}

// The same of a declaration that none of the groups has, and that may stand beside them: it is copied.
fn group_copied<L: Listener, G: Ledger>(
    parts: &mut Parts<L>,
    decl: &GroupDecl,
    steps: &mut Steps<G>,
) -> Result<u32, Refusal>
    requires consistent { IsKept parts.old }
    requires accepted { refusal_to (held_of parts.old) (Group decl.now) ≡ None }
    requires new { group_where (world_of parts.old) (is_same_group decl.now) ≡ None }
    ensures consistent { IsKept parts.new }
    ensures ok { OnOk result (Does (held_of parts.old) (held_of parts.new) (Group decl.now)) }
    ensures reply { IfOk result (λ number.
        reply_to (held_of parts.old) (Group decl.now) ≡ GroupNumber number) }
    ensures err { OnErr result (AsBefore (held_of parts.old) (held_of parts.new)) }
    ensures memory { IfErr result (λ refused. refused ≡ Refusal.OutOfMemory) }
    ensures packed { OnOk result (Repacks (held_of parts.old) (held_of parts.new) (Group decl.now)) }
    ensures steps { steps.new ≤ steps.old + group_steps (world_of parts.old) decl.now }
{
    match copy_group(*parts.pools.allocator(), decl) {
        Ok(copied) => group(parts, copied, steps),
        Err(_) => Err(Refusal::OutOfMemory),
    }
}
