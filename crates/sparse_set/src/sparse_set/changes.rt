//! The calls that change a set.

ghost use Rattle.std.specs.Prelude.{◌≡◌, ◌≢◌, ◌+◌, ◌-◌, ◌^◌, ◌<◌, ◌≤◌, ◌↔◌, [], ◌∷◌, ◌++◌, length, take, drop, max, Some, false, IsTrue, IsOk, OnOk, OnErr, IfOk, is_ok, if◌then◌else◌};
ghost use Rattle.std.specs.List.{swap};
ghost use Rattle.std.specs.List.Sorted.{IsPermutation};
ghost use Rattle.std.specs.Result.{result_ok};
ghost use Rattle.entity_id.specs.PackedLists.{place_of, swap_popped};
ghost use Rattle.sparse_set.specs.PackedSets.{has_index, AreDistinct};

use super::SparseSet;
use crate::arrange::bring_all;
use crate::pages::PAGE;
use crate::places::{append, exchange, has_index_in, place_in, reserve_packed, take_out};
use crate::refusals::{Absent, PushRefused};
use crate::steps::Steps;
use entity_id::{Entity, OutOfMemory};
use std::sync::ledger::Ledger;

impl SparseSet {
    /// Makes room for at least `n` reserved pushes of indices below `index_bound`, and for no fewer
    /// than before. `OutOfMemory` also where the identifiers would be 2^32 or more, and never where
    /// that room stands. Takes memory. (EnTT: `reserve`.)
    #[tactic(auto, using(crate::proofs::PlaceLemmas::placed_still, crate::proofs::PageLemmas::all_made_still))]
    pub fn reserve(&mut self, n: u32, index_bound: u32) -> Result<(), OutOfMemory>
        ensures list { self.new.list ≡ self.old.list }
        ensures spare { OnOk result (self.new.spare ≡ max self.old.spare n) }
        ensures bound { OnOk result (self.new.index_bound ≡ max self.old.index_bound index_bound) }
        ensures few { OnOk result (length self.new.list + self.new.spare < 2 ^ 32) }
        ensures ready { n ≤ self.old.spare → index_bound ≤ self.old.index_bound → IsOk result }
        ensures err { OnErr result (self.new ≡ self.old) }
    {
        let spare = self.spare.max(n as usize);
        reserve_packed(&mut self.packed, spare)?;
        let bound = self.index_bound.max(index_bound);
        self.pages.make_below(self.index_bound, bound)?;
        self.spare = spare;
        self.index_bound = bound;
        Ok(())
    }

    /// Appends an identifier: one step, and one reserved push less, if any is left. `Present`
    /// exactly where an identifier of its index is contained. `OutOfMemory`, but never where a push
    /// is reserved and the index is below the bound. Takes memory. (EnTT: `emplace`.)
    #[tactic(auto, using(crate::proofs::PlaceLemmas::placed_still, crate::proofs::PageLemmas::all_made_still))]
    pub fn push<G: Ledger>(
        &mut self,
        entity: Entity,
        steps: &mut Steps<G>,
    ) -> Result<(), PushRefused>
        ensures ok { OnOk result (self.new.list ≡ self.old.list ++ entity ∷ []) }
        ensures present { result ≡ Err PushRefused.Present
            ↔ IsTrue (has_index self.old.list entity.index) }
        ensures absent { OnOk result (has_index self.old.list entity.index ≡ false) }
        ensures reserved { 0 < self.old.spare → entity.index < self.old.index_bound
            → result ≢ Err PushRefused.OutOfMemory }
        ensures err { OnErr result (self.new ≡ self.old) }
        ensures spare { OnOk result (self.new.spare ≡ self.old.spare - 1) }
        ensures distinct { AreDistinct self.new.list }
        ensures bound { self.new.index_bound ≡ self.old.index_bound }
        ensures steps { steps.new ≡ steps.old + (if is_ok result then 1 else 0) }
    {
        if has_index_in(&self.packed, &self.pages, entity.index) {
            return Err(PushRefused::Present);
        }
        let spare = self.spare.max(1);
        if self.pages.make(entity.index / PAGE).is_err()
            || reserve_packed(&mut self.packed, spare).is_err()
        {
            return Err(PushRefused::OutOfMemory);
        }
        self.spare = spare - 1;
        append(&mut self.packed, &mut self.pages, entity);
        steps.tick();
        Ok(())
    }

    /// Appends an identifier below the bound whose index isn't contained, by a reserved push: one
    /// step. No memory. (EnTT: `emplace` after `reserve`.)
    pub fn push_reserved<G: Ledger>(&mut self, entity: Entity, steps: &mut Steps<G>)
        requires absent { has_index self.old.list entity.index ≡ false }
        requires spare { 0 < self.old.spare }
        requires bound { entity.index < self.old.index_bound }
        ensures list { self.new.list ≡ self.old.list ++ entity ∷ [] }
        ensures spare { self.new.spare + 1 ≡ self.old.spare }
        ensures distinct { AreDistinct self.new.list }
        ensures bound { self.new.index_bound ≡ self.old.index_bound }
        ensures steps { steps.new ≡ steps.old + 1 }
    {
        self.spare -= 1;
        append(&mut self.packed, &mut self.pages, entity);
        steps.tick();
    }

    /// Exchanges the identifiers at two places below [`SparseSet::len`]: one step. No memory.
    /// (EnTT: `swap_elements`.)
    pub fn swap_at<G: Ledger>(&mut self, a: u32, b: u32, steps: &mut Steps<G>)
        requires a { a < length self.old.list }
        requires b { b < length self.old.list }
        ensures list { self.new.list ≡ swap self.old.list a b }
        ensures spare { self.new.spare ≡ self.old.spare }
        ensures distinct { AreDistinct self.new.list }
        ensures bound { self.new.index_bound ≡ self.old.index_bound }
        ensures steps { steps.new ≡ steps.old + 1 }
    {
        exchange(&mut self.packed, &mut self.pages, a, b);
        steps.tick();
    }

    /// Takes an identifier out and answers its place, which the last identifier takes: one step,
    /// and one reserved push more. `Absent` exactly where it isn't contained. No memory. (EnTT:
    /// `remove` under `deletion_policy::swap_and_pop`.)
    pub fn swap_pop<G: Ledger>(
        &mut self,
        entity: Entity,
        steps: &mut Steps<G>,
    ) -> Result<u32, Absent>
        ensures place { result_ok result ≡ place_of self.old.list entity }
        ensures ok { IfOk result (λ place. self.new.list ≡ swap_popped self.old.list place) }
        ensures spare { OnOk result (self.new.spare ≡ self.old.spare + 1) }
        ensures err { OnErr result (self.new ≡ self.old) }
        ensures distinct { AreDistinct self.new.list }
        ensures bound { self.new.index_bound ≡ self.old.index_bound }
        ensures steps { steps.new ≡ steps.old + (if is_ok result then 1 else 0) }
    {
        let Some(place) = place_in(&self.packed, &self.pages, entity) else {
            return Err(Absent);
        };
        take_out(&mut self.packed, &mut self.pages, place);
        self.spare += 1;
        steps.tick();
        Ok(place)
    }

    /// Takes all identifiers out, each of which leaves one reserved push more: no step. No memory.
    /// (EnTT: `clear`.)
    pub fn clear(&mut self)
        ensures list { self.new.list ≡ [] }
        ensures spare { self.new.spare ≡ self.old.spare + length self.old.list }
        ensures bound { self.new.index_bound ≡ self.old.index_bound }
    {
        self.spare += self.packed.len();
        self.packed.clear();
    }

    /// Puts the identifiers of `order`, which are as many first ones, at the first places in this
    /// order: at most one step each. No memory. (EnTT: the exchanges of `sort_n` and `respect`.)
    pub fn arrange<G: Ledger>(&mut self, order: &[Entity], steps: &mut Steps<G>)
        requires { IsPermutation order.now (take (length order.now) self.old.list) }
        ensures list { self.new.list ≡ order.now ++ drop (length order.now) self.old.list }
        ensures spare { self.new.spare ≡ self.old.spare }
        ensures distinct { AreDistinct self.new.list }
        ensures bound { self.new.index_bound ≡ self.old.index_bound }
        ensures steps { steps.new ≤ steps.old + length order.now }
    {
        let len = self.packed.len() as u32;
        bring_all(self, len, order, steps);
    }
}
