//! The calls that change a storage.

ghost use Rattle.std.specs.Prelude.{◌≡◌, ◌≢◌, ◌+◌, ◌-◌, ◌^◌, ◌<◌, ◌≤◌, ◌↔◌, [], ◌∷◌, ◌++◌, length, take, drop, max, Some, false, IsTrue, IsOk, OnOk, OnErr, IfSome, is_ok, if◌then◌else◌};
ghost use Rattle.std.specs.List.{swap};
ghost use Rattle.std.specs.List.Sorted.{IsPermutation};
ghost use Rattle.std.specs.Result.{result_ok};
ghost use Rattle.entity_id.specs.FiniteMap as entries;
ghost use Rattle.entity_id.specs.PackedLists.{place_of, swap_popped};
ghost use Rattle.storage.specs.Changed.{in_order};

use super::Storage;
use crate::arrange::bring_all;
use entity_id::{Entity, OutOfMemory};
use sparse_set::{Absent, PushRefused, Steps};
use std::sync::ledger::Ledger;

impl<T: Copy> Storage<T> {
    /// Makes room for at least `n` reserved pairs of indices below `index_bound`, and for no fewer
    /// than before. `OutOfMemory` also where the pairs would be 2^32 or more, and never where that
    /// room stands. Takes memory. (EnTT: `reserve`.)
    pub fn reserve(&mut self, n: u32, index_bound: u32) -> Result<(), OutOfMemory>
        ensures pairs { self.new.pairs ≡ self.old.pairs }
        ensures spare { OnOk result (self.new.spare ≡ max self.old.spare n) }
        ensures bound { OnOk result (self.new.index_bound ≡ max self.old.index_bound index_bound) }
        ensures few { OnOk result (length self.new.pairs + self.new.spare < 2 ^ 32) }
        ensures ready { n ≤ self.old.spare → index_bound ≤ self.old.index_bound → IsOk result }
        ensures err { OnErr result (self.new ≡ self.old) }
    {
        let spare = self.index.spare().max(n);
        if self.values.reserve(spare as usize).is_err() {
            return Err(OutOfMemory);
        }
        self.index.reserve(n, index_bound)
    }

    /// Appends an identifier with its value: one step, and one reserved pair less, if any is left.
    /// `Present` exactly where an identifier of its index has a value. `OutOfMemory`, but never where
    /// a pair is reserved and the index is below the bound. Takes memory. (EnTT: `emplace`.)
    pub fn emplace<G: Ledger>(
        &mut self,
        entity: Entity,
        value: T,
        steps: &mut Steps<G>,
    ) -> Result<(), PushRefused>
        ensures ok { OnOk result (self.new.pairs ≡ self.old.pairs ++ (entity, value) ∷ []) }
        ensures keys { OnOk result
            (entries.keys self.new.pairs ≡ entries.keys self.old.pairs ++ entity ∷ []) }
        ensures map { OnOk result (entries.map_of self.new.pairs
            ≡ entries.put (entries.map_of self.old.pairs) entity value) }
        ensures present { result ≡ Err PushRefused.Present
            ↔ IsTrue (entries.has_index self.old.pairs entity.index) }
        ensures absent { OnOk result (entries.has_index self.old.pairs entity.index ≡ false) }
        ensures reserved { 0 < self.old.spare → entity.index < self.old.index_bound
            → result ≢ Err PushRefused.OutOfMemory }
        ensures err { OnErr result (self.new ≡ self.old) }
        ensures spare { OnOk result (self.new.spare ≡ self.old.spare - 1) }
        ensures bound { self.new.index_bound ≡ self.old.index_bound }
        ensures steps { steps.new ≡ steps.old + (if is_ok result then 1 else 0) }
    {
        if self.index.has_index(entity.index) {
            return Err(PushRefused::Present);
        }
        if self.values.reserve(1).is_err() {
            return Err(PushRefused::OutOfMemory);
        }
        if let Err(refused) = self.index.push(entity, steps) {
            return Err(refused);
        }
        let _ = self.values.push(value);
        Ok(())
    }

    /// Appends an identifier below the bound with its value, where no identifier of its index has
    /// one: one step, and one reserved pair less. No memory. (EnTT: `emplace` after `reserve`.)
    pub fn emplace_reserved<G: Ledger>(&mut self, entity: Entity, value: T, steps: &mut Steps<G>)
        requires absent { entries.has_index self.old.pairs entity.index ≡ false }
        requires spare { 0 < self.old.spare }
        requires bound { entity.index < self.old.index_bound }
        ensures pairs { self.new.pairs ≡ self.old.pairs ++ (entity, value) ∷ [] }
        ensures keys { entries.keys self.new.pairs ≡ entries.keys self.old.pairs ++ entity ∷ [] }
        ensures map { entries.map_of self.new.pairs
            ≡ entries.put (entries.map_of self.old.pairs) entity value }
        ensures spare { self.new.spare + 1 ≡ self.old.spare }
        ensures bound { self.new.index_bound ≡ self.old.index_bound }
        ensures steps { steps.new ≡ steps.old + 1 }
    {
        self.index.push_reserved(entity, steps);
        let _ = self.values.push(value);
    }

    /// Sets the value of an identifier. `Absent` exactly where it has none. No memory. (EnTT:
    /// `patch`.)
    pub fn set(&mut self, entity: Entity, value: T) -> Result<(), Absent>
        ensures pairs { self.new.pairs ≡ entries.with_value self.old.pairs entity value }
        ensures keys { entries.keys self.new.pairs ≡ entries.keys self.old.pairs }
        ensures map { OnOk result (entries.map_of self.new.pairs
            ≡ entries.put (entries.map_of self.old.pairs) entity value) }
        ensures ok { is_ok result ≡ entries.contains self.old.pairs entity }
        ensures err { OnErr result (self.new ≡ self.old) }
        ensures spare { self.new.spare ≡ self.old.spare }
        ensures bound { self.new.index_bound ≡ self.old.index_bound }
    {
        match self.index.index_of(entity) {
            Some(place) => {
                self.values[place as usize] = value;
                Ok(())
            }
            None => Err(Absent),
        }
    }

    /// Takes an identifier out and answers its value: the last pair takes its place. One step, and
    /// one reserved pair more. `Absent` exactly where it has no value. No memory. (EnTT: `erase`.)
    pub fn erase<G: Ledger>(&mut self, entity: Entity, steps: &mut Steps<G>) -> Result<T, Absent>
        ensures value { result_ok result ≡ entries.get self.old.pairs entity }
        ensures pairs { IfSome (place_of (entries.keys self.old.pairs) entity) (λ place.
            self.new.pairs ≡ swap_popped self.old.pairs place) }
        ensures keys { IfSome (place_of (entries.keys self.old.pairs) entity) (λ place.
            entries.keys self.new.pairs ≡ swap_popped (entries.keys self.old.pairs) place) }
        ensures map { entries.map_of self.new.pairs
            ≡ entries.remove (entries.map_of self.old.pairs) entity }
        ensures held { is_ok result ≡ entries.contains (entries.map_of self.old.pairs) entity }
        ensures len { OnOk result (length self.new.pairs + 1 ≡ length self.old.pairs) }
        ensures spare { OnOk result (self.new.spare ≡ self.old.spare + 1) }
        ensures err { OnErr result (self.new ≡ self.old) }
        ensures bound { self.new.index_bound ≡ self.old.index_bound }
        ensures steps { steps.new ≡ steps.old + (if is_ok result then 1 else 0) }
    {
        let Ok(place) = self.index.swap_pop(entity, steps) else {
            return Err(Absent);
        };
        Ok(self.values.swap_remove(place as usize))
    }

    /// Takes all pairs out, each of which leaves one reserved pair more: no step. No memory. (EnTT:
    /// `clear`.)
    pub fn clear(&mut self)
        ensures pairs { self.new.pairs ≡ [] }
        ensures spare { self.new.spare ≡ self.old.spare + length self.old.pairs }
        ensures bound { self.new.index_bound ≡ self.old.index_bound }
    {
        self.index.clear();
        self.values.clear();
    }

    /// Exchanges the pairs at two places below [`Storage::len`]: one step. No memory. (EnTT:
    /// `swap_elements`.)
    pub fn swap_at<G: Ledger>(&mut self, a: u32, b: u32, steps: &mut Steps<G>)
        requires a { a < length self.old.pairs }
        requires b { b < length self.old.pairs }
        ensures pairs { self.new.pairs ≡ swap self.old.pairs a b }
        ensures keys { entries.keys self.new.pairs ≡ swap (entries.keys self.old.pairs) a b }
        ensures map { entries.map_of self.new.pairs ≡ entries.map_of self.old.pairs }
        ensures spare { self.new.spare ≡ self.old.spare }
        ensures bound { self.new.index_bound ≡ self.old.index_bound }
        ensures steps { steps.new ≡ steps.old + 1 }
    {
        self.index.swap_at(a, b, steps);
        self.values.swap(a as usize, b as usize);
    }

    /// Puts the identifiers of `order`, which are as many first ones, at the first places in this
    /// order, each with its value: at most one step each. No memory. (EnTT: the exchanges of
    /// `sort_n` and `respect`.)
    pub fn arrange<G: Ledger>(&mut self, order: &[Entity], steps: &mut Steps<G>)
        requires { IsPermutation order.now (take (length order.now) (entries.keys self.old.pairs)) }
        ensures pairs { self.new.pairs
            ≡ in_order order.now self.old.pairs ++ drop (length order.now) self.old.pairs }
        ensures keys { entries.keys self.new.pairs
            ≡ order.now ++ drop (length order.now) (entries.keys self.old.pairs) }
        ensures map { entries.map_of self.new.pairs ≡ entries.map_of self.old.pairs }
        ensures spare { self.new.spare ≡ self.old.spare }
        ensures bound { self.new.index_bound ≡ self.old.index_bound }
        ensures steps { steps.new ≤ steps.old + length order.now }
    {
        let len = self.index().len();
        bring_all(self, len, order, steps);
    }
}
