//! A group sorted.

ghost use Rattle.std.specs.Prelude.{◌≡◌, ◌↔◌, ◌+◌, ◌*◌, ◌<◌, ◌≤◌, ℕ, length, Some, OnOk, OnErr, Err};
ghost use Rattle.sparse_set.specs.WalkOrders.{IsWalkOrder};
ghost use Rattle.group_engine.specs.Grouped.{packed_of, cores_of, AreGrouped, AreArranged};
ghost use Rattle.group_engine.specs.Engine.{decl_at, len_at, prefix_at, inner_in};

use super::GroupEngine;
use crate::refused::SortRefused;
use crate::searching::inner;
use crate::sorting;
use sparse_set::Steps;
use std::sync::ledger::Ledger;
use storage::Storage;

impl GroupEngine {
    /// Sorts the members of a group below [`GroupEngine::len`] in all its owned pools, by the key at the
    /// place of each: the walk from the last to the first ascends by key, and at equal keys by index.
    /// `HasInner` exactly where another group is inner to this one, with the least such; `OutOfMemory`,
    /// where none is. What stands behind the members stays there, and so do all other pools. No pool's
    /// map, room or bound changes, and after a refusal nothing does. At most as many steps as it has
    /// members in its owned pools. Takes memory. (EnTT: `group.sort`.)
    pub fn sort_group<T: Copy, G: Ledger>(
        &self,
        pools: &mut [Storage<T>],
        group: u32,
        keys: &[i64],
        steps: &mut Steps<G>,
    ) -> Result<(), SortRefused>
        requires group { group < length self.now.decls }
        requires keys { length keys.now ≡ len_at self.now group }
        requires pools { length pools.old ≡ self.now.pools }
        requires grouped { AreGrouped self.now.decls self.now.lens (packed_of pools.old) }
        ensures order { OnOk result (IsWalkOrder keys.now
            (prefix_at self.now (packed_of pools.old) group)
            (prefix_at self.now (packed_of pools.new) group)) }
        ensures arranged { OnOk result (AreArranged (decl_at self.now group).own
            (prefix_at self.now (packed_of pools.new) group) (packed_of pools.old) (packed_of pools.new)) }
        ensures has_inner { (with : ℕ) → (result ≡ Err (SortRefused.HasInner with))
            ↔ (inner_in self.now.decls (decl_at self.now group) ≡ Some with) }
        ensures err { OnErr result (pools.new ≡ pools.old) }
        ensures grouped { AreGrouped self.now.decls self.now.lens (packed_of pools.new) }
        ensures cores { cores_of pools.new ≡ cores_of pools.old }
        ensures steps { steps.new
            ≤ steps.old + length (decl_at self.now group).own * len_at self.now group }
    {
        if let Some(with) = inner(self.family.as_slice(), self.family.decl(group)) {
            return Err(SortRefused::HasInner { with });
        }
        let sorted = sorting::sort_group(
            self.family.as_slice(),
            &self.lens,
            pools,
            group,
            keys,
            steps,
        );
        if sorted.is_err() {
            return Err(SortRefused::OutOfMemory);
        }
        Ok(())
    }
}
