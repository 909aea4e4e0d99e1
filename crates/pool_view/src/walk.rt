//! The walk of a view.

ghost use Rattle.std.specs.Prelude.{◌≡◌, ◌<◌, ◌≤◌, ◌^◌, length};
ghost use Rattle.std.specs.Iterator.{YieldsFirst, item_count};
ghost use Rattle.sparse_set.specs.PackedSets.{AreDistinct};
ghost use Rattle.pool_view.specs.ViewedSets.{walk_of};
ghost use Rattle.pool_view.specs.HeldSets.{is_viewed_beside, lists_of};

use crate::sets::{is_in_all, is_in_one, leading, packed_at};
use crate::view::PLACES;
use entity_id::Entity;
use sparse_set::SparseSet;
use std::marker::Model;

/// A walk of a [`View`], which it borrows. A contract sees it as the list of the identifiers that it
/// has left, in its order. (EnTT: the iterators of a view.)
///
/// [`View`]: crate::View
#[derive(Drop)]
pub struct ViewIter<'a> {
    // What the walk has left of the leading set, of which the last one is next.
    rest: &'a [Entity],
    // The other included sets: those named before the leading one, and those named behind it.
    before: &'a [Option<&'a SparseSet>],
    behind: &'a [Option<&'a SparseSet>],
    excluded: &'a [Option<&'a SparseSet>],
}

impl<'a> Model for ViewIter<'a> {
    ghost use Rattle.std.specs.Prelude.{List, filter, reverse};
    ghost use Rattle.entity_id.specs.declared.entity.Entity.{Entity};
    ghost use Rattle.pool_view.specs.HeldSets.{is_viewed_beside, lists_of};

    ghost Value = { List Entity };

    ghost view = { λ a. filter (is_viewed_beside (lists_of a.before.now) (lists_of a.behind.now)
        (lists_of a.excluded.now)) (reverse a.rest.now) };
}

impl<'a> Iterator for ViewIter<'a> {
    type Item = Entity;

    ghost next_gives = { YieldsFirst (λ left. left) };

    ghost remaining = { item_count (λ left. left) };

    /// The next identifier, `None` exactly where none is left. No memory.
    #[tactic(auto, using(crate::proofs::WalkLemmas::walk_skips, crate::proofs::WalkLemmas::walk_gives))]
    fn next(&mut self) -> Option<Entity> {
        let mut rest = self.rest;
        while let Some((last, front)) = rest.split_last() {
            rest = front;
            if is_viewed_beside(self.before, self.behind, self.excluded, *last) {
                self.rest = rest;
                return Some(*last);
            }
        }
        self.rest = rest;
        None
    }
}

// The walk of a view of these sets.
pub fn walk<'a>(
    included: &'a [Option<&'a SparseSet>],
    excluded: &'a [Option<&'a SparseSet>],
) -> ViewIter<'a>
    requires some { 0 < length included.now }
    requires limit { length included.now ≤ PLACES }
    ensures walk { result ≡ walk_of (record {
      included = lists_of included.now;
      excluded = lists_of excluded.now;
    }) }
    ensures each_once { AreDistinct result }
    ensures few { length result < 2 ^ 32 }
{
    let lead = leading(included);
    let (before, _) = included.split_at(lead);
    let (_, behind) = included.split_at(lead + 1);
    ViewIter {
        rest: packed_at(&included[lead]),
        before,
        behind,
        excluded,
    }
}

// Whether an identifier of the leading set is viewed: it need not be asked for.
fn is_viewed_beside(
    before: &[Option<&SparseSet>],
    behind: &[Option<&SparseSet>],
    excluded: &[Option<&SparseSet>],
    entity: Entity,
) -> bool
    ensures { result ≡ is_viewed_beside (lists_of before.now) (lists_of behind.now)
        (lists_of excluded.now) entity }
{
    is_in_all(before, entity) && is_in_all(behind, entity) && !is_in_one(excluded, entity)
}
