ghost use Rattle.std.specs.Prelude.{◌≡◌, ◌<◌, ◌≤◌, ◌^◌, [], ◌∷◌, ◌++◌, length};
ghost use Rattle.pool_view.specs.ViewedSets.{is_viewed, leading_place, walk_of};
ghost use Rattle.sparse_set.specs.PackedSets.{AreDistinct};

use crate::sets::{is_in_all, is_in_one, leading};
use crate::walk::{ViewIter, walk};
use arrayvec::ArrayVec;
use entity_id::Entity;
use sparse_set::SparseSet;
use std::marker::Model;

/// How many sets a view includes at most, and how many it excludes.
pub const SET_LIMIT: u32 = 16;

pub const PLACES: usize = SET_LIMIT as usize;

/// The sets that a walk includes, one at least, and those that it excludes: up to [`SET_LIMIT`] of
/// each sort, kept in place. All are borrowed for one lifetime, which a function that views its
/// parameters names. (EnTT: `entt::basic_view`.)
#[derive(Drop)]
pub struct View<'a> {
    included: ArrayVec<Option<&'a SparseSet>, PLACES>,
    excluded: ArrayVec<Option<&'a SparseSet>, PLACES>,
}

impl<'a> Model for View<'a> {
    ghost use Rattle.std.specs.Prelude.{◌<◌, length};
    ghost use Rattle.pool_view.specs.ViewedSets.{ViewedSets};
    ghost use Rattle.pool_view.specs.HeldSets.{lists_of};

    ghost Value = { ViewedSets };

    ghost view = { λ v. record {
      included = lists_of v.included.items;
      excluded = lists_of v.excluded.items;
    } };

    ghost invariant = { λ v. 0 < length v.included.items };
}

impl<'a> View<'a> {
    /// A view of one set. No memory. (EnTT: the constructor.)
    pub fn new(first: &'a SparseSet) -> View<'a>
        ensures included { result.included ≡ first.entry.now.list ∷ [] }
        ensures excluded { result.excluded ≡ [] }
    {
        let mut included = ArrayVec::new();
        included.push(Some(first));
        View {
            included,
            excluded: ArrayVec::new(),
        }
    }

    /// Includes one set more, where fewer than [`SET_LIMIT`] are included, as [`View::included`] tells.
    /// No memory. (EnTT: a pool that is named in `view<..>`; `operator|` of two views.)
    pub fn include(&mut self, set: &'a SparseSet)
        requires { length self.old.included < SET_LIMIT }
        ensures included { self.new.included ≡ self.old.included ++ set.entry.now.list ∷ [] }
        ensures excluded { self.new.excluded ≡ self.old.excluded }
    {
        self.included.push(Some(set));
    }

    /// Excludes one set more, where fewer than [`SET_LIMIT`] are excluded, as [`View::excluded`] tells.
    /// No memory. (EnTT: a pool that is named in `exclude<..>`.)
    pub fn exclude(&mut self, set: &'a SparseSet)
        requires { length self.old.excluded < SET_LIMIT }
        ensures included { self.new.included ≡ self.old.included }
        ensures excluded { self.new.excluded ≡ self.old.excluded ++ set.entry.now.list ∷ [] }
    {
        self.excluded.push(Some(set));
    }

    /// How many sets are included, which is from 1 to [`SET_LIMIT`]. No memory. (This project's own.)
    pub fn included(&self) -> u32
        ensures len { result ≡ length self.now.included }
        ensures limit { result ≤ SET_LIMIT }
        ensures some { 0 < result }
    {
        self.included.len() as u32
    }

    /// How many sets are excluded, which is at most [`SET_LIMIT`]. No memory. (This project's own.)
    pub fn excluded(&self) -> u32
        ensures len { result ≡ length self.now.excluded }
        ensures limit { result ≤ SET_LIMIT }
    {
        self.excluded.len() as u32
    }

    /// The place of the leading set: of the smallest included set, counted from 0 in the order in which
    /// they were included, and of the first one at a tie. No memory. (EnTT: `handle` gives that set.)
    pub fn leading(&self) -> u32
        ensures place { result ≡ leading_place self.now.included }
        ensures within { result < length self.now.included }
    {
        leading(self.included.as_slice()) as u32
    }

    /// Whether each included set contains an identifier, in index and version, and no excluded one
    /// does: one look-up a set at most. No memory. (EnTT: `contains`.)
    pub fn contains(&self, entity: Entity) -> bool
        ensures { result ≡ is_viewed self.now entity }
    {
        is_in_all(self.included.as_slice(), entity) && !is_in_one(self.excluded.as_slice(), entity)
    }

    /// The identifiers of the leading set that the view contains, from the back to the front: one
    /// look-up an identifier and other set at most. No memory. (EnTT: `begin` and `end`, and `each`.)
    pub fn iter(&self) -> ViewIter<'_>
        ensures walk { result ≡ walk_of self.now }
        ensures each_once { AreDistinct result }
        ensures few { length result < 2 ^ 32 }
    {
        walk(self.included.as_slice(), self.excluded.as_slice())
    }

    /// How many identifiers the walk gives, found by a walk. No memory. (EnTT: `std::distance` of
    /// `begin` and `end`.)
    pub fn count(&self) -> u32
        ensures { result ≡ length (walk_of self.now) }
    {
        self.iter().count() as u32
    }
}
