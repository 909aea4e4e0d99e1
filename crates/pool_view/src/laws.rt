//! Laws of views, whoever computes them. Each function does nothing: its contract is the law.

ghost use Rattle.std.specs.Prelude.{◌≡◌, ℕ, ◌<◌, ◌≤◌, List, [], ◌∷◌, length, slice_get, slice_index_or, Some};
ghost use Rattle.std.specs.List.Sorted.{IsPermutation};
ghost use Rattle.entity_id.specs.declared.entity.Entity.{Entity};
ghost use Rattle.entity_id.specs.Matching.{is_match, matches};
ghost use Rattle.sparse_set.specs.PackedSets.{contains, AreDistinct};
ghost use Rattle.pool_view.specs.ViewedSets.{ViewedSets, is_viewed, leading_place, leading_set, walk_of};
ghost use Rattle.pool_view.specs.ViewedPools.{ViewsPools};

/// The leading one of some sets is one of them; none of them is smaller, and those before it are
/// larger. No memory. (EnTT: a view is led by its smallest pool.)
pub fn leading_is_the_first_smallest()
    ensures within { (sets : List (List Entity)) → 0 < length sets →
        slice_get sets (leading_place sets) ≡ Some (leading_set sets) }
    ensures smallest { (sets : List (List Entity)) (place : ℕ) (set : List Entity) →
        slice_get sets place ≡ Some set → length (leading_set sets) ≤ length set }
    ensures first { (sets : List (List Entity)) (place : ℕ) (set : List Entity) →
        place < leading_place sets → slice_get sets place ≡ Some set →
        length (leading_set sets) < length set }
{}

/// A walk gives each identifier that the view contains, and no other; and no index twice, where the
/// leading set has none twice. No memory. (EnTT: what `each` of a view visits.)
pub fn walks_are_exact()
    ensures exact { (view : ViewedSets) (entity : Entity) → 0 < length view.included →
        contains (walk_of view) entity ≡ is_viewed view entity }
    ensures each_once { (view : ViewedSets) → AreDistinct (leading_set view.included) →
        AreDistinct (walk_of view) }
{}

/// A view of pools contains the identifiers that are in all of the included ones and in none of the
/// excluded ones, and walks exactly these, each once, whatever the packed orders are. No memory.
/// (EnTT: the entities that `registry.view<..>(entt::exclude<..>)` visits.)
pub fn views_of_pools_match()
    ensures contained { (maps : List (List Entity)) (all none : List ℕ) (view : ViewedSets)
        (entity : Entity) → ViewsPools maps all none view →
        is_viewed view entity ≡ is_match maps all none entity }
    ensures walked { (maps : List (List Entity)) (first : ℕ) (rest none : List ℕ)
        (view : ViewedSets) → ViewsPools maps (first ∷ rest) none view →
        ((pool : ℕ) → AreDistinct (slice_index_or maps pool [])) →
        IsPermutation (walk_of view) (matches maps (first ∷ rest) none) }
{}
