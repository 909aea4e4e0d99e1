//! Laws of groups in packed pools. Each function does nothing: its contract is the law.

ghost use Rattle.std.specs.Prelude.{◌≡◌, ℕ, ◌<◌, ◌++◌, ◌∷◌, [], List, length, set, slice_get, Some, None, false, IfSome, IsPermutation};
ghost use Rattle.entity_id.specs.declared.entity.Entity.{Entity};
ghost use Rattle.entity_id.specs.FiniteMap as entries;
ghost use Rattle.entity_id.specs.PackedLists.{place_of, swap_popped};
ghost use Rattle.storage.specs.Stored.{Stored};
ghost use Rattle.world_model.specs.declared.group.GroupDecl.{GroupDecl};
ghost use Rattle.world_model.specs.Groups.{packed_at, ArePackedListsOf, IsPacked, IsLawfulGroup, AreLawfulGroups};
ghost use Rattle.group_engine.specs.Grouped.{packed_of, IsGrouped, AreGrouped, WereGrouped, AreGroupedWithout};
ghost use Rattle.group_engine.specs.Engine.{owner_of};

/// A group that is checked place by place is the group that is meant: each of its owned packed lists
/// begins with all its members, in one common order, and these are the identifiers that match in the maps.
/// No memory. (EnTT: what a group's iteration rests on.)
pub fn groups_are_lawful()
    ensures packed { (packed : List (List Entity)) (decl : GroupDecl) (count : ℕ) →
        0 < length decl.own → IsGrouped packed decl count → IsPacked packed decl count }
    ensures lawful { (maps packed : List (List Entity)) (decl : GroupDecl) (count : ℕ) →
        ArePackedListsOf maps packed → 0 < length decl.own →
        IsGrouped packed decl count → IsLawfulGroup maps packed decl count }
    ensures each { (pools : ℕ) (maps packed : List (List Entity)) (decls : List GroupDecl) (lens : List ℕ)
        (group : ℕ) (decl : GroupDecl) (count : ℕ) → AreLawfulGroups pools decls →
        ArePackedListsOf maps packed → AreGrouped decls lens packed →
        slice_get decls group ≡ Some decl → slice_get lens group ≡ Some count →
        IsLawfulGroup maps packed decl count }
{}

/// What a change of one pool makes of groups in packed pools: an identifier appended to it leaves the groups
/// of before, and one erased from it the groups that were prepared for that; where its identifiers stay in
/// their places the groups stay, and where they come into another order and no group owns the pool; and one
/// emptied leaves the groups that were prepared for that. No memory. (This project's own.)
pub fn groups_after_changes<T>(_values: &[T])
    ensures appended { (decls : List GroupDecl) (lens : List ℕ) (pools : List (Stored T)) (pool : ℕ)
        (old new : Stored T) (entity : Entity) → slice_get pools pool ≡ Some old →
        AreGrouped decls lens (packed_of pools) →
        entries.keys new.pairs ≡ entries.keys old.pairs ++ entity ∷ [] →
        entries.has_index old.pairs entity.index ≡ false →
        WereGrouped decls lens (packed_of (set pools pool new)) entity pool }
    ensures erased { (decls : List GroupDecl) (lens : List ℕ) (pools : List (Stored T)) (pool : ℕ)
        (old new : Stored T) (entity : Entity) → slice_get pools pool ≡ Some old →
        AreGroupedWithout decls lens (packed_of pools) entity pool →
        IfSome (place_of (entries.keys old.pairs) entity) (λ place.
        entries.keys new.pairs ≡ swap_popped (entries.keys old.pairs) place) →
        AreGrouped decls lens (packed_of (set pools pool new)) }
    ensures values { (decls : List GroupDecl) (lens : List ℕ) (pools : List (Stored T)) (pool : ℕ)
        (old new : Stored T) → slice_get pools pool ≡ Some old →
        AreGrouped decls lens (packed_of pools) →
        entries.keys new.pairs ≡ entries.keys old.pairs →
        AreGrouped decls lens (packed_of (set pools pool new)) }
    ensures order { (decls : List GroupDecl) (lens : List ℕ) (packed : List (List Entity)) (pool : ℕ)
        (list : List Entity) → AreGrouped decls lens packed → owner_of decls pool ≡ None →
        pool < length packed → IsPermutation (packed_at packed pool) list →
        AreGrouped decls lens (set packed pool list) }
    ensures emptied { (decls : List GroupDecl) (lens : List ℕ) (pools : List (Stored T)) (pool : ℕ)
        (new : Stored T) → AreGrouped decls lens (set (packed_of pools) pool []) → new.pairs ≡ [] →
        AreGrouped decls lens (packed_of (set pools pool new)) }
{}
