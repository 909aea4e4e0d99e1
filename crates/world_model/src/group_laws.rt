//! Laws of matches, of groups in packed lists, and of rows in the order of a field. Each function does
//! nothing: its contract is the law.

ghost use Rattle.std.specs.Prelude.{◌≡◌, ℕ, ◌<◌, ◌≤◌, List, [], ◌++◌, length, take, slice_index_or, IsTrue, IsFalse, AllPairs, IsPermutation};
ghost use Rattle.entity_id.specs.declared.entity.Entity.{Entity};
ghost use Rattle.entity_id.specs.FiniteMap.{AreAscending, HasEachOnce, keys};
ghost use Rattle.entity_id.specs.Matching.{matches};
ghost use Rattle.world_model.specs.declared.component.Row.{Row};
ghost use Rattle.world_model.specs.declared.group.GroupDecl.{GroupDecl};
ghost use Rattle.world_model.specs.declared.world.World.{World};
ghost use Rattle.world_model.specs.Contents.{keys_of, group_at, pool_at};
ghost use Rattle.world_model.specs.Groups.{is_inner, has_pool, group_prefix, packed_at, members, ArePackedListsOf, IsLawfulGroup, IsPacked};
ghost use Rattle.world_model.specs.Outcomes.{member_rows};
ghost use Rattle.world_model.specs.Sorting.{is_before, rows_by_field};
ghost use Rattle.world_model.specs.Worlds.{IsLawful};

/// In a lawful world the identifiers of each component, of each view and of each group are listed in
/// ascending index. No memory. (This project's own: EnTT's order is that of a pool.)
pub fn lists_ascend()
    ensures components { (limit : ℕ) (w : World) (pool : ℕ) → IsLawful limit w →
        AreAscending (slice_index_or (keys_of w) pool []) }
    ensures views { (limit : ℕ) (w : World) (all without : List ℕ) → IsLawful limit w →
        AreAscending (matches (keys_of w) all without) }
    ensures groups { (limit : ℕ) (w : World) (group : ℕ) → IsLawful limit w →
        AreAscending (members (keys_of w) (group_at w group)) }
{}

/// A group that owns a pool is lawful in packed lists exactly where it is packed in them: the form that
/// computes, from the lists alone, says what the form over the maps says that they hold in some order.
/// No memory. (This project's own.)
pub fn packed_groups()
    ensures lawful { (maps packed : List (List Entity)) (decl : GroupDecl) (count : ℕ) →
        ArePackedListsOf maps packed → 0 < length decl.own →
        IsPacked packed decl count → IsLawfulGroup maps packed decl count }
    ensures packed { (maps packed : List (List Entity)) (decl : GroupDecl) (count : ℕ) →
        ArePackedListsOf maps packed → 0 < length decl.own →
        IsLawfulGroup maps packed decl count → IsPacked packed decl count }
{}

/// Two lawful groups of which one is inner to the other, which owns a pool: the inner group is not
/// longer, its identifiers are the first of the outer group's, in the same order, and so they stand in
/// each pool that both own. No memory. (EnTT: nested groups, as a full-owning group beside a partial
/// one.)
pub fn nested_groups()
    ensures shorter { (maps packed : List (List Entity)) (inner outer : GroupDecl) (m n : ℕ) →
        ArePackedListsOf maps packed → IsTrue (is_inner inner outer) → 0 < length outer.own →
        IsLawfulGroup maps packed inner m → IsLawfulGroup maps packed outer n → m ≤ n }
    ensures front { (maps packed : List (List Entity)) (inner outer : GroupDecl) (m n : ℕ) →
        ArePackedListsOf maps packed → IsTrue (is_inner inner outer) → 0 < length outer.own →
        IsLawfulGroup maps packed inner m → IsLawfulGroup maps packed outer n →
        group_prefix packed inner m ≡ take m (group_prefix packed outer n) }
    ensures pools { (maps packed : List (List Entity)) (inner outer : GroupDecl) (m n : ℕ) →
        ArePackedListsOf maps packed → IsTrue (is_inner inner outer) →
        IsLawfulGroup maps packed inner m → IsLawfulGroup maps packed outer n →
        (pool : ℕ) → IsTrue (has_pool outer.own pool) →
        take m (packed_at packed pool) ≡ take m (take n (packed_at packed pool)) }
{}

/// The rows by a field are the same rows in another order: no row comes before one that stands in front
/// of it, by the field and then by the index; and where no index comes twice, each row comes before all
/// behind it. No memory. (EnTT: what `storage.sort` makes of a pool.)
pub fn rows_are_sorted()
    ensures permuted { (field : ℕ) (rows : List (Entity × Row)) →
        IsPermutation rows (rows_by_field field rows) }
    ensures in_order { (field : ℕ) (rows : List (Entity × Row)) →
        AllPairs (λ earlier later. IsFalse (is_before field later earlier))
        (rows_by_field field rows) }
    ensures ascending { (field : ℕ) (rows : List (Entity × Row)) → HasEachOnce rows →
        AllPairs (λ earlier later. IsTrue (is_before field earlier later))
        (rows_by_field field rows) }
{}

/// What sorts list: of a component each of its identifiers, and in a lawful world of a group, by a field
/// of a component that it owns or observes, each of its members. There no index comes twice, so each
/// row comes before all behind it. No memory. (EnTT: the order after `registry.sort` and `group.sort`.)
pub fn sorts_are_whole()
    ensures component { (w : World) (pool field : ℕ) →
        IsPermutation (slice_index_or (keys_of w) pool [])
        (keys (rows_by_field field (pool_at w pool))) }
    ensures group { (limit : ℕ) (w : World) (decl : GroupDecl) (pool field : ℕ) →
        IsLawful limit w → IsTrue (has_pool (decl.own ++ decl.get) pool) →
        IsPermutation (members (keys_of w) decl)
        (keys (rows_by_field field (member_rows w decl pool))) }
    ensures component_order { (limit : ℕ) (w : World) (pool field : ℕ) → IsLawful limit w →
        AllPairs (λ earlier later. IsTrue (is_before field earlier later))
        (rows_by_field field (pool_at w pool)) }
    ensures group_order { (limit : ℕ) (w : World) (decl : GroupDecl) (pool field : ℕ) →
        IsLawful limit w →
        AllPairs (λ earlier later. IsTrue (is_before field earlier later))
        (rows_by_field field (member_rows w decl pool)) }
{}
