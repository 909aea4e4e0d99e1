//! Laws of how groups stand to each other, and of families of them. Each function does nothing: its
//! contract is the law.

ghost use Rattle.std.specs.Prelude.{◌≡◌, ◌≢◌, ◌↔◌, ℕ, ◌<◌, ◌≤◌, List, [], ◌∷◌, take, length, slice_get, Some, None, IsTrue, IsFalse};
ghost use Rattle.std.specs.List.{AllByRecursion};
ghost use Rattle.std.specs.Option.{option_map, option_or};
ghost use Rattle.entity_id.specs.FiniteMap.{AreDistinctBy};
ghost use Rattle.world_model.specs.declared.command.Command.TheVariants.{Group};
ghost use Rattle.world_model.specs.declared.command.Reply.TheVariants.{GroupNumber};
ghost use Rattle.world_model.specs.declared.group.GroupDecl.{GroupDecl};
ghost use Rattle.world_model.specs.declared.world.World.{World};
ghost use Rattle.world_model.specs.Groups.{has_pool, is_inner, is_apart, is_well_formed, are_declared, group_pools, group_pool_limit, AreLawfulGroups};
ghost use Rattle.world_model.specs.Outcomes.{answers, outcome_of};
ghost use Rattle.world_model.specs.Refusing.{refusal_of};
ghost use Rattle.group_rules.specs.declared.relation.Relation.{Relation};
ghost use Rattle.group_rules.specs.Families.{relation_of, mirrored, Stands, StandsBeside, decl_refusal, AreLawfulTogether, same_in, add_refusal, number_of, groups_with};
ghost use Rattle.group_rules.specs.Refusals.{of_decl, of_family};

/// Of two groups that own a pool each, exactly one relation holds, and it is the one that is answered;
/// seen from the other group it is the mirrored one. No memory. (This project's own.)
pub fn relations_of_groups()
    ensures one { (a b : GroupDecl) (relation : Relation) → 0 < length a.own → 0 < length b.own →
        (relation_of a b ≡ relation) ↔ Stands relation a b }
    ensures mirror { (a b : GroupDecl) → relation_of b a ≡ mirrored (relation_of a b) }
{}

/// A group is inner to itself, and one that is inner to an inner group is inner to the outer one. No
/// memory. (This project's own.)
pub fn inner_groups_nest()
    ensures itself { (a : GroupDecl) → IsTrue (is_inner a a) }
    ensures chain { (a b c : GroupDecl) →
        IsTrue (is_inner a b) → IsTrue (is_inner b c) → IsTrue (is_inner a c) }
{}

/// What nesting means pool by pool: two groups are apart exactly where no pool is owned by both, and an
/// inner group owns, observes and excludes what the outer one does. No memory. (EnTT: an inner group is
/// the more restrictive one.)
pub fn pools_of_nested_groups()
    ensures apart { (a b : GroupDecl) → IsTrue (is_apart a b) ↔
        ((pool : ℕ) → IsTrue (has_pool a.own pool) → IsFalse (has_pool b.own pool)) }
    ensures own { (inner outer : GroupDecl) (pool : ℕ) → IsTrue (is_inner inner outer) →
        IsTrue (has_pool outer.own pool) → IsTrue (has_pool inner.own pool) }
    ensures get { (inner outer : GroupDecl) (pool : ℕ) → IsTrue (is_inner inner outer) →
        IsTrue (has_pool outer.get pool) → IsTrue (has_pool inner.get pool) }
    ensures without { (inner outer : GroupDecl) (pool : ℕ) → IsTrue (is_inner inner outer) →
        IsTrue (has_pool outer.without pool) → IsTrue (has_pool inner.without pool) }
{}

/// A well-formed group owns a pool, names at most 8, and names none twice in its three lists, nor in the
/// list of those that it owns. No memory. (This project's own.)
pub fn pools_of_groups()
    ensures owns { (decl : GroupDecl) → IsTrue (is_well_formed decl) → 0 < length decl.own }
    ensures few { (decl : GroupDecl) → IsTrue (is_well_formed decl) →
        length (group_pools decl) ≤ group_pool_limit }
    ensures once { (decl : GroupDecl) → IsTrue (is_well_formed decl) →
        AreDistinctBy (λ (pool : ℕ). pool) (group_pools decl) }
    ensures owned_once { (decl : GroupDecl) → IsTrue (is_well_formed decl) →
        AreDistinctBy (λ (pool : ℕ). pool) decl.own }
{}

/// Each group of a family is well-formed, and of two different ones each stands apart from the other, or
/// is inner or outer to it. No memory. (EnTT: groups that share an owned pool are nested.)
pub fn groups_of_families()
    ensures well_formed { (groups : List GroupDecl) (group : ℕ) (decl : GroupDecl) →
        AreLawfulTogether groups → slice_get groups group ≡ Some decl →
        IsTrue (is_well_formed decl) }
    ensures beside { (groups : List GroupDecl) (group other : ℕ) (a b : GroupDecl) →
        AreLawfulTogether groups → slice_get groups group ≡ Some a →
        slice_get groups other ≡ Some b → group ≢ other → StandsBeside a b }
{}

/// The groups of a family, added one after another, are added under their own numbers: in front of each,
/// none is the same and none conflicts. No memory. (This project's own.)
pub fn families_grow_in_order()
    ensures new { (groups : List GroupDecl) (group : ℕ) (decl : GroupDecl) →
        AreLawfulTogether groups → slice_get groups group ≡ Some decl →
        same_in (take group groups) decl ≡ None }
    ensures accepted { (groups : List GroupDecl) (group : ℕ) (decl : GroupDecl) →
        AreLawfulTogether groups → slice_get groups group ≡ Some decl →
        add_refusal (take group groups) decl ≡ None }
{}

/// The groups of a lawful world are a family, and a family whose groups name declared components alone is
/// lawful in a world of these. No memory. (This project's own.)
pub fn families_are_those_of_worlds()
    ensures family { (count : ℕ) (groups : List GroupDecl) →
        AreLawfulGroups count groups → AreLawfulTogether groups }
    ensures world { (count : ℕ) (groups : List GroupDecl) → AreLawfulTogether groups →
        AllByRecursion (λ decl. IsTrue (are_declared count (group_pools decl))) groups →
        AreLawfulGroups count groups }
{}

/// What the check of a declaration and a family answer is what the command that adds a group means: the
/// first refusal is that of the check, or else that of the family; and where there is none, the world has
/// the family's groups with this one, and the reply is its number there. No memory. (This project's own.)
pub fn answers_are_those_of_worlds()
    ensures refusals { (limit : ℕ) (w : World) (decl : GroupDecl) → refusal_of limit w (Group decl) ≡
        option_or (option_map of_decl (decl_refusal (length w.decls) decl))
        (option_map of_family (add_refusal w.groups decl)) }
    ensures outcomes { (limit : ℕ) (w : World) (decl : GroupDecl) → outcome_of limit w (Group decl) ≡
        answers (record w { groups = groups_with w.groups decl })
        (GroupNumber (number_of w.groups decl)) }
{}
