use super::{GroupDecl, Refusal, Row};
use entity_id::{Entities, Entity, Pools};

/// What a registry can be asked to do. What each command means, its reply, its refusals in their order
/// and its events, stands in `specs/Refusing.antt` and `specs/Outcomes.antt`.
#[derive(Debug, Drop)]
pub enum Command {
    /// Make an identifier. (EnTT: `registry.create()`.)
    Create,
    /// Make this identifier, where that is possible, and else another. (EnTT: `registry.create(hint)`.)
    Hint {
        /// The identifier that is asked for.
        entity: Entity,
    },
    /// Remove an entity from every pool, and its identifier. (EnTT: `registry.destroy(entity)`.)
    Destroy {
        /// The entity.
        entity: Entity,
    },
    /// Tell whether an identifier is live. (EnTT: `registry.valid(entity)`.)
    Valid {
        /// The identifier.
        entity: Entity,
    },
    /// Add a row. (EnTT: `registry.emplace<T>(entity, ..)`.)
    Emplace {
        /// The row's entity.
        entity: Entity,
        /// The pool.
        pool: u32,
        /// The row.
        row: Row,
    },
    /// Add a row, or replace the one that is there. (EnTT: `registry.emplace_or_replace<T>(entity, ..)`.)
    EmplaceOrReplace {
        /// The row's entity.
        entity: Entity,
        /// The pool.
        pool: u32,
        /// The row.
        row: Row,
    },
    /// Replace a row. (EnTT: `registry.replace<T>(entity, ..)`.)
    Replace {
        /// The row's entity.
        entity: Entity,
        /// The pool.
        pool: u32,
        /// The row.
        row: Row,
    },
    /// Set one field of a row. (EnTT: `registry.patch<T>(entity, ..)`.)
    Patch {
        /// The row's entity.
        entity: Entity,
        /// The pool.
        pool: u32,
        /// The field's number.
        field: u32,
        /// The field's new value.
        value: i64,
    },
    /// Remove a row, if there is one. (EnTT: `registry.remove<T>(entity)`.)
    Remove {
        /// The row's entity.
        entity: Entity,
        /// The pool.
        pool: u32,
    },
    /// Remove a row that has to be there. (EnTT: `registry.erase<T>(entity)`.)
    Erase {
        /// The row's entity.
        entity: Entity,
        /// The pool.
        pool: u32,
    },
    /// Remove every row of a pool. (EnTT: `registry.clear<T>()`.)
    Clear {
        /// The pool.
        pool: u32,
    },
    /// Tell a row. (EnTT: `registry.get<T>(entity)`.)
    Get {
        /// The row's entity.
        entity: Entity,
        /// The pool.
        pool: u32,
    },
    /// Tell whether an entity is in each of these pools. (EnTT: `registry.all_of<..>(entity)`.)
    AllOf {
        /// The entity.
        entity: Entity,
        /// The pools.
        pools: Pools,
    },
    /// Tell whether an entity is in one of these pools. (EnTT: `registry.any_of<..>(entity)`.)
    AnyOf {
        /// The entity.
        entity: Entity,
        /// The pools.
        pools: Pools,
    },
    /// Tell whether an entity is in no pool. (EnTT: `registry.orphan(entity)`.)
    Orphan {
        /// The entity.
        entity: Entity,
    },
    /// Tell how many entities there are. (EnTT: `registry.alive()`.)
    Alive,
    /// Tell how many slots there are. (EnTT: `registry.size()`.)
    Size,
    /// List the entities that are in all of some pools and in none of some others. (EnTT:
    /// `registry.view<..>(entt::exclude<..>)`.)
    View {
        /// The pools that each of them is in, one or more.
        all: Pools,
        /// The pools that none of them is in.
        without: Pools,
    },
    /// Make an owning group, or find the same one. (EnTT: `registry.group<..>(..)`.)
    Group {
        /// The group.
        decl: GroupDecl,
    },
    /// List the entities of a group. (EnTT: iteration over a group.)
    Members {
        /// The group's number.
        group: u32,
    },
    /// Sort a pool by a field. (EnTT: `registry.sort<T>(..)`.)
    SortPool {
        /// The pool.
        pool: u32,
        /// The field's number.
        field: u32,
    },
    /// Sort a group by a field of one of its pools. (EnTT: `group.sort<T>(..)`.)
    SortGroup {
        /// The group's number.
        group: u32,
        /// The pool of the field, which the group owns or observes.
        pool: u32,
        /// The field's number.
        field: u32,
    },
}

/// What a command answers.
#[derive(Debug, Drop)]
pub enum Reply {
    /// It was done.
    Done,
    /// This identifier was made.
    Made(Entity),
    /// Whether it is so.
    Truth(bool),
    /// How many.
    Number(u64),
    /// The row.
    Values(Row),
    /// These identifiers, in this order.
    Listed(Entities),
    /// The group has this number.
    GroupNumber(u32),
    /// It was refused.
    Refused(Refusal),
}
