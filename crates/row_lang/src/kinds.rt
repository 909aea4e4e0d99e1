//! Kinds of fields, and which components a list names.

ghost use Rattle.std.specs.Prelude.{◌≡◌};
ghost use Rattle.world_model.specs.Groups.{has_pool as is_listed};
ghost use Rattle.row_lang.specs.FieldNames.{kind_at};
ghost use Rattle.row_lang.specs.Places.{is_kind as is_of_kind, has_kind as is_field_of_kind, is_own as is_of_own};

use world_model::{Access, Decl, FieldAt, Kind};

/// Whether two kinds are one.
pub fn is_kind(one: Kind, other: Kind) -> bool
    ensures { result ≡ is_of_kind one other }
{
    match one {
        Kind::Int => match other {
            Kind::Int => true,
            Kind::Ref => false,
        },
        Kind::Ref => match other {
            Kind::Int => false,
            Kind::Ref => true,
        },
    }
}

/// Whether a list names this component.
pub fn has_pool(pools: &[u32], pool: u32) -> bool
    ensures { result ≡ is_listed pools.now pool }
{
    pools.contains(&pool)
}

/// Whether a system's own entities have rows of a component.
pub fn is_own(access: &Access, pool: u32) -> bool
    ensures { result ≡ is_of_own access.now pool }
{
    has_pool(access.read.as_slice(), pool) || has_pool(access.write.as_slice(), pool)
}

/// The kind of a field, if there is such a field.
pub fn kind_of(decls: &[Decl], at: FieldAt) -> Option<Kind>
    ensures { result ≡ kind_at decls.now at.pool at.field }
{
    let decl = decls.get(at.pool as usize)?;
    let kind = decl.field_kinds().get(at.field as usize)?;
    Some(*kind)
}

/// Whether there is such a field, and of this kind.
pub fn has_kind(decls: &[Decl], at: FieldAt, kind: Kind) -> bool
    ensures { result ≡ is_field_of_kind decls.now at kind }
{
    match kind_of(decls, at) {
        Some(other) => is_kind(other, kind),
        None => false,
    }
}
