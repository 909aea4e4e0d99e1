//! Single tokens: names of components, fields and values.

ghost use Rattle.std.specs.Prelude.{◌≡◌, ◌<◌, ◌≤◌, ℕ, ℤ, length, slice_get, slice_index_or, IfSome, IfNone, IsTrue};
ghost use Rattle.world_model.specs.declared.tokens.FieldAt.{FieldAt};
ghost use Rattle.world_model.specs.declared.component.Decl.{Decl};
ghost use Rattle.world_model.specs.Components.{has_name, is_target as target};
ghost use Rattle.world_model.specs.Tokens.{component_named, IsNameToken, IsFieldToken, IsTargetToken, IsValueToken};
ghost use Rattle.world_model.specs.Worlds.{component_limit};

use super::{Decl, Kind, is_name, read_int};
use entity_id::{Entity, Profile, parse_entity, read_nat, rsplit_once};

/// A field of a component.
#[derive(Clone, Copy, Debug, PartialEq, Eq)]
pub struct FieldAt {
    /// The component's number.
    pub pool: u32,
    /// The field's number in the component, counted from 0.
    pub field: u32,
}

/// The number of the component that a token names: the first of at most 64 components that has this
/// name. None exactly where the token doesn't have the form of a name, as [`is_name`] says, or where no
/// component has this name. No memory.
pub fn read_name(token: &[u8], decls: &[Decl]) -> Option<u32>
    requires { length decls.now ≤ component_limit }
    ensures some { IfSome result (λ pool. IsNameToken decls.now token.now pool) }
    ensures declared { IfSome result (λ pool. pool < length decls.now) }
    ensures named { IfSome result (λ pool.
        (d : Decl) → IsTrue (has_name token.now (slice_index_or decls.now pool d))) }
    ensures none { IfNone result ((pool : ℕ) → IsNameToken decls.now token.now pool → ⊥) }
{
    if is_name(token) {
        first_named(token, decls)
    } else {
        None
    }
}

// The number of the first component of this name, whatever its form.
fn first_named(token: &[u8], decls: &[Decl]) -> Option<u32>
    requires { length decls.now ≤ component_limit }
    ensures first { result ≡ component_named decls.now token.now }
    ensures declared { IfSome result (λ pool. pool < length decls.now) }
    ensures named { IfSome result (λ pool.
        (d : Decl) → IsTrue (has_name token.now (slice_index_or decls.now pool d))) }
{
    let pool = decls.iter().position(|decl| decl.name.as_slice() == token)?;
    Some(pool as u32)
}

/// The field that a token names: the name of one of at most 64 components, as [`read_name`] reads it, a
/// dot, and the field's number in decimal without a leading zero, below the component's number of fields.
/// The name is what stands before the last dot. None exactly where the token names no field. No memory.
pub fn read_field(token: &[u8], decls: &[Decl]) -> Option<FieldAt>
    requires { length decls.now ≤ component_limit }
    ensures some { IfSome result (λ at. IsFieldToken decls.now token.now at) }
    ensures declared { IfSome result (λ at. at.pool < length decls.now) }
    ensures none { IfNone result
        ((at : FieldAt) → IsFieldToken decls.now token.now at → ⊥) }
{
    let (name, number) = rsplit_once(token, b'.')?;
    let pool = read_name(name, decls)?;
    let count = decls[pool as usize].count;
    let field = read_nat(number, u64::from(count))?;
    if field < u64::from(count) {
        Some(FieldAt {
            pool,
            field: field as u32,
        })
    } else {
        None
    }
}

/// Whether a field may hold an identifier: it is the one of both limits, or its index and its version
/// are both below the limits. No memory.
pub fn is_target(profile: Profile, entity: Entity) -> bool
    ensures { result ≡ target profile entity }
{
    (entity.index == profile.index_limit && entity.version == profile.version_limit)
        || (entity.index < profile.index_limit && entity.version < profile.version_limit)
}

/// The field that holds the value that a token spells: for [`Kind::Int`] a whole number of 64 bits in
/// decimal, as [`read_int`] reads it; for [`Kind::Ref`] `null`, or an identifier whose index and
/// version are both below the profile's limits, as [`Entity::to_field`] gives it. None exactly where
/// the token spells no value of the kind. No memory.
pub fn read_value(profile: Profile, token: &[u8], kind: Kind) -> Option<i64>
    ensures some { IfSome result (λ field. IsValueToken profile kind token.now field) }
    ensures none { IfNone result
        ((field : ℤ) → IsValueToken profile kind token.now field → ⊥) }
{
    match kind {
        Kind::Int => read_int(token),
        Kind::Ref => read_target(profile, token),
    }
}

// The field that holds the identifier that a token spells, where a field may hold it.
fn read_target(profile: Profile, token: &[u8]) -> Option<i64>
    ensures some { IfSome result (λ field. IsTargetToken profile token.now field) }
    ensures none { IfNone result
        ((field : ℤ) → IsTargetToken profile token.now field → ⊥) }
{
    let entity = parse_entity(profile, token)?;
    if is_target(profile, entity) {
        Some(entity.to_field(profile))
    } else {
        None
    }
}
