//! Row lines, read from the front of the bytes behind their word, in one pass.

ghost use Rattle.std.specs.Prelude.{◌≡◌, ◌++◌, ◌≤◌, ℕ, ℤ, List, length, codes, slice_get, Some, None, IfOk, IfSome, IfNone, IsErrOf, MatchOption, IsTrue};
ghost use Rattle.world_model.specs.declared.component.Decl.{Decl};
ghost use Rattle.entity_id.specs.declared.entity.Entity.{Entity};
ghost use Rattle.entity_id.specs.Fields.{field_of};
ghost use Rattle.entity_id.specs.Texts.{IsEntityFirst};
ghost use Rattle.world_model.specs.Components.{kinds_of, is_target as target};
ghost use Rattle.world_text.specs.FieldValues.{FieldValue};
ghost use Rattle.world_text.specs.Formats.{IsFormat};
ghost use Rattle.world_text.specs.Reading.{IsValueFirst, IsFieldFirst, AreValuesOf, IsRowOf};
ghost use Rattle.world_text.specs.Drafts.{TakesLine, RefusesOthers};

use super::draft::Draft;
use super::filling::add_row;
use entity_id::{Entity, Profile, take_entity};
use row_lang::LineFault;
use row_lang::words::after;
use world_model::{Decl, Kind, Row, is_target, take_int};

/// Reads a line `row ENTITY VALUE ..`, whose values are of the kinds of the last pool's component.
pub fn read_row<'a>(draft: &mut Draft, text: &'a [u8]) -> Result<&'a [u8], LineFault>
    requires { IsFormat draft.old.format }
    ensures ok { IfOk result (λ after.
        TakesLine draft.old (codes "row " ++ text.now) after.now draft.new) }
    ensures bad { IsErrOf result LineFault.Bad → RefusesOthers draft.old (codes "row " ++ text.now) }
{
    let profile = draft.format.profile;
    let Some((entity, rest)) = take_entity(profile, text) else {
        return Err(LineFault::Bad);
    };
    let last = draft.pools.len().saturating_sub(1);
    let Some(kinds) = kinds_at(&draft.decls, last) else {
        return Err(LineFault::Bad);
    };
    let Some((row, after)) = take_row(profile, kinds, rest) else {
        return Err(LineFault::Bad);
    };
    add_row(draft, entity, row)?;
    Ok(after)
}

// The kinds of the component of this number.
fn kinds_at(decls: &[Decl], number: usize) -> Option<&[Kind]>
    ensures found { MatchOption result (slice_get decls.now number ≡ None)
        (λ kinds. (decl : Decl) × (slice_get decls.now number ≡ Some decl) × (kinds.now ≡ kinds_of decl)) }
    ensures few { IfSome result (λ kinds. length kinds.now ≤ 4) }
{
    let decl = decls.get(number)?;
    Some(decl.field_kinds())
}

// The row of values of these kinds, each behind a space, up to the end of the line, and what stands
// behind that.
pub fn take_row<'a>(profile: Profile, kinds: &[Kind], text: &'a [u8]) -> Option<(Row, &'a [u8])>
    requires { length kinds.now ≤ 4 }
    ensures some { IfSome result (λ x. IsRowOf profile kinds.now text.now x.0 x.1.now) }
    ensures none { IfNone result ((values : List FieldValue) (more : List ℕ) →
        AreValuesOf profile kinds.now text.now values more → ⊥) }
{
    let mut row = Row { f: [0; 4] };
    let mut rest = text;
    for (at, kind) in kinds.iter().enumerate() {
        let (field, after) = take_field(profile, *kind, rest)?;
        row.f[at] = field;
        rest = after;
    }
    let after = after(rest, b"\n")?;
    Some((row, after))
}

// The field that holds a value of this kind behind a space, and what stands behind it.
pub fn take_field(profile: Profile, kind: Kind, text: &[u8]) -> Option<(i64, &[u8])>
    ensures some { IfSome result (λ x. IsFieldFirst profile kind text.now x.0 x.1.now) }
    ensures none { IfNone result ((value : FieldValue) (rest : List ℕ) →
        IsValueFirst profile kind text.now value rest → ⊥) }
{
    let rest = after(text, b" ")?;
    match kind {
        Kind::Int => take_int(rest),
        Kind::Ref => take_target(profile, rest),
    }
}

// The field that holds an identifier, where a field may hold it: it is null, or below the limits in
// both parts.
fn take_target(profile: Profile, text: &[u8]) -> Option<(i64, &[u8])>
    ensures some { IfSome result (λ x. (entity : Entity) ×
        IsEntityFirst profile text.now entity x.1.now ×
        IsTrue (target profile entity) ×
        (x.0 ≡ field_of profile entity)) }
    ensures none { IfNone result ((entity : Entity) (rest : List ℕ) →
        IsEntityFirst profile text.now entity rest →
        IsTrue (target profile entity) → ⊥) }
{
    let (entity, rest) = take_entity(profile, text)?;
    if is_target(profile, entity) {
        Some((entity.to_field(profile), rest))
    } else {
        None
    }
}
