//! Parts of a script's line, each behind a space.

ghost use Rattle.std.specs.Prelude.{◌≡◌, ◌<◌, ◌∷◌, ◌≤◌, ℕ, List, length, IfSome, IfNone};
ghost use Rattle.entity_id.specs.declared.entity.Entity.{Entity};
ghost use Rattle.world_model.specs.Worlds.{component_limit};
ghost use Rattle.world_text.specs.Formats.{version_1};
ghost use Rattle.row_lang.specs.Reading.{IsPoolNext};
ghost use Rattle.world_text.specs.ScriptReading.{IsEntityNext, IsEntryNext, IsNumberNext};

use super::format::VERSION_1;
use entity_id::{Entity, take_entity, take_nat};
use row_lang::name_lists::take_next_pool;
use row_lang::words::after;
use world_model::Decl;

// The greatest number of a watch or of a group in a line.
const NUMBER_LIMIT: u64 = 4_294_967_295;

/// An identifier, and what stands behind it.
pub fn take_next_entity(text: &[u8]) -> Option<(Entity, &[u8])>
    ensures some { IfSome result (λ x. IsEntityNext version_1.profile text.now x.0 x.1.now) }
    ensures none { IfNone result ((entity : Entity) (rest : List ℕ) →
        IsEntityNext version_1.profile text.now entity rest → ⊥) }
{
    let text = after(text, b" ")?;
    take_entity(VERSION_1.profile, text)
}

/// An identifier up to the end of its line, and what stands behind that.
pub fn take_last_entity(text: &[u8]) -> Option<(Entity, &[u8])>
    ensures some { IfSome result (λ x.
        IsEntityNext version_1.profile text.now x.0 (10 ∷ x.1.now)) }
    ensures none { IfNone result ((entity : Entity) (rest : List ℕ) →
        IsEntityNext version_1.profile text.now entity (10 ∷ rest) → ⊥) }
{
    let (entity, rest) = take_next_entity(text)?;
    let rest = after(rest, b"\n")?;
    Some((entity, rest))
}

/// A component up to the end of its line, and what stands behind that.
pub fn take_last_pool<'a>(decls: &[Decl], text: &'a [u8]) -> Option<(u32, &'a [u8])>
    requires { length decls.now ≤ component_limit }
    ensures some { IfSome result (λ x. IsPoolNext decls.now text.now x.0 (10 ∷ x.1.now)) }
    ensures none { IfNone result ((pool : ℕ) (rest : List ℕ) →
        IsPoolNext decls.now text.now pool (10 ∷ rest) → ⊥) }
{
    let (pool, rest) = take_next_pool(decls, text)?;
    let rest = after(rest, b"\n")?;
    Some((pool, rest))
}

/// An identifier and a component, and what stands behind them.
pub fn take_next_entry<'a>(decls: &[Decl], text: &'a [u8]) -> Option<(Entity, u32, &'a [u8])>
    requires { length decls.now ≤ component_limit }
    ensures some { IfSome result (λ x.
        IsEntryNext version_1.profile decls.now text.now x.0 x.1 x.2.now) }
    ensures within { IfSome result (λ x. x.1 < length decls.now) }
    ensures none { IfNone result ((entity : Entity) (pool : ℕ) (rest : List ℕ) →
        IsEntryNext version_1.profile decls.now text.now entity pool rest → ⊥) }
{
    let (entity, rest) = take_next_entity(text)?;
    let (pool, rest) = take_next_pool(decls, rest)?;
    Some((entity, pool, rest))
}

/// An identifier and a component up to the end of their line, and what stands behind that.
pub fn take_last_entry<'a>(decls: &[Decl], text: &'a [u8]) -> Option<(Entity, u32, &'a [u8])>
    requires { length decls.now ≤ component_limit }
    ensures some { IfSome result (λ x.
        IsEntryNext version_1.profile decls.now text.now x.0 x.1 (10 ∷ x.2.now)) }
    ensures none { IfNone result ((entity : Entity) (pool : ℕ) (rest : List ℕ) →
        IsEntryNext version_1.profile decls.now text.now entity pool (10 ∷ rest) → ⊥) }
{
    let (entity, pool, rest) = take_next_entry(decls, text)?;
    let rest = after(rest, b"\n")?;
    Some((entity, pool, rest))
}

/// The number of a watch or of a group, and what stands behind it.
pub fn take_next_number(text: &[u8]) -> Option<(u32, &[u8])>
    ensures some { IfSome result (λ x. IsNumberNext text.now x.0 x.1.now) }
    ensures none { IfNone result ((number : ℕ) (rest : List ℕ) →
        IsNumberNext text.now number rest → ⊥) }
{
    let text = after(text, b" ")?;
    let (number, rest) = take_nat(text, NUMBER_LIMIT)?;
    Some((number as u32, rest))
}

/// The number of a watch or of a group up to the end of its line, and what stands behind that.
pub fn take_last_number(text: &[u8]) -> Option<(u32, &[u8])>
    ensures some { IfSome result (λ x. IsNumberNext text.now x.0 (10 ∷ x.1.now)) }
    ensures none { IfNone result ((number : ℕ) (rest : List ℕ) →
        IsNumberNext text.now number (10 ∷ rest) → ⊥) }
{
    let (number, rest) = take_next_number(text)?;
    let rest = after(rest, b"\n")?;
    Some((number, rest))
}
