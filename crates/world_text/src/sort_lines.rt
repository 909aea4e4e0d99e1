//! Lines of a script that sort a pool or a group.

ghost use Rattle.std.specs.Prelude.{◌∷◌, ◌≤◌, ℕ, List, IfSome, IfNone, length};
ghost use Rattle.world_model.specs.declared.component.Kind.TheVariants.{Int as WholeNumber};
ghost use Rattle.world_text.specs.declared.script.ScriptLine.{ScriptLine};
ghost use Rattle.world_text.specs.declared.verbs.Verb.{Verb};
ghost use Rattle.world_model.specs.Worlds.{component_limit};
ghost use Rattle.world_text.specs.Formats.{version_1};
ghost use Rattle.world_text.specs.ScriptReading.{IsLineBehind, IsFieldNext, IsPoolSort, IsGroupSort};

use super::ScriptLine;
use super::line_parts::take_next_number;
use super::row_commands::take_next_field;
use super::verbs::Verb;
use row_lang::words::after;
use world_model::{Command, Decl, FieldAt, Kind};

/// The line of the word `sort`, and what stands behind its end.
pub fn take_sort<'a>(decls: &[Decl], text: &'a [u8]) -> Option<(ScriptLine, &'a [u8])>
    requires { length decls.now ≤ component_limit }
    ensures some { IfSome result (λ x.
        IsLineBehind version_1.profile decls.now Verb.Sort text.now x.0 x.1.now) }
    ensures none { IfNone result ((line : ScriptLine) (rest : List ℕ) →
        IsLineBehind version_1.profile decls.now Verb.Sort text.now line rest → ⊥) }
{
    if let Some((at, rest)) = take_pool_sort(decls, text) {
        let command = Command::SortPool {
            pool: at.pool,
            field: at.field,
        };
        return Some((ScriptLine::Run(command), rest));
    }
    let (group, at, rest) = take_group_sort(decls, text)?;
    let command = Command::SortGroup {
        group,
        pool: at.pool,
        field: at.field,
    };
    Some((ScriptLine::Run(command), rest))
}

// The field that a pool is sorted by, and what stands behind the end of the line.
fn take_pool_sort<'a>(decls: &[Decl], text: &'a [u8]) -> Option<(FieldAt, &'a [u8])>
    requires { length decls.now ≤ component_limit }
    ensures some { IfSome result (λ x.
        IsPoolSort decls.now text.now x.0.pool x.0.field x.1.now) }
    ensures none { IfNone result ((pool field : ℕ) (rest : List ℕ) →
        IsPoolSort decls.now text.now pool field rest → ⊥) }
{
    let behind = after(text, b" pool")?;
    take_last_key(decls, behind)
}

// The group that is sorted, the field that it is sorted by, and what stands behind the end of the line.
fn take_group_sort<'a>(decls: &[Decl], text: &'a [u8]) -> Option<(u32, FieldAt, &'a [u8])>
    requires { length decls.now ≤ component_limit }
    ensures some { IfSome result (λ x.
        IsGroupSort decls.now text.now x.0 x.1.pool x.1.field x.2.now) }
    ensures none { IfNone result ((group pool field : ℕ) (rest : List ℕ) →
        IsGroupSort decls.now text.now group pool field rest → ⊥) }
{
    let behind = after(text, b" group")?;
    let (group, later) = take_next_number(behind)?;
    let (at, rest) = take_last_key(decls, later)?;
    Some((group, at, rest))
}

// An `int` field of a component up to the end of its line, and what stands behind that.
fn take_last_key<'a>(decls: &[Decl], text: &'a [u8]) -> Option<(FieldAt, &'a [u8])>
    requires { length decls.now ≤ component_limit }
    ensures some { IfSome result (λ x.
        IsFieldNext decls.now text.now x.0.pool x.0.field WholeNumber (10 ∷ x.1.now)) }
    ensures none { IfNone result ((pool field : ℕ) (rest : List ℕ) →
        IsFieldNext decls.now text.now pool field WholeNumber (10 ∷ rest) → ⊥) }
{
    let (at, kind, rest) = take_next_field(decls, text)?;
    match kind {
        Kind::Int => Some((at, after(rest, b"\n")?)),
        Kind::Ref => None,
    }
}
