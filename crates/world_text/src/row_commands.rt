//! Lines of a script with a row of a component, or a value of one of its fields.

ghost use Rattle.std.specs.Prelude.{◌≡◌, ◌≤◌, ℕ, List, IfSome, IfNone, length};
ghost use Rattle.world_text.specs.declared.script.ScriptLine.{ScriptLine};
ghost use Rattle.world_text.specs.declared.verbs.Verb.{Verb};
ghost use Rattle.world_model.specs.declared.component.Kind.{Kind};
ghost use Rattle.world_model.specs.Worlds.{component_limit};
ghost use Rattle.world_text.specs.Formats.{version_1};
ghost use Rattle.world_text.specs.ScriptReading.{IsLineBehind, IsFieldNext, HasFewFields};

use super::ScriptLine;
use super::format::VERSION_1;
use super::line_parts::{take_next_entity, take_next_entry};
use super::row_lines::{take_field, take_row};
use super::verbs::{RowVerb, Verb, row_command};
use row_lang::words::{after, split_name};
use world_model::{Command, Decl, FieldAt, Kind, read_field};

/// The line of a word with an identifier, a component and a row of it behind it, and what stands behind
/// its end.
pub fn take_of_row<'a>(
    verb: RowVerb,
    decls: &[Decl],
    text: &'a [u8],
) -> Option<(ScriptLine, &'a [u8])>
    requires { length decls.now ≤ component_limit }
    ensures some { IfSome result (λ x.
        IsLineBehind version_1.profile decls.now (Verb.OfRow verb) text.now x.0 x.1.now) }
    ensures none { IfNone result ((line : ScriptLine) (rest : List ℕ) →
        IsLineBehind version_1.profile decls.now (Verb.OfRow verb) text.now line rest → ⊥) }
{
    let (entity, pool, rest) = take_next_entry(decls, text)?;
    let kinds = decls[pool as usize].field_kinds();
    let (row, rest) = take_row(VERSION_1.profile, kinds, rest)?;
    Some((ScriptLine::Run(row_command(verb, entity, pool, row)), rest))
}

/// The line of the word `patch`, and what stands behind its end.
pub fn take_patch<'a>(decls: &[Decl], text: &'a [u8]) -> Option<(ScriptLine, &'a [u8])>
    requires { length decls.now ≤ component_limit }
    ensures some { IfSome result (λ x.
        IsLineBehind version_1.profile decls.now Verb.Patch text.now x.0 x.1.now) }
    ensures none { IfNone result ((line : ScriptLine) (rest : List ℕ) →
        IsLineBehind version_1.profile decls.now Verb.Patch text.now line rest → ⊥) }
{
    let (entity, rest) = take_next_entity(text)?;
    let (at, kind, rest) = take_next_field(decls, rest)?;
    let (value, rest) = take_field(VERSION_1.profile, kind, rest)?;
    let rest = after(rest, b"\n")?;
    let command = Command::Patch {
        entity,
        pool: at.pool,
        field: at.field,
        value,
    };
    Some((ScriptLine::Run(command), rest))
}

/// A field of a component behind a space, its kind, and what stands behind it.
pub fn take_next_field<'a>(decls: &[Decl], text: &'a [u8]) -> Option<(FieldAt, Kind, &'a [u8])>
    requires { length decls.now ≤ component_limit }
    ensures some { IfSome result (λ x.
        IsFieldNext decls.now text.now x.0.pool x.0.field x.1 x.2.now) }
    ensures few { IfSome result (λ x. HasFewFields decls.now x.0.pool) }
    ensures none { IfNone result ((pool field : ℕ) (kind : Kind) (rest : List ℕ) →
        IsFieldNext decls.now text.now pool field kind rest → ⊥) }
{
    let text = after(text, b" ")?;
    let (token, rest) = split_name(text);
    let at = read_field(token, decls)?;
    let kinds = decls[at.pool as usize].field_kinds();
    let kind = kinds.get(at.field as usize)?;
    Some((at, *kind, rest))
}
