//! The lines of a script, each read from the front of the bytes that begin with it.

ghost use Rattle.std.specs.Prelude.{◌≡◌, ◌∷◌, ◌≤◌, ℕ, List, IfOk, IfSome, IfNone, IsErrOf, length};
ghost use Rattle.world_model.specs.declared.component.Decl.{Decl};
ghost use Rattle.world_text.specs.declared.script.ScriptLine.{ScriptLine};
ghost use Rattle.world_text.specs.declared.verbs.Verb.{Verb};
ghost use Rattle.world_model.specs.Worlds.{component_limit};
ghost use Rattle.world_text.specs.Formats.{version_1};
ghost use Rattle.row_lang.specs.Reading.{IsAfter};
ghost use Rattle.world_text.specs.Scripts.{IsLineFirst, first_line, last_line};
ghost use Rattle.world_text.specs.ScriptReading.{IsLineBehind};

use super::ScriptLine;
use super::first_words::verb_of;
use super::group_lines::take_group;
use super::line_parts::{take_last_entity, take_last_entry, take_last_number, take_last_pool};
use super::list_lines::{take_of_names, take_view};
use super::row_commands::{take_of_row, take_patch};
use super::sort_lines::take_sort;
use super::verbs::{
    EntityVerb, EntryVerb, PlainVerb, Verb, entity_command, entry_command, plain_command,
};
use super::watch_lines::{take_unwatch, take_watch};
use row_lang::LineFault;
use row_lang::words::{after, split_name};
use std::alloc::Global;
use world_model::{Command, Decl};

/// What stands behind the first line of a script, `script`, at the front of a text. None exactly where
/// the text doesn't begin with it. No memory.
pub fn after_first_line(text: &[u8]) -> Option<&[u8]>
    ensures { IsAfter text.now first_line result }
{
    after(text, b"script\n")
}

/// What stands behind the last line of a script, `end`, at the front of a text. None exactly where the
/// text doesn't begin with it. No memory.
pub fn after_last_line(text: &[u8]) -> Option<&[u8]>
    ensures { IsAfter text.now last_line result }
{
    after(text, b"end\n")
}

/// The line of a script that stands at the front of a text, and what stands behind its end. There are at
/// most 64 components; a line names one by its name, as [`read_name`](world_model::read_name) reads it.
/// `Bad` comes exactly where the text begins with none, and `OutOfMemory` where memory for a list of
/// components runs out.
pub fn take_script_line<'a>(
    alloc: Global,
    decls: &[Decl],
    text: &'a [u8],
) -> Result<(ScriptLine, &'a [u8]), LineFault>
    requires { length decls.now ≤ component_limit }
    ensures ok { IfOk result (λ x.
        IsLineFirst version_1.profile decls.now text.now x.0 x.1.now) }
    ensures bad { IsErrOf result LineFault.Bad → (line : ScriptLine) (rest : List ℕ) →
        IsLineFirst version_1.profile decls.now text.now line rest → ⊥ }
{
    let (word, behind) = split_name(text);
    let Some(verb) = verb_of(word) else {
        return Err(LineFault::Bad);
    };
    take_behind(alloc, verb, decls, behind)
}

// The line that begins with a word, of which the rest stands at the front of a text.
fn take_behind<'a>(
    alloc: Global,
    verb: Verb,
    decls: &[Decl],
    text: &'a [u8],
) -> Result<(ScriptLine, &'a [u8]), LineFault>
    requires { length decls.now ≤ component_limit }
    ensures ok { IfOk result (λ x.
        IsLineBehind version_1.profile decls.now verb text.now x.0 x.1.now) }
    ensures bad { IsErrOf result LineFault.Bad → (line : ScriptLine) (rest : List ℕ) →
        IsLineBehind version_1.profile decls.now verb text.now line rest → ⊥ }
{
    match verb {
        Verb::Plain(of) => take_plain(of, text).ok_or(LineFault::Bad),
        Verb::OfEntity(of) => take_of_entity(of, text).ok_or(LineFault::Bad),
        Verb::OfEntry(of) => take_of_entry(of, decls, text).ok_or(LineFault::Bad),
        Verb::OfRow(of) => take_of_row(of, decls, text).ok_or(LineFault::Bad),
        Verb::OfNames(of) => take_of_names(alloc, of, decls, text),
        Verb::Patch => take_patch(decls, text).ok_or(LineFault::Bad),
        Verb::Clear => take_clear(decls, text).ok_or(LineFault::Bad),
        Verb::View => take_view(alloc, decls, text),
        Verb::Group => take_group_line(alloc, decls, text),
        Verb::Members => take_members(text).ok_or(LineFault::Bad),
        Verb::Sort => take_sort(decls, text).ok_or(LineFault::Bad),
        Verb::Watch => take_watch(decls, text).ok_or(LineFault::Bad),
        Verb::Unwatch => take_unwatch(text).ok_or(LineFault::Bad),
    }
}

fn take_plain(verb: PlainVerb, text: &[u8]) -> Option<(ScriptLine, &[u8])>
    ensures some { IfSome result (λ x. (decls : List Decl) →
        IsLineBehind version_1.profile decls (Verb.Plain verb) text.now x.0 x.1.now) }
    ensures none { IfNone result ((decls : List Decl) (line : ScriptLine) (rest : List ℕ) →
        IsLineBehind version_1.profile decls (Verb.Plain verb) text.now line rest → ⊥) }
{
    let rest = after(text, b"\n")?;
    Some((ScriptLine::Run(plain_command(verb)), rest))
}

fn take_of_entity(verb: EntityVerb, text: &[u8]) -> Option<(ScriptLine, &[u8])>
    ensures some { IfSome result (λ x. (decls : List Decl) →
        IsLineBehind version_1.profile decls (Verb.OfEntity verb) text.now x.0 x.1.now) }
    ensures none { IfNone result ((decls : List Decl) (line : ScriptLine) (rest : List ℕ) →
        IsLineBehind version_1.profile decls (Verb.OfEntity verb) text.now line rest → ⊥) }
{
    let (entity, rest) = take_last_entity(text)?;
    Some((ScriptLine::Run(entity_command(verb, entity)), rest))
}

fn take_of_entry<'a>(
    verb: EntryVerb,
    decls: &[Decl],
    text: &'a [u8],
) -> Option<(ScriptLine, &'a [u8])>
    requires { length decls.now ≤ component_limit }
    ensures some { IfSome result (λ x.
        IsLineBehind version_1.profile decls.now (Verb.OfEntry verb) text.now x.0 x.1.now) }
    ensures none { IfNone result ((line : ScriptLine) (rest : List ℕ) →
        IsLineBehind version_1.profile decls.now (Verb.OfEntry verb) text.now line rest → ⊥) }
{
    let (entity, pool, rest) = take_last_entry(decls, text)?;
    Some((ScriptLine::Run(entry_command(verb, entity, pool)), rest))
}

fn take_clear<'a>(decls: &[Decl], text: &'a [u8]) -> Option<(ScriptLine, &'a [u8])>
    requires { length decls.now ≤ component_limit }
    ensures some { IfSome result (λ x.
        IsLineBehind version_1.profile decls.now Verb.Clear text.now x.0 x.1.now) }
    ensures none { IfNone result ((line : ScriptLine) (rest : List ℕ) →
        IsLineBehind version_1.profile decls.now Verb.Clear text.now line rest → ⊥) }
{
    let (pool, rest) = take_last_pool(decls, text)?;
    Some((ScriptLine::Run(Command::Clear { pool }), rest))
}

fn take_group_line<'a>(
    alloc: Global,
    decls: &[Decl],
    text: &'a [u8],
) -> Result<(ScriptLine, &'a [u8]), LineFault>
    requires { length decls.now ≤ component_limit }
    ensures ok { IfOk result (λ x.
        IsLineBehind version_1.profile decls.now Verb.Group text.now x.0 x.1.now) }
    ensures bad { IsErrOf result LineFault.Bad → (line : ScriptLine) (rest : List ℕ) →
        IsLineBehind version_1.profile decls.now Verb.Group text.now line rest → ⊥ }
{
    let (decl, rest) = take_group(alloc, decls, text)?;
    Ok((ScriptLine::Run(Command::Group { decl }), rest))
}

fn take_members(text: &[u8]) -> Option<(ScriptLine, &[u8])>
    ensures some { IfSome result (λ x. (decls : List Decl) →
        IsLineBehind version_1.profile decls Verb.Members text.now x.0 x.1.now) }
    ensures none { IfNone result ((decls : List Decl) (line : ScriptLine) (rest : List ℕ) →
        IsLineBehind version_1.profile decls Verb.Members text.now line rest → ⊥) }
{
    let (group, rest) = take_last_number(text)?;
    Some((ScriptLine::Run(Command::Members { group }), rest))
}
