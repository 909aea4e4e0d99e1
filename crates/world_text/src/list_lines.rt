//! Lines of a script that list components.

ghost use Rattle.std.specs.Prelude.{◌≤◌, ℕ, List, IfOk, IsErrOf, length};
ghost use Rattle.world_text.specs.declared.script.ScriptLine.{ScriptLine};
ghost use Rattle.world_text.specs.declared.verbs.Verb.{Verb};
ghost use Rattle.world_model.specs.Worlds.{component_limit};
ghost use Rattle.world_text.specs.Formats.{version_1};
ghost use Rattle.world_text.specs.ScriptReading.{AreNamesLast, IsLineBehind};

use super::ScriptLine;
use super::line_parts::take_next_entity;
use super::verbs::{NamesVerb, Verb, names_command};
use row_lang::LineFault;
use row_lang::name_lists::{kept, take_part, take_some_names};
use row_lang::words::after;
use std::alloc::Global;
use world_model::{Command, Decl};

// How many components a line of a query lists at most.
const LIST_LIMIT: usize = 16;

/// The line of a word with an identifier and names of components behind it, and what stands behind its
/// end.
pub fn take_of_names<'a>(
    alloc: Global,
    verb: NamesVerb,
    decls: &[Decl],
    text: &'a [u8],
) -> Result<(ScriptLine, &'a [u8]), LineFault>
    requires { length decls.now ≤ component_limit }
    ensures ok { IfOk result (λ x.
        IsLineBehind version_1.profile decls.now (Verb.OfNames verb) text.now x.0 x.1.now) }
    ensures bad { IsErrOf result LineFault.Bad → (line : ScriptLine) (rest : List ℕ) →
        IsLineBehind version_1.profile decls.now (Verb.OfNames verb) text.now line rest → ⊥ }
{
    let Some((entity, rest)) = take_next_entity(text) else {
        return Err(LineFault::Bad);
    };
    let (pools, rest) = take_last_names(alloc, decls, rest)?;
    let command = names_command(verb, entity, kept(pools));
    Ok((ScriptLine::Run(command), rest))
}

/// The line of the word `view`, and what stands behind its end.
pub fn take_view<'a>(
    alloc: Global,
    decls: &[Decl],
    text: &'a [u8],
) -> Result<(ScriptLine, &'a [u8]), LineFault>
    requires { length decls.now ≤ component_limit }
    ensures ok { IfOk result (λ x.
        IsLineBehind version_1.profile decls.now Verb.View text.now x.0 x.1.now) }
    ensures bad { IsErrOf result LineFault.Bad → (line : ScriptLine) (rest : List ℕ) →
        IsLineBehind version_1.profile decls.now Verb.View text.now line rest → ⊥ }
{
    let (all, behind) = take_some_names(alloc, decls, &[], text)?;
    let (without, rest) = take_part(alloc, decls, &all, b" not", behind)?;
    if all.len() + without.len() > LIST_LIMIT {
        return Err(LineFault::Bad);
    }
    let Some(rest) = after(rest, b"\n") else {
        return Err(LineFault::Bad);
    };
    let command = Command::View {
        all: kept(all),
        without: kept(without),
    };
    Ok((ScriptLine::Run(command), rest))
}

// The components that names up to the end of a line name, one or more, in their order, and what stands
// behind the line's end.
fn take_last_names<'a>(
    alloc: Global,
    decls: &[Decl],
    text: &'a [u8],
) -> Result<(Vec<u32>, &'a [u8]), LineFault>
    requires { length decls.now ≤ component_limit }
    ensures ok { IfOk result (λ x. AreNamesLast decls.now text.now x.0.items x.1.now) }
    ensures bad { IsErrOf result LineFault.Bad → (pools rest : List ℕ) →
        AreNamesLast decls.now text.now pools rest → ⊥ }
{
    let (pools, rest) = take_some_names(alloc, decls, &[], text)?;
    if pools.len() > LIST_LIMIT {
        return Err(LineFault::Bad);
    }
    let Some(rest) = after(rest, b"\n") else {
        return Err(LineFault::Bad);
    };
    Ok((pools, rest))
}
