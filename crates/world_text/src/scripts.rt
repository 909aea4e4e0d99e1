//! A document with a script behind it, read whole.

ghost use Rattle.std.specs.Prelude.{◌≡◌, ◌+◌, ◌≤◌, ℕ, List, length, IfOk, IfErr, MatchOption};
ghost use Rattle.world_model.specs.Worlds.{component_limit};
ghost use Rattle.world_text.specs.declared.script.ScriptLine.{ScriptLine};
ghost use Rattle.world_text.specs.Documents.{IsLawfulDocument};
ghost use Rattle.world_text.specs.Formats.{version_1};
ghost use Rattle.world_text.specs.Refusals.{IsScriptCause, IsScriptedCause, IsFarAtMost};
ghost use Rattle.world_text.specs.Scripts.{IsLineFirst, IsScript, IsScripted};

use super::command_lines::{after_first_line, after_last_line, take_script_line};
use super::reading::read_front;
use super::{Document, Script, ScriptLine, TextRefused};
use entity_id::OutOfMemory;
use row_lang::LineFault;
use std::alloc::Global;
use world_model::Decl;

/// The document that a text begins with, and the script that is the rest of the text. `BadLine` comes
/// exactly where that line is the first of the text that is not admissible, or that is missing, and
/// `OutOfMemory` for want of memory.
pub fn read_script(alloc: Global, bytes: &[u8]) -> Result<(Document, Script), TextRefused>
    ensures scripted { IfOk result (λ x. IsScripted bytes.now x.0 x.1) }
    ensures lawful { IfOk result (λ x. IsLawfulDocument x.0) }
    ensures cause { IfErr result (IsScriptedCause bytes.now) }
{
    let front = read_front(alloc, bytes)?;
    let rest = &bytes[front.taken as usize..];
    match read_lines(alloc, front.document.world.decls.as_slice(), rest) {
        Ok(script) => Ok((front.document, script)),
        Err(TextRefused::BadLine { line }) => Err(TextRefused::BadLine {
            line: front.lines + line,
        }),
        Err(TextRefused::OutOfMemory) => Err(TextRefused::OutOfMemory),
    }
}

// The script that a text is.
fn read_lines(alloc: Global, decls: &[Decl], text: &[u8]) -> Result<Script, TextRefused>
    requires { length decls.now ≤ component_limit }
    ensures script { IfOk result (IsScript version_1.profile decls.now text.now) }
    ensures cause { IfErr result (IsScriptCause version_1.profile decls.now text.now) }
    ensures far { IfErr result (IsFarAtMost (length text.now + 3)) }
{
    let Some(behind) = after_first_line(text) else {
        return Err(TextRefused::BadLine { line: 1 });
    };
    let mut rest = behind;
    let mut lines = Vec::new(alloc);
    while let Some((line, after)) = next_line(alloc, decls, rest)? {
        lines.push(line)?;
        rest = after;
    }
    let count = lines.len() as u64;
    let Some(behind) = after_last_line(rest) else {
        return Err(TextRefused::BadLine { line: count + 2 });
    };
    if !behind.is_empty() {
        return Err(TextRefused::BadLine { line: count + 3 });
    }
    Ok(Script::from_vec(lines))
}

// The line of a script that stands at the front of a text, and what stands behind it; none where none
// stands there.
fn next_line<'a>(
    alloc: Global,
    decls: &[Decl],
    text: &'a [u8],
) -> Result<Option<(ScriptLine, &'a [u8])>, OutOfMemory>
    requires { length decls.now ≤ component_limit }
    ensures { IfOk result (λ found. MatchOption found
        ((line : ScriptLine) (rest : List ℕ) →
        IsLineFirst version_1.profile decls.now text.now line rest → ⊥)
        (λ x. IsLineFirst version_1.profile decls.now text.now x.0 x.1.now)) }
{
    match take_script_line(alloc, decls, text) {
        Ok(found) => Ok(Some(found)),
        Err(LineFault::Bad) => Ok(None),
        Err(LineFault::OutOfMemory) => Err(OutOfMemory),
    }
}
