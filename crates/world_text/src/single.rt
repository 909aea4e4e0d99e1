//! Single commands.

ghost use Rattle.std.specs.Prelude.{◌≤◌, IfOk, IsErrOf, length};
ghost use Rattle.world_model.specs.declared.command.Command.{Command};
ghost use Rattle.world_model.specs.Worlds.{component_limit};
ghost use Rattle.world_text.specs.Formats.{version_1};
ghost use Rattle.world_text.specs.Scripts.{IsCommandText};

use super::ScriptLine;
use super::command_lines::take_script_line;
use row_lang::LineFault;
use std::alloc::Global;
use world_model::{Command, Decl};

/// The command that a line, given without its end, spells. There are at most 64 components; a line names
/// one by its name, as [`read_name`](world_model::read_name) reads it. `Bad` comes exactly where the line
/// is no line of a script, or one that begins or ends a watch, and `OutOfMemory` where memory for a copy
/// of the line or for a list of components runs out.
pub fn read_command(alloc: Global, line: &[u8], decls: &[Decl]) -> Result<Command, LineFault>
    requires { length decls.now ≤ component_limit }
    ensures ok { IfOk result (IsCommandText version_1.profile decls.now line.now) }
    ensures bad { IsErrOf result LineFault.Bad → (command : Command) →
        IsCommandText version_1.profile decls.now line.now command → ⊥ }
{
    let mut text = Vec::from_slice(alloc, line)?;
    text.push(b'\n')?;
    let (line, rest) = take_script_line(alloc, decls, &text)?;
    if !rest.is_empty() {
        return Err(LineFault::Bad);
    }
    match line {
        ScriptLine::Run(command) => Ok(command),
        ScriptLine::Watch { .. } | ScriptLine::Unwatch { .. } => Err(LineFault::Bad),
    }
}
