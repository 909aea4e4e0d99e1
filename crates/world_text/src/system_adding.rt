//! One line of a system more in a draft: whether it is admissible after the lines before it, and what it
//! adds.

ghost use Rattle.std.specs.Prelude.{◌≡◌, true, OnOk, IsErrOf, OnErr};
ghost use Rattle.std.specs.List.{list_any};
ghost use Rattle.std.specs.Str.{bytes_eq};
ghost use Rattle.world_model.specs.Names.{is_name};
ghost use Rattle.row_lang.specs.Systems.{begun as begun_with};
ghost use Rattle.world_text.specs.Headers.{KeepsOthers, header_in};
ghost use Rattle.world_text.specs.Drafts.{Takes, Refuses, TakesBody, RefusesBody, goes_on};
ghost use Rattle.world_text.specs.LineKinds.{Line};

use super::draft::Draft;
use super::section::Section;
use row_lang::{Added, LineFault, SystemDef, SystemDraft};

// How many systems a document has at most.
const SYSTEM_LIMIT: usize = 64;

// How many command statements its systems have at most, all together.
const COMMAND_LIMIT: u32 = 64;

/// Begins a system, where none stands unfinished, there is room for one more, and none has its name.
pub fn add_system(draft: &mut Draft, name: &[u8], system: SystemDraft) -> Result<(), LineFault>
    requires begun { system ≡ begun_with name.now }
    requires named { is_name name.now ≡ true }
    ensures ok { OnOk result (Takes draft.old (Line.System name.now) draft.new) }
    ensures bad { IsErrOf result LineFault.Bad → Refuses draft.old (Line.System name.now) }
    ensures others { KeepsOthers draft.old draft.new }
    ensures err { OnErr result (header_in draft.new ≡ header_in draft.old) }
{
    if !draft.section.is_between(Section::Version, Section::Systems) {
        return Err(LineFault::Bad);
    }
    if draft.unfinished.is_some() {
        return Err(LineFault::Bad);
    }
    if draft.systems.len() >= SYSTEM_LIMIT {
        return Err(LineFault::Bad);
    }
    if has_system(&draft.systems, name) {
        return Err(LineFault::Bad);
    }
    draft.unfinished = Some(system);
    draft.section = Section::Systems;
    Ok(())
}

fn has_system(systems: &[SystemDef], name: &[u8]) -> bool
    ensures { result ≡ list_any (λ system. bytes_eq system.name name.now) systems.now }
{
    systems
        .iter()
        .any(|system| system.name().as_slice() == name)
}

/// Adds a line to the unfinished system, where the system admits it and it is no command statement too
/// many; its last line closes it.
pub fn add_body(draft: &mut Draft, line: &[u8]) -> Result<(), LineFault>
    requires { goes_on draft.old ≡ true }
    ensures ok { OnOk result (TakesBody draft.old line.now draft.new) }
    ensures bad { IsErrOf result LineFault.Bad → RefusesBody draft.old line.now }
    ensures others { KeepsOthers draft.old draft.new }
    ensures err { OnErr result (header_in draft.new ≡ header_in draft.old) }
{
    draft.systems.reserve(1)?;
    let Some(mut system) = draft.unfinished.take() else {
        return Err(LineFault::Bad);
    };
    let others = draft.commands - system.def().commands();
    match system.add_within(line, &draft.decls, COMMAND_LIMIT - others) {
        Ok(Added::More) => {
            draft.commands = others + system.def().commands();
            draft.unfinished = Some(system);
            Ok(())
        }
        Ok(Added::Closed) => {
            draft.systems.push_reserved(system.finish());
            Ok(())
        }
        Err(fault) => {
            draft.unfinished = Some(system);
            Err(fault)
        }
    }
}
