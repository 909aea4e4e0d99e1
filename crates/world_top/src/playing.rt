//! A script, played line by line on a registry.

ghost use Rattle.std.specs.Prelude.{◌≡◌, ◌≢◌, ℕ, false, ◌+◌, ◌++◌, ◌≤◌, [], List, length, OnOk, IfOk, IfErr};
ghost use Rattle.entity_id.specs.Identifiers.{p20_12};
ghost use Rattle.world_model.specs.declared.command.Reply.TheVariants.{Refused};
ghost use Rattle.world_text.specs.declared.script.ScriptLine.{ScriptLine};
ghost use Rattle.world_text.specs.declared.script.ScriptLine.TheVariants.{Run};
ghost use Rattle.row_lang.specs.Naming.{AreNamedDecls};
ghost use Rattle.world_text.specs.Playing.{Watching};
ghost use Rattle.world_text.specs.Refusals.{IsFarAtMost, IsScriptCause};
ghost use Rattle.world_text.specs.Scripts.{IsScript, IsScriptLine, IsCommandLine, IsLineFirst};
ghost use Rattle.world_top.specs.Playing.{IsPlayed, IsPlayedTo, Plays};
ghost use Rattle.world_top.specs.Watched.{AreWatched};

use super::watching::{Watch, begin, end, tell_standing};
use entity_id::OutOfMemory;
use registry::Registry;
use signal_sink::Recorder;
use sparse_set::Steps;
use std::alloc::Global;
use std::sync::ledger::Ledger;
use world_model::{Command, Decl, Refusal, Reply};
use world_text::{
    LineFault, ScriptLine, TextRefused, after_first_line, after_last_line, push_reply,
    take_script_line,
};

/// Plays a script to its end: carries out its lines one after another, and appends their replies, and
/// then what the watches heard that still stand. Refused where the text is no script, with the number of
/// its first bad line, and where memory runs out.
pub fn play<G: Ledger>(
    alloc: Global,
    registry: &mut Registry<Recorder>,
    decls: &[Decl],
    text: &[u8],
    out: &mut Vec<u8>,
    steps: &mut Steps<G>,
) -> Result<(), TextRefused>
    requires named { AreNamedDecls decls.now }
    requires decls { registry.old.world.decls ≡ decls.now }
    requires profile { registry.old.world.profile ≡ p20_12 }
    requires unheard { AreWatched registry.old [] [] }
    ensures ok { OnOk result ((lines : List ScriptLine) ×
        IsScript p20_12 decls.now text.now lines ×
        IsPlayed registry.old registry.new.world out.old.items out.new.items lines) }
    ensures cause { IfErr result (IsScriptCause p20_12 decls.now text.now) }
    ensures few { IfErr result (IsFarAtMost (length text.now + 3)) }
{
    let mut watches = Vec::new(alloc);
    let (lines, rest) = play_lines(alloc, registry, &mut watches, decls, text, out, steps)?;
    let Some(behind) = after_last_line(rest) else {
        return Err(TextRefused::BadLine { line: lines + 2 });
    };
    if !behind.is_empty() {
        return Err(TextRefused::BadLine { line: lines + 3 });
    }
    match tell_standing(alloc, registry, &mut watches, decls, out) {
        Ok(()) => Ok(()),
        Err(_) => Err(TextRefused::OutOfMemory),
    }
}

// Carries out the lines between a script's first and its last one: how many they are, and what stands
// behind them.
fn play_lines<'a, G: Ledger>(
    alloc: Global,
    registry: &mut Registry<Recorder>,
    watches: &mut Vec<Watch>,
    decls: &[Decl],
    text: &'a [u8],
    out: &mut Vec<u8>,
    steps: &mut Steps<G>,
) -> Result<(u64, &'a [u8]), TextRefused>
    requires named { AreNamedDecls decls.now }
    requires decls { registry.old.world.decls ≡ decls.now }
    requires profile { registry.old.world.profile ≡ p20_12 }
    requires unheard { AreWatched registry.old watches.old.items [] }
    ensures ok { IfOk result (λ x. IsPlayedTo registry.old registry.new watches.new.items
        out.old.items out.new.items decls.now text.now x.0 x.1.now) }
    ensures no_line { IfOk result (λ x. (line : ScriptLine) (more : List ℕ) →
        IsLineFirst p20_12 decls.now x.1.now line more → ⊥) }
    ensures within { IfOk result (λ x. x.0 + length x.1.now ≤ length text.now) }
    ensures cause { IfErr result (IsScriptCause p20_12 decls.now text.now) }
    ensures few { IfErr result (IsFarAtMost (length text.now + 3)) }
{
    let Some(behind) = after_first_line(text) else {
        return Err(TextRefused::BadLine { line: 1 });
    };
    let mut rest = behind;
    let mut lines = 0;
    loop {
        match take_script_line(alloc, decls, rest) {
            Ok((line, after)) => {
                let played = play_line(alloc, registry, watches, line, decls, out, steps);
                if let Err(_) = played {
                    return Err(TextRefused::OutOfMemory);
                }
                rest = after;
                lines += 1;
            }
            Err(LineFault::Bad) => return Ok((lines, rest)),
            Err(LineFault::OutOfMemory) => return Err(TextRefused::OutOfMemory),
        }
    }
}

fn play_line<G: Ledger>(
    alloc: Global,
    registry: &mut Registry<Recorder>,
    watches: &mut Vec<Watch>,
    line: ScriptLine,
    decls: &[Decl],
    out: &mut Vec<u8>,
    steps: &mut Steps<G>,
) -> Result<(), OutOfMemory>
    requires decls { registry.old.world.decls ≡ decls.now }
    requires profile { registry.old.world.profile ≡ p20_12 }
    requires watched { (its : List Watching) × AreWatched registry.old watches.old.items its }
    requires line { IsScriptLine p20_12 decls.now line }
    ensures { OnOk result (Plays registry.old registry.new watches.old.items watches.new.items
        out.old.items out.new.items line) }
{
    match line {
        ScriptLine::Run(command) => play_command(registry, &command, decls, out, steps),
        ScriptLine::Watch { kind, pool } => {
            begin(alloc, registry, watches, kind, pool, decls, out)
        }
        ScriptLine::Unwatch { number } => end(alloc, registry, watches, number, decls, out),
    }
}

fn play_command<G: Ledger>(
    registry: &mut Registry<Recorder>,
    command: &Command,
    decls: &[Decl],
    out: &mut Vec<u8>,
    steps: &mut Steps<G>,
) -> Result<(), OutOfMemory>
    requires decls { registry.old.world.decls ≡ decls.now }
    requires profile { registry.old.world.profile ≡ p20_12 }
    requires line { IsCommandLine p20_12 decls.now command.now }
    ensures { OnOk result ((watches : List Watch) → Plays registry.old registry.new watches watches
        out.old.items out.new.items (Run command.now)) }
{
    let reply = registry.run(command, steps);
    if wants_memory(&reply) {
        return Err(OutOfMemory);
    }
    push_reply(command, &reply, decls, out)
}

fn wants_memory(reply: &Reply) -> bool
    ensures { result ≡ false → reply.now ≢ Refused Refusal.OutOfMemory }
{
    match reply {
        Reply::Refused(Refusal::OutOfMemory) => true,
        _ => false,
    }
}
