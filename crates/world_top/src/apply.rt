ghost use Rattle.std.specs.Prelude.{◌≡◌, ◌+◌, ◌-◌, ◌<◌, ◌++◌, List, length, IfOk, IfErr};
ghost use Rattle.entity_id.specs.Identifiers.{p20_12};
ghost use Rattle.world_text.specs.declared.script.ScriptLine.{ScriptLine};
ghost use Rattle.world_text.specs.Documents.{IsLawfulDocument, text};
ghost use Rattle.world_text.specs.Playing.{scripted_text};
ghost use Rattle.world_text.specs.Refusals.{IsFarAtMost, IsScriptCause};
ghost use Rattle.world_text.specs.Scripts.{IsScript};
ghost use Rattle.world_top.specs.Output.{IsOutput, IsInputCause};
ghost use Rattle.world_top.specs.Playing.{behind_lines, line_limit};

use super::Verb;
use super::playing::play;
use entity_id::OutOfMemory;
use registry::Registry;
use signal_sink::Recorder;
use sparse_set::Steps;
use std::alloc::Global;
use std::marker::Brand;
use std::sync::ledger::{Blank, Ledger};
use world_model::World;
use world_text::{Document, SystemList, TextRefused, VERSION_1, push_world, read_front};

/// What `apply` prints for an input, which is a document and a script behind it: the replies of the
/// script's lines, and the canonical text of the document that it leaves.
pub fn apply(alloc: Global, input: &[u8]) -> Result<Vec<u8>, TextRefused>
    ensures ok { IfOk result (λ out. IsOutput Verb.Apply input.now out.items) }
    ensures cause { IfErr result (IsInputCause Verb.Apply input.now) }
{
    apply_from::<Brand>(alloc, input, Blank::new(1))
}

// The same, with a blank for the steps, which nobody counts here.
fn apply_from<G: Ledger>(alloc: Global, input: &[u8], blank: Blank) -> Result<Vec<u8>, TextRefused>
    requires name { blank.name ≡ G.name }
    requires parts { blank.parts ≡ G.parts }
    requires some { 0 < blank.parts }
    ensures ok { IfOk result (λ out. IsOutput Verb.Apply input.now out.items) }
    ensures cause { IfErr result (IsInputCause Verb.Apply input.now) }
{
    let mut steps = Steps::<G>::new(blank);
    let front = read_front(alloc, input)?;
    let lines = front.lines;
    let script = &input[front.taken as usize..];
    match scripted(alloc, front.document, script, &mut steps) {
        Ok(out) => Ok(out),
        Err(refused) => Err(behind(lines, refused)),
    }
}

// A refusal of the text behind this many lines, with its line counted from the first of them.
fn behind(lines: u64, refused: TextRefused) -> TextRefused
    requires { IsFarAtMost (line_limit - lines) refused }
    ensures { result ≡ behind_lines lines refused }
{
    match refused {
        TextRefused::BadLine { line } => TextRefused::BadLine { line: lines + line },
        TextRefused::OutOfMemory => TextRefused::OutOfMemory,
    }
}

// What is printed for a document and the text of a script.
fn scripted<G: Ledger>(
    alloc: Global,
    document: Document,
    script: &[u8],
    steps: &mut Steps<G>,
) -> Result<Vec<u8>, TextRefused>
    requires { IsLawfulDocument document }
    ensures ok { IfOk result (λ out. (lines : List ScriptLine) ×
        IsScript p20_12 document.world.decls script.now lines ×
        (out.items ≡ scripted_text document lines)) }
    ensures cause { IfErr result (IsScriptCause p20_12 document.world.decls script.now) }
    ensures few { IfErr result (IsFarAtMost (length script.now + 3)) }
{
    let Document { world, systems } = document;
    let mut registry = Registry::load(alloc, &world, VERSION_1.slot_limit)?;
    // The registry has the rest now. The pattern alone would keep it until the end.
    let World {
        decls,
        tick,
        slots,
        free,
        pools,
        ..
    } = world;
    drop((slots, free, pools));
    let mut out = Vec::new(alloc);
    play(
        alloc,
        &mut registry,
        decls.as_slice(),
        script,
        &mut out,
        steps,
    )?;
    let whole = finish(&registry, tick, systems, out)?;
    Ok(whole)
}

/// Appends the canonical text of the document that a registry stands for, at a tick, with these systems.
pub fn finish(
    registry: &Registry<Recorder>,
    tick: u64,
    systems: SystemList,
    mut out: Vec<u8>,
) -> Result<Vec<u8>, OutOfMemory>
    requires { IsLawfulDocument
        (record { world = record registry.now.world { tick = tick }; systems = systems }) }
    ensures { IfOk result (λ whole. whole.items ≡ out.items ++
        text (record { world = record registry.now.world { tick = tick }; systems = systems })) }
{
    let world = registry.save(tick)?;
    push_world(&mut out, &Document { world, systems })?;
    Ok(out)
}
