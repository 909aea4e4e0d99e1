//! The systems of a document, run for some ticks.

ghost use Rattle.std.specs.Prelude.{◌≡◌, ℕ, ◌+◌, ◌<◌, ◌≤◌, ◌^◌, map, IfOk, IfErr};
ghost use Rattle.std.specs.List.{AllByRecursion};
ghost use Rattle.row_lang.specs.Effects.{system_effect};
ghost use Rattle.row_lang.specs.Systems.{IsSystem};
ghost use Rattle.system_eval.specs.Runs.{IsRunnable};
ghost use Rattle.world_model.specs.Components.{IsDecl};
ghost use Rattle.world_text.specs.Documents.{IsLawfulDocument, text};
ghost use Rattle.world_text.specs.Formats.{tick_limit};
ghost use Rattle.world_top.specs.declared.verb.Verb.TheVariants.{Run};
ghost use Rattle.world_top.specs.Output.{IsOutputCause, IsRan};
ghost use Rattle.world_top.specs.Running.{AreFit, AreReady, IsAfter, effects_of};
ghost use Rattle.world_top.specs.Ticking.{document_after_ticks};

use super::apply::finish;
use super::canonical::read_document;
use super::refused::InputRefused;
use entity_id::{OutOfMemory, Profile};
use registry::Registry;
use row_lang::SystemDef;
use signal_sink::Recorder;
use std::alloc::Global;
use system_eval::RowSystem;
use tick_runner::tick_plain;
use world_text::{Document, TICK_LIMIT, VERSION_1};

/// What `run` prints for an input: the canonical text of the document that it is, after so many ticks of
/// its systems. One thread carries them out.
pub fn run(alloc: Global, ticks: u64, input: Vec<u8>) -> Result<Vec<u8>, InputRefused>
    ensures ok { IfOk result (λ out. IsRan ticks input.items out.items) }
    ensures cause { (workers : ℕ) →
        IfErr result (IsOutputCause (Run ticks workers) input.items) }
{
    let document = read_document(alloc, input)?;
    if ticks > TICK_LIMIT - document.world.tick {
        return Err(InputRefused::TickLimit);
    }
    let out = text_after(alloc, document, ticks)?;
    Ok(out)
}

// The canonical text of a document after so many ticks of its systems.
fn text_after(alloc: Global, document: Document, ticks: u64) -> Result<Vec<u8>, OutOfMemory>
    requires lawful { IsLawfulDocument document }
    requires within { document.world.tick + ticks ≤ tick_limit }
    ensures { IfOk result (λ out. out.items ≡ text (document_after_ticks ticks document)) }
{
    let Document { world, systems } = document;
    let registry = Registry::load(alloc, &world, VERSION_1.slot_limit)?;
    // The registry has the rest of the document now. A pattern would keep it until the end.
    let (profile, tick) = (world.profile, world.tick);
    drop(world);
    let after = run_all(alloc, registry, profile, systems.as_slice(), tick, ticks)?;
    finish(&after, tick + ticks, systems, Vec::new(alloc))
}

/// Runs systems on a registry for so many ticks, of which the first has this number.
pub fn run_all(
    alloc: Global,
    registry: Registry<Recorder>,
    profile: Profile,
    defs: &[SystemDef],
    tick: u64,
    ticks: u64,
) -> Result<Registry<Recorder>, OutOfMemory>
    requires numbers { tick + ticks < 2 ^ 63 }
    requires profile { registry.world.profile ≡ profile }
    requires declared { AllByRecursion IsDecl registry.world.decls }
    requires systems { AllByRecursion (IsSystem registry.world.decls) defs.now }
    ensures { IfOk result (λ new.
        IsAfter registry new (map (system_effect profile) defs.now) tick ticks) }
{
    let systems = systems_of(alloc, profile, defs)?;
    run_ticks(alloc, registry, &systems, tick, ticks)
}

/// The systems, ready to run.
pub fn systems_of<'a>(
    alloc: Global,
    profile: Profile,
    defs: &'a [SystemDef],
) -> Result<Vec<RowSystem<'a>>, OutOfMemory>
    requires { AllByRecursion (λ def. ∥ IsRunnable def ∥₁) defs.now }
    ensures { IfOk result (λ systems. AreReady profile defs.now systems.items) }
{
    let mut systems = Vec::new(alloc);
    for def in defs {
        systems.push(RowSystem::new(profile, def))?;
    }
    Ok(systems)
}

// Runs systems on a registry for so many ticks, of which the first has this number.
fn run_ticks(
    alloc: Global,
    registry: Registry<Recorder>,
    systems: &[RowSystem<'_>],
    tick: u64,
    ticks: u64,
) -> Result<Registry<Recorder>, OutOfMemory>
    requires numbers { tick + ticks < 2 ^ 63 }
    requires fit { AreFit registry.world.profile registry.world.decls systems.now }
    ensures { IfOk result (λ new. IsAfter registry new (effects_of systems.now) tick ticks) }
{
    let mut now = registry;
    for past in 0..ticks {
        now = run_tick(alloc, now, systems, tick + past)?;
    }
    Ok(now)
}

/// One tick: every system once, and then the orders.
pub fn run_tick(
    alloc: Global,
    registry: Registry<Recorder>,
    systems: &[RowSystem<'_>],
    tick: u64,
) -> Result<Registry<Recorder>, OutOfMemory>
    requires number { tick < 2 ^ 63 }
    requires fit { AreFit registry.world.profile registry.world.decls systems.now }
    ensures { IfOk result (λ new. IsAfter registry new (effects_of systems.now) tick 1) }
{
    tick_plain(alloc, registry, systems, tick)
}
