//! The watches of a script: recorders that hear of what happens in a registry.

ghost use Rattle.std.specs.Prelude.{◌≡◌, ◌<◌, ◌++◌, ◌∷◌, [], List, map, length, slice_get, slice_set, Some, true, false, IfOk, IfSome, IfNone, OnOk};
ghost use Rattle.world_model.specs.declared.event.Event.{Event};
ghost use Rattle.world_text.specs.declared.script.ScriptLine.TheVariants.{Unwatch as UnwatchLine, Watch as WatchLine};
ghost use Rattle.world_text.specs.Playing.{Watching, ended, last_heard};
ghost use Rattle.world_text.specs.Replies.{refusal_text};
ghost use Rattle.world_text.specs.Formats.{version_1};
ghost use Rattle.world_top.specs.Playing.{Plays};
ghost use Rattle.world_top.specs.Watched.{AreWatched, left_at, told_at};

use entity_id::{Entity, OutOfMemory};
use registry::Registry;
use signal_sink::Recorder;
use std::alloc::Global;
use world_model::{Command, Decl, Event, EventKind, Refusal, Reply};
use world_text::{push_heard, push_reply, push_unwatched, push_watched};

/// A watch that a script began: what it hears of, the number of its recorder, and whether it stands.
#[derive(Clone, Copy, Debug)]
pub struct Watch {
    /// What it hears of.
    pub kind: EventKind,
    /// The component.
    pub pool: u32,
    /// The recorder's number among the listeners of this kind and component.
    pub number: u32,
    /// Whether it stands.
    pub stands: bool,
}

/// Begins a watch, and appends the reply.
pub fn begin(
    alloc: Global,
    registry: &mut Registry<Recorder>,
    watches: &mut Vec<Watch>,
    kind: EventKind,
    pool: u32,
    decls: &[Decl],
    out: &mut Vec<u8>,
) -> Result<(), OutOfMemory>
    requires profile { registry.old.world.profile ≡ version_1.profile }
    requires decls { registry.old.world.decls ≡ decls.now }
    requires declared { pool < length decls.now }
    ensures { OnOk result (Plays registry.old registry.new watches.old.items watches.new.items
        out.old.items out.new.items (WatchLine kind pool)) }
{
    let Ok(number) = u32::try_from(watches.len()) else {
        return Err(OutOfMemory);
    };
    match registry.connect(kind, pool, Recorder::new(alloc)) {
        Ok(listener) => {
            watches.push(Watch {
                kind,
                pool,
                number: listener,
                stands: true,
            })?;
            push_watched(number, out)
        }
        Err(refused) => match refused.cause {
            Refusal::TooMany => push_refusal(Refusal::TooMany, decls, out),
            Refusal::OutOfMemory => Err(OutOfMemory),
            // The component is declared.
            _ => unreachable!(),
        },
    }
}

/// Ends a watch, and appends the reply: what it heard.
pub fn end(
    alloc: Global,
    registry: &mut Registry<Recorder>,
    watches: &mut Vec<Watch>,
    number: u32,
    decls: &[Decl],
    out: &mut Vec<u8>,
) -> Result<(), OutOfMemory>
    requires watched { (its : List Watching) × AreWatched registry.old watches.old.items its }
    requires profile { registry.old.world.profile ≡ version_1.profile }
    requires decls { registry.old.world.decls ≡ decls.now }
    ensures { OnOk result (Plays registry.old registry.new watches.old.items watches.new.items
        out.old.items out.new.items (UnwatchLine number)) }
{
    let Some(watch) = standing(watches.as_slice(), number as usize) else {
        return push_refusal(Refusal::Unknown, decls, out);
    };
    let heard = stop(alloc, registry, watches, number as usize)?;
    push_unwatched(number, watch.kind, watch.pool, &heard, decls, out)
}

/// Ends the watches that still stand, by ascending number, and appends what they heard.
pub fn tell_standing(
    alloc: Global,
    registry: &mut Registry<Recorder>,
    watches: &mut Vec<Watch>,
    decls: &[Decl],
    out: &mut Vec<u8>,
) -> Result<(), OutOfMemory>
    requires watched { (its : List Watching) × AreWatched registry.old watches.old.items its }
    requires profile { registry.old.world.profile ≡ version_1.profile }
    requires decls { registry.old.world.decls ≡ decls.now }
    ensures told { OnOk result ((its : List Watching) →
        AreWatched registry.old watches.old.items its →
        out.new.items ≡ out.old.items ++ last_heard registry.old.world its) }
    ensures world { registry.new.world ≡ registry.old.world }
{
    let mut at = 0;
    while at < watches.len() {
        tell_one(alloc, registry, watches, at, decls, out)?;
        at += 1;
    }
    Ok(())
}

// Ends the watch at a place, where it stands, and appends what it heard.
fn tell_one(
    alloc: Global,
    registry: &mut Registry<Recorder>,
    watches: &mut Vec<Watch>,
    at: usize,
    decls: &[Decl],
    out: &mut Vec<u8>,
) -> Result<(), OutOfMemory>
    requires within { at < length watches.old.items }
    requires watched { (its : List Watching) × AreWatched registry.old watches.old.items its }
    requires profile { registry.old.world.profile ≡ version_1.profile }
    requires decls { registry.old.world.decls ≡ decls.now }
    ensures watched { OnOk result ((its : List Watching) →
        AreWatched registry.old watches.old.items its →
        AreWatched registry.new watches.new.items (left_at at its)) }
    ensures told { OnOk result ((its : List Watching) →
        AreWatched registry.old watches.old.items its →
        out.new.items ≡ out.old.items ++ told_at version_1.profile decls.now at its) }
    ensures world { registry.new.world ≡ registry.old.world }
    ensures limit { registry.new.limit ≡ registry.old.limit }
    ensures length { length watches.new.items ≡ length watches.old.items }
{
    let Some(watch) = standing(watches.as_slice(), at) else {
        return Ok(());
    };
    let Ok(number) = u32::try_from(at) else {
        return Err(OutOfMemory);
    };
    let heard = stop(alloc, registry, watches, at)?;
    push_heard(number, watch.kind, watch.pool, &heard, decls, out)
}

// The watch at a place, where it stands.
fn standing(watches: &[Watch], at: usize) -> Option<Watch>
    ensures some { IfSome result (λ watch.
        (slice_get watches.now at ≡ Some watch) × (watch.stands ≡ true)) }
    ensures none { IfNone result ((watch : Watch) →
        slice_get watches.now at ≡ Some watch → watch.stands ≡ false) }
{
    match watches.get(at) {
        Some(watch) if watch.stands => Some(*watch),
        _ => None,
    }
}

// Ends the watch at a place, which stands, and gives the entities of the events that it heard.
fn stop(
    alloc: Global,
    registry: &mut Registry<Recorder>,
    watches: &mut Vec<Watch>,
    at: usize,
) -> Result<Vec<Entity>, OutOfMemory>
    requires within { at < length watches.old.items }
    requires watched { (its : List Watching) × AreWatched registry.old watches.old.items its }
    requires stands { (watch : Watch) →
        slice_get watches.old.items at ≡ Some watch → watch.stands ≡ true }
    ensures heard { IfOk result (λ heard. (its : List Watching) (ends : Watching) →
        AreWatched registry.old watches.old.items its → slice_get its at ≡ Some ends →
        heard.items ≡ ends.heard) }
    ensures watched { OnOk result ((its : List Watching) (ends : Watching) →
        AreWatched registry.old watches.old.items its → slice_get its at ≡ Some ends →
        AreWatched registry.new watches.new.items (slice_set its at (ended ends))) }
    ensures world { registry.new.world ≡ registry.old.world }
    ensures limit { registry.new.limit ≡ registry.old.limit }
    ensures length { length watches.new.items ≡ length watches.old.items }
{
    let watch = watches[at];
    let Ok(recorder) = registry.disconnect(watch.kind, watch.pool, watch.number) else {
        // The recorder of a watch that stands is connected.
        unreachable!()
    };
    watches[at].stands = false;
    entities_of(alloc, recorder.heard())
}

fn entities_of(alloc: Global, events: &[Event]) -> Result<Vec<Entity>, OutOfMemory>
    ensures { IfOk result (λ entities. entities.items ≡ map (λ e. e.entity) events.now) }
{
    let mut entities = Vec::with_capacity(alloc, events.len())?;
    for event in events {
        entities.push(event.entity)?;
    }
    Ok(entities)
}

fn push_refusal(refusal: Refusal, decls: &[Decl], out: &mut Vec<u8>) -> Result<(), OutOfMemory>
    ensures { OnOk result (out.new.items ≡ out.old.items ++ (refusal_text refusal ++ 10 ∷ [])) }
{
    push_reply(&Command::Alive, &Reply::Refused(refusal), decls, out)
}
