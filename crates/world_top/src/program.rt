ghost use Rattle.std.specs.Prelude.{◌≡◌};
ghost use Rattle.ecs_io.specs.Streams.{Grows, GrowsByFront, Rose};
ghost use Rattle.world_top.specs.Endings.{Ends, fault_line, number_of};

use super::perform::{perform, perform_by};
use super::reporting::report;
use super::team::Team;
use super::verb::verb_of;
use super::{Outcome, Status};
use ecs_io::{Sink, Source};
use std::alloc::Global;
use std::sync::Wait;
use std::thread::Threads;
use tick_runner::{Gate, NoGate};

/// Does what the words say: all that the program does. What it prints goes to `sink`, and the line
/// that tells any other ending than success to `faults`. Every status has its cause: 2 the words, 3
/// the input's first bad line or field, 4 a failed read, 5 a failed write, 6 an input that is too long, 7
/// want of memory, 8 a tick number that would pass its limit. `run` starts as many threads as it is told
/// to where they are more than one; what it prints is the same.
pub fn top<R: Threads + Wait + Sync, S: Source, K: Sink, E: Sink>(
    rt: &R,
    alloc: Global,
    words: &[String],
    source: &mut S,
    sink: &mut K,
    faults: &mut E,
) -> Status
    ensures { Ends words.now
        (record {
          input = S.left source.old;
          rest = S.left source.new;
          reads_before = S.faults source.old;
          reads_after = S.faults source.new;
          writes_before = K.faults sink.old;
          writes_after = K.faults sink.new;
        })
        (K.holds sink.old) (K.holds sink.new)
        (E.holds faults.old) (E.holds faults.new)
        (E.faults faults.old) (E.faults faults.new)
        result.number }
{
    top_gated(rt, alloc, words, source, sink, faults, &NoGate)
}

/// As [`top`]; where `run` has several threads, each calls the gate once it holds all that a system
/// works on, and before the system runs.
pub fn top_gated<R: Threads + Wait + Sync, S: Source, K: Sink, E: Sink, T: Gate + Sync>(
    rt: &R,
    alloc: Global,
    words: &[String],
    source: &mut S,
    sink: &mut K,
    faults: &mut E,
    gate: &T,
) -> Status
    ensures { Ends words.now
        (record {
          input = S.left source.old;
          rest = S.left source.new;
          reads_before = S.faults source.old;
          reads_after = S.faults source.new;
          writes_before = K.faults sink.old;
          writes_after = K.faults sink.new;
        })
        (K.holds sink.old) (K.holds sink.new)
        (E.holds faults.old) (E.holds faults.new)
        (E.faults faults.old) (E.faults faults.new)
        result.number }
{
    match verb_of(words) {
        Some(verb) if verb.workers() > 1 => {
            let team = Team {
                rt,
                gate,
                workers: verb.workers(),
            };
            end(faults, perform_by(&team, alloc, verb, source, sink))
        }
        _ => plain(alloc, words, source, sink, faults),
    }
}

/// As [`top`], on one thread. It always returns.
pub fn plain<S: Source, K: Sink, E: Sink>(
    alloc: Global,
    words: &[String],
    source: &mut S,
    sink: &mut K,
    faults: &mut E,
) -> Status
    ensures { Ends words.now
        (record {
          input = S.left source.old;
          rest = S.left source.new;
          reads_before = S.faults source.old;
          reads_after = S.faults source.new;
          writes_before = K.faults sink.old;
          writes_after = K.faults sink.new;
        })
        (K.holds sink.old) (K.holds sink.new)
        (E.holds faults.old) (E.holds faults.new)
        (E.faults faults.old) (E.faults faults.new)
        result.number }
{
    let outcome = match verb_of(words) {
        Some(verb) => perform(alloc, verb, source, sink),
        None => Outcome::Usage,
    };
    end(faults, outcome)
}

/// Tells an outcome, and gives its status. A line that can't be written changes no status.
pub fn end<E: Sink>(faults: &mut E, outcome: Outcome) -> Status
    ensures status { result.number ≡ number_of outcome }
    ensures front { GrowsByFront (E.holds faults.old) (E.holds faults.new) (fault_line outcome) }
    ensures whole { (Rose (E.faults faults.old) (E.faults faults.new) → ⊥) →
        Grows (E.holds faults.old) (E.holds faults.new) (fault_line outcome) }
{
    let _ = report(faults, outcome);
    outcome.status()
}
