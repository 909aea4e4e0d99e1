ghost use Rattle.std.specs.Prelude.{◌≡◌, ◌≤◌, Some, false, IfOk, IfErr};
ghost use Rattle.world_top.specs.Endings.{IsRefusal, IsUnread, MeansFor, Takes, outcome_for};
ghost use Rattle.world_top.specs.Output.{IsOutput, IsOutputCause};
ghost use Rattle.world_top.specs.Words.{IsInRange, reads_input as reads_input_of};

use super::apply::apply;
use super::canonical::canonical_text;
use super::generate::generate;
use super::graph::graph;
use super::pack::{pack, unpack};
use super::refused::InputRefused;
use super::run::run;
use super::sharing::run_by;
use super::team::Team;
use super::{Outcome, Verb};
use ecs_io::{ReadRefused, Sink, Source, read_all, write_all};
use std::alloc::Global;
use std::sync::Wait;
use std::thread::Threads;
use tick_runner::Gate;

// The longest input that the program reads.
const INPUT_LIMIT: usize = 67_108_864;

/// Prints what a command makes of the input that the source gives, if it takes any. All output is made
/// before any is written.
pub fn perform<S: Source, K: Sink>(
    alloc: Global,
    verb: Verb,
    source: &mut S,
    sink: &mut K,
) -> Outcome
    requires { IsInRange verb }
    ensures { MeansFor (Some verb)
        (record {
          input = S.left source.old;
          rest = S.left source.new;
          reads_before = S.faults source.old;
          reads_after = S.faults source.new;
          writes_before = K.faults sink.old;
          writes_after = K.faults sink.new;
        })
        (K.holds sink.old) (K.holds sink.new) result }
{
    let out = match output(alloc, verb, source) {
        Ok(out) => out,
        Err(outcome) => return outcome,
    };
    match write_all(sink, &out) {
        Ok(()) => Outcome::Done,
        Err(_) => Outcome::WriteFault,
    }
}

/// As [`perform`], with the ticks of `run` carried out by a team.
pub fn perform_by<R: Threads + Wait + Sync, T: Gate + Sync, S: Source, K: Sink>(
    team: &Team<'_, R, T>,
    alloc: Global,
    verb: Verb,
    source: &mut S,
    sink: &mut K,
) -> Outcome
    requires { IsInRange verb }
    ensures { MeansFor (Some verb)
        (record {
          input = S.left source.old;
          rest = S.left source.new;
          reads_before = S.faults source.old;
          reads_after = S.faults source.new;
          writes_before = K.faults sink.old;
          writes_after = K.faults sink.new;
        })
        (K.holds sink.old) (K.holds sink.new) result }
{
    let out = match output_by(team, alloc, verb, source) {
        Ok(out) => out,
        Err(outcome) => return outcome,
    };
    match write_all(sink, &out) {
        Ok(()) => Outcome::Done,
        Err(_) => Outcome::WriteFault,
    }
}

// What a command makes of its input.
fn output<S: Source>(alloc: Global, verb: Verb, source: &mut S) -> Result<Vec<u8>, Outcome>
    requires { IsInRange verb }
    ensures ok { IfOk result (λ out. Takes (reads_input_of verb)
        (S.left source.old) (S.left source.new) (λ input. IsOutput verb input out.items)) }
    ensures err { IfErr result
        (IsRefusal verb
        (S.left source.old) (S.left source.new) (S.faults source.old) (S.faults source.new)) }
    ensures unread { reads_input_of verb ≡ false → IsUnread
        (S.left source.old) (S.left source.new) (S.faults source.old) (S.faults source.new) }
{
    let input = input_for(alloc, verb, source)?;
    match output_of(alloc, verb, input) {
        Ok(out) => Ok(out),
        Err(refused) => Err(outcome_of(refused)),
    }
}

// What a command makes of its input, with the ticks of `run` carried out by a team.
fn output_by<R: Threads + Wait + Sync, T: Gate + Sync, S: Source>(
    team: &Team<'_, R, T>,
    alloc: Global,
    verb: Verb,
    source: &mut S,
) -> Result<Vec<u8>, Outcome>
    requires { IsInRange verb }
    ensures ok { IfOk result (λ out. Takes (reads_input_of verb)
        (S.left source.old) (S.left source.new) (λ input. IsOutput verb input out.items)) }
    ensures err { IfErr result
        (IsRefusal verb
        (S.left source.old) (S.left source.new) (S.faults source.old) (S.faults source.new)) }
    ensures unread { reads_input_of verb ≡ false → IsUnread
        (S.left source.old) (S.left source.new) (S.faults source.old) (S.faults source.new) }
{
    let input = input_for(alloc, verb, source)?;
    match made_by(team, alloc, verb, input) {
        Ok(out) => Ok(out),
        Err(refused) => Err(outcome_of(refused)),
    }
}

// What a command takes for its input: what the source gives, up to its end, or nothing.
fn input_for<S: Source>(alloc: Global, verb: Verb, source: &mut S) -> Result<Vec<u8>, Outcome>
    ensures ok { IfOk result (λ input. Takes (reads_input_of verb)
        (S.left source.old) (S.left source.new) (λ bytes. bytes ≡ input.items)) }
    ensures err { IfErr result
        (IsRefusal verb
        (S.left source.old) (S.left source.new) (S.faults source.old) (S.faults source.new)) }
    ensures unread { reads_input_of verb ≡ false → IsUnread
        (S.left source.old) (S.left source.new) (S.faults source.old) (S.faults source.new) }
{
    if !verb.reads_input() {
        return Ok(Vec::new(alloc));
    }
    match read_all(alloc, source, INPUT_LIMIT) {
        Ok(input) => Ok(input),
        Err(ReadRefused::ReadFailed) => Err(Outcome::ReadFault),
        Err(ReadRefused::TooLong) => Err(Outcome::TooLong),
        Err(ReadRefused::OutOfMemory) => Err(Outcome::OutOfMemory),
    }
}

fn outcome_of(refused: InputRefused) -> Outcome
    ensures { result ≡ outcome_for refused }
{
    match refused {
        InputRefused::BadInput { at } => Outcome::BadInput { at },
        InputRefused::OutOfMemory => Outcome::OutOfMemory,
        InputRefused::TickLimit => Outcome::TickLimit,
    }
}

// What a command makes of an input.
fn output_of(alloc: Global, verb: Verb, input: Vec<u8>) -> Result<Vec<u8>, InputRefused>
    requires { IsInRange verb }
    ensures ok { IfOk result (λ out. IsOutput verb input.items out.items) }
    ensures cause { IfErr result (IsOutputCause verb input.items) }
{
    match verb {
        Verb::Snapshot => Ok(canonical_text(alloc, input)?),
        Verb::Apply => Ok(apply(alloc, &input)?),
        Verb::Run { ticks, .. } => run(alloc, ticks, input),
        Verb::Graph => Ok(graph(alloc, input)?),
        Verb::Pack => Ok(pack(alloc, input)?),
        Verb::Unpack => Ok(unpack(alloc, input)?),
        Verb::Gen {
            number,
            count,
            ticks,
        } => Ok(generate(alloc, number, count, ticks)?),
    }
}

// What a command makes of an input, with the ticks of `run` carried out by a team.
fn made_by<R: Threads + Wait + Sync, T: Gate + Sync>(
    team: &Team<'_, R, T>,
    alloc: Global,
    verb: Verb,
    input: Vec<u8>,
) -> Result<Vec<u8>, InputRefused>
    requires { IsInRange verb }
    ensures ok { IfOk result (λ out. IsOutput verb input.items out.items) }
    ensures cause { IfErr result (IsOutputCause verb input.items) }
{
    match verb {
        Verb::Run { ticks, .. } => run_by(team, alloc, ticks, input),
        _ => output_of(alloc, verb, input),
    }
}
