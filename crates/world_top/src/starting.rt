//! The program from its arguments to the code that it exits with.

ghost use Rattle.std.specs.Prelude.{◌≡◌, ◌≤◌, drop, IfOk, IfErr};
ghost use Rattle.std.specs.IoError.{error_kind};
ghost use Rattle.std.specs.Process.{exit_status};
ghost use Rattle.std.specs.Vec.Iter.{into_iter_items};
ghost use Rattle.world_top.specs.Starting.{EndsFrom, OnlyTells, outcome_without_words};

use super::program::{end, top};
use super::{Outcome, Status};
use ecs_io::{Sink, Source};
use std::alloc::{AllocError, Global};
use std::env::Args;
use std::io::{self, ErrorKind};
use std::process::ExitCode;
use std::sync::Wait;
use std::thread::Threads;

/// All of the program: from its arguments as [`std::env::args`] gives them, of which the first is its
/// name, to the code that it exits with. It is the number of [`top`] for the words behind the name; 2
/// where the arguments are no text, which is told as other words that are no command; and 7 where there
/// is no memory for them.
pub fn start<R: Threads + Wait + Sync, S: Source, K: Sink, E: Sink>(
    rt: &R,
    alloc: Global,
    arguments: io::Result<Args>,
    source: &mut S,
    sink: &mut K,
    faults: &mut E,
) -> ExitCode
    ensures words { IfOk arguments (λ list. EndsFrom (into_iter_items list)
        (record {
          input = S.left source.old;
          rest = S.left source.new;
          reads_before = S.faults source.old;
          reads_after = S.faults source.new;
          writes_before = K.faults sink.old;
          writes_after = K.faults sink.new;
        })
        (K.holds sink.old) (K.holds sink.new)
        (E.holds faults.old) (E.holds faults.new)
        (E.faults faults.old) (E.faults faults.new)
        (exit_status result)) }
    ensures no_words { IfErr arguments (λ fault. OnlyTells (outcome_without_words (error_kind fault))
        (record {
          input = S.left source.old;
          rest = S.left source.new;
          reads_before = S.faults source.old;
          reads_after = S.faults source.new;
          writes_before = K.faults sink.old;
          writes_after = K.faults sink.new;
        })
        (K.holds sink.old) (K.holds sink.new)
        (E.holds faults.old) (E.holds faults.new)
        (E.faults faults.old) (E.faults faults.new)
        (exit_status result)) }
{
    let status = match arguments {
        Ok(list) => start_with(rt, alloc, list, source, sink, faults),
        Err(fault) => end(faults, outcome_of(fault)),
    };
    status.exit_code()
}

fn start_with<R: Threads + Wait + Sync, S: Source, K: Sink, E: Sink>(
    rt: &R,
    alloc: Global,
    arguments: Args,
    source: &mut S,
    sink: &mut K,
    faults: &mut E,
) -> Status
    ensures { EndsFrom (into_iter_items arguments)
        (record {
          input = S.left source.old;
          rest = S.left source.new;
          reads_before = S.faults source.old;
          reads_after = S.faults source.new;
          writes_before = K.faults sink.old;
          writes_after = K.faults sink.new;
        })
        (K.holds sink.old) (K.holds sink.new)
        (E.holds faults.old) (E.holds faults.new)
        (E.faults faults.old) (E.faults faults.new)
        result.number }
{
    match words_of(alloc, arguments) {
        Ok(words) => top(rt, alloc, &words, source, sink, faults),
        Err(_) => end(faults, Outcome::OutOfMemory),
    }
}

// The words behind the program's name.
fn words_of(alloc: Global, arguments: Args) -> Result<Vec<String>, AllocError>
    ensures { IfOk result (λ words. words.items ≡ drop 1 (into_iter_items arguments)) }
{
    arguments.skip(1).collect(alloc)
}

fn outcome_of(fault: io::Error) -> Outcome
    ensures { result ≡ outcome_without_words (error_kind fault) }
{
    match fault.kind() {
        ErrorKind::OutOfMemory => Outcome::OutOfMemory,
        _ => Outcome::Usage,
    }
}
