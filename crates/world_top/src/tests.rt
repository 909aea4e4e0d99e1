//! Calls of the program over streams in memory: how they end, what they write and what they tell.

ghost use Rattle.std.specs.Prelude.{◌≤◌};

use super::*;
use ecs_io::{MemSink, MemSource};
use entity_id::Counts;
use std::alloc::Global;
use std::process::Abort;
use std::test::Fail;

mod apply;
mod calls;
mod canonical;
mod generating;
mod graph;
mod groups;
mod packing;
mod running;
mod starting;
mod streams;
mod system_lines;
mod systems;
mod texts;
mod watches;

const EMPTY: &[u8] = b"world 1\ntick 0\nend\n";

// How a run ended: its status, what it wrote, and what it wrote on the fault sink.
#[derive(Drop)]
struct Run {
    status: u8,
    output: MemSink,
    faults: MemSink,
}

fn counts(alloc: Global, numbers: &[u64]) -> Result<Counts, Fail> {
    Ok(Counts::from_vec(Vec::from_slice(alloc, numbers)?))
}

fn source(alloc: Global, bytes: &[u8], piece: usize, fails: &[u64]) -> Result<MemSource, Fail>
    requires { 1 ≤ piece }
{
    let bytes = Vec::from_slice(alloc, bytes)?;
    Ok(MemSource::new(bytes, piece, counts(alloc, fails)?))
}

fn sink(alloc: Global, room: usize) -> Result<MemSink, Fail> {
    Ok(MemSink::new(alloc, room, 7, counts(alloc, &[])?)?)
}

fn list_of(alloc: Global, words: &[&str]) -> Result<Vec<String>, Fail> {
    let mut list = Vec::new(alloc);
    for word in words {
        list.push(String::from_str(alloc, word)?)?;
    }
    Ok(list)
}

// How a call of the program ends over these streams.
fn run_between(
    alloc: Global,
    words: &[&str],
    mut source: MemSource,
    mut output: MemSink,
    mut faults: MemSink,
) -> Result<Run, Fail> {
    let list = list_of(alloc, words)?;
    let status = plain(alloc, &list, &mut source, &mut output, &mut faults).number;
    Ok(Run {
        status,
        output,
        faults,
    })
}

fn plain_run(alloc: Global, words: &[&str], source: MemSource, room: usize) -> Result<Run, Fail> {
    run_between(alloc, words, source, sink(alloc, room)?, sink(alloc, 100)?)
}

fn expect(rt: &impl Abort, run: &Run, status: u8, output: &[u8], told: &[u8]) {
    assert_eq!(rt; run.status, status);
    assert!(rt; run.output.bytes() == output);
    assert!(rt; run.faults.bytes() == told);
}

// A command's run on an input, whose output fits.
fn run_on(alloc: Global, command: &str, input: &[u8]) -> Result<Run, Fail> {
    plain_run(alloc, &[command], source(alloc, input, 64, &[])?, 1 << 26)
}

// Whether each input is answered with the output beside it.
fn try_printed(
    rt: &impl Abort,
    alloc: Global,
    command: &str,
    rows: &[(&[u8], &[u8])],
) -> Result<(), Fail> {
    for (input, output) in rows {
        expect(rt, &run_on(alloc, command, input)?, 0, output, b"");
    }
    Ok(())
}

// Whether each input is answered with a bad line, which is told as it stands beside it.
fn try_bad(
    rt: &impl Abort,
    alloc: Global,
    command: &str,
    rows: &[(&[u8], &[u8])],
) -> Result<(), Fail> {
    for (input, told) in rows {
        expect(rt, &run_on(alloc, command, input)?, 3, b"", told);
    }
    Ok(())
}
