//! The program: its words, its three streams, and its status.
#![tactic(auto)]

use ecs_io::{StdSink, StdSource};
use std::env;
use std::process::ExitCode;
use world_top::start;

fn main(rt: HostRuntime) -> ExitCode {
    let mut source = StdSource::new(rt.stdin());
    let mut sink = StdSink::new(rt.stdout());
    let mut faults = StdSink::new(rt.stderr());
    let arguments = env::args(&rt);
    start(
        &rt,
        rt.alloc(),
        arguments,
        &mut source,
        &mut sink,
        &mut faults,
    )
}
