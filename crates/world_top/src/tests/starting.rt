//! The program from its arguments on, and the laws of its endings.

use super::*;
use std::env::Args;
use std::io::{self, ErrorKind};
use std::process::ExitCode;
use std::sync::Wait;
use std::thread::Threads;

// The code that the program exits with, and whether it wrote and told this.
fn started<R: Abort + Threads + Wait + Sync>(
    rt: &R,
    alloc: Global,
    arguments: io::Result<Args>,
    written: &[u8],
    told: &[u8],
) -> Result<ExitCode, Fail> {
    let mut input = source(alloc, EMPTY, 5, &[])?;
    let mut output = sink(alloc, 100)?;
    let mut faults = sink(alloc, 100)?;
    let code = start(rt, alloc, arguments, &mut input, &mut output, &mut faults);
    assert!(rt; output.bytes() == written);
    assert!(rt; faults.bytes() == told);
    Ok(code)
}

#[test]
fn the_first_argument_is_no_word(rt: HostRuntime) -> Result<(), Fail> {
    let arguments = list_of(rt.alloc(), &["snapshot", "snapshot"])?.into_iter();
    let code = started(&rt, rt.alloc(), Ok(arguments), EMPTY, b"")?;
    assert_eq!(rt; code, ExitCode::from(0));
    Ok(())
}

#[test]
fn arguments_that_are_no_text_are_no_command(rt: HostRuntime) -> Result<(), Fail> {
    let fault = io::Error::from(ErrorKind::InvalidData);
    let code = started(&rt, rt.alloc(), Err(fault), b"", b"world: usage\n")?;
    assert_eq!(rt; code, ExitCode::from(2));
    Ok(())
}

#[test]
fn top_does_what_plain_does(rt: HostRuntime) -> Result<(), Fail> {
    let words = list_of(rt.alloc(), &["snapshot"])?;
    let mut input = source(rt.alloc(), EMPTY, 5, &[])?;
    let mut output = sink(rt.alloc(), 100)?;
    let mut faults = sink(rt.alloc(), 100)?;
    let status = top(
        &rt,
        rt.alloc(),
        &words,
        &mut input,
        &mut output,
        &mut faults,
    );
    assert_eq!(rt; status.number, 0);
    assert!(rt; output.bytes() == EMPTY);
    Ok(())
}

#[test]
fn the_laws_are_called() {
    one_output();
    every_input_is_answered();
    ticks_keep_documents_lawful();
    runs_in_parts();
    good_inputs_are_printed::<MemSink, MemSink>(&[]);
    success_prints_the_output::<MemSink, MemSink>(&[]);
    bad_inputs_are_told::<MemSink, MemSink>(&[]);
    long_inputs_are_told::<MemSink, MemSink>(&[]);
    past_inputs_are_told::<MemSink, MemSink>(&[]);
}
