//! Streams that fail, and that give or take little at a time; texts that are wrong in one place.

ghost use Rattle.std.specs.Prelude.{◌≤◌};

use super::*;

const SNAPSHOT: [&str; 1] = ["snapshot"];

// The empty document in pieces of so many bytes, where the reads of these numbers fail.
fn read_in(alloc: Global, piece: usize, fails: &[u64]) -> Result<Run, Fail>
    requires { 1 ≤ piece }
{
    plain_run(alloc, &SNAPSHOT, source(alloc, EMPTY, piece, fails)?, 100)
}

// The empty document, written to this sink.
fn written_to(alloc: Global, output: MemSink) -> Result<Run, Fail> {
    let source = source(alloc, EMPTY, 64, &[])?;
    run_between(alloc, &SNAPSHOT, source, output, sink(alloc, 100)?)
}

#[test]
fn a_document_may_come_a_byte_at_a_time(rt: HostRuntime) -> Result<(), Fail> {
    expect(&rt, &read_in(rt.alloc(), 1, &[])?, 0, EMPTY, b"");
    Ok(())
}

#[test]
fn behind_a_failed_read_nothing_is_written(rt: HostRuntime) -> Result<(), Fail> {
    let at_once = read_in(rt.alloc(), 19, &[0])?;
    expect(&rt, &at_once, 4, b"", b"world: read fault\n");
    // The read that would tell the end of the input.
    let behind_all = read_in(rt.alloc(), 19, &[1])?;
    expect(&rt, &behind_all, 4, b"", b"world: read fault\n");
    let amid = read_in(rt.alloc(), 4, &[1])?;
    expect(&rt, &amid, 4, b"", b"world: read fault\n");
    Ok(())
}

#[test]
fn a_full_sink_holds_the_front_of_the_output(rt: HostRuntime) -> Result<(), Fail> {
    for room in 0..19 {
        let run = written_to(rt.alloc(), sink(rt.alloc(), room)?)?;
        expect(&rt, &run, 5, &EMPTY[..room], b"world: write fault\n");
    }
    let run = written_to(rt.alloc(), sink(rt.alloc(), 19)?)?;
    expect(&rt, &run, 0, EMPTY, b"");
    Ok(())
}

#[test]
fn behind_a_failed_write_nothing_more_is_written(rt: HostRuntime) -> Result<(), Fail> {
    let fails = counts(rt.alloc(), &[1])?;
    let output = MemSink::new(rt.alloc(), 100, 8, fails)?;
    let run = written_to(rt.alloc(), output)?;
    expect(&rt, &run, 5, b"world 1\n", b"world: write fault\n");
    Ok(())
}

#[test]
fn a_failed_flush_is_told_though_all_is_written(rt: HostRuntime) -> Result<(), Fail> {
    let run = written_to(rt.alloc(), sink(rt.alloc(), 100)?.fail_flush())?;
    expect(&rt, &run, 5, EMPTY, b"world: write fault\n");
    Ok(())
}

#[test]
fn a_full_fault_sink_changes_no_status(rt: HostRuntime) -> Result<(), Fail> {
    let source = source(rt.alloc(), EMPTY, 64, &[])?;
    let output = sink(rt.alloc(), 100)?;
    let run = run_between(rt.alloc(), &[], source, output, sink(rt.alloc(), 3)?)?;
    expect(&rt, &run, 2, b"", b"wor");
    Ok(())
}

#[test]
fn an_input_past_the_limit_is_told(rt: HostRuntime) -> Result<(), Fail> {
    let bytes = vec![in rt.alloc(); b'a'; 67_108_865]?;
    let long = MemSource::new(bytes, 1 << 20, counts(rt.alloc(), &[])?);
    let run = plain_run(rt.alloc(), &SNAPSHOT, long, 100)?;
    expect(&rt, &run, 6, b"", b"world: input too long\n");
    Ok(())
}

#[test]
fn one_wrong_byte_makes_its_line_bad(rt: HostRuntime) -> Result<(), Fail> {
    let rows: [(&[u8], &[u8]); 5] = [
        (b"world 1\ntick 0\nend", b"world: line 3\n"),
        (b"world 1\ntick  0\nend\n", b"world: line 2\n"),
        (b"world 1\ntick 00\nend\n", b"world: line 2\n"),
        (b"world 1\ntick 1000000000001\nend\n", b"world: line 2\n"),
        (b"world 1\r\ntick 0\nend\n", b"world: line 1\n"),
    ];
    try_bad(&rt, rt.alloc(), "snapshot", &rows)
}
