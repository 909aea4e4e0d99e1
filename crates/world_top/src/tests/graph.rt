//! Graphs of systems, from the words of the program to its status and its output.

use super::*;

#[test]
fn readers_wait_for_writers_and_not_for_each_other(rt: HostRuntime) -> Result<(), Fail> {
    let readers = b"world 1\ncomponent p\ncomponent q\n\
        system a\nwrite p\nend\nsystem b\nread p\nend\nsystem c\nread p\nend\n\
        system d\nwrite p\nend\nsystem e\nwrite q\nend\ntick 0\npool p\npool q\nend\n";
    let readers_waiting = b"task 0 a top\ntask 1 b after 0\ntask 2 c after 0\n\
        task 3 d after 1 2\ntask 4 e top\nedges 4\n";
    let others = b"world 1\ncomponent p\ncomponent q\n\
        system a\nwrite p\nend\nsystem b\nread q\nlook p\nend\nsystem c\nread q\nnot p\nend\n\
        system d\nread q\nwrite p\nend\ntick 0\npool p\npool q\nend\n";
    let others_waiting =
        b"task 0 a top\ntask 1 b after 0\ntask 2 c after 0\ntask 3 d after 1 2\nedges 4\n";
    let rows: [(&[u8], &[u8]); 3] = [
        (EMPTY, b"edges 0\n"),
        (readers, readers_waiting),
        (others, others_waiting),
    ];
    try_printed(&rt, rt.alloc(), "graph", &rows)?;
    try_bad(
        &rt,
        rt.alloc(),
        "graph",
        &[(b"world 1\ntick 0\n", b"world: line 3\n")],
    )
}

#[test]
fn what_follows_from_other_edges_is_left_out(rt: HostRuntime) -> Result<(), Fail> {
    let implied = b"world 1\ncomponent wood int\ncomponent food int\n\
        system cook\nread wood\nwrite food\nend\nsystem eat\nwrite food\nend\n\
        system count\nread food\nend\nsystem share\nread food\nend\n\
        system spoil\nwrite food\nend\nsystem grow\nwrite wood\nend\n\
        tick 0\npool wood\npool food\nend\n";
    let waiting = b"task 0 cook top\ntask 1 eat after 0\ntask 2 count after 1\n\
        task 3 share after 1\ntask 4 spoil after 2 3\ntask 5 grow after 0\nedges 6\n";
    try_printed(&rt, rt.alloc(), "graph", &[(implied, waiting)])
}

// A document of 64 systems that all write one component.
fn chain(alloc: Global) -> Result<Vec<u8>, Fail> {
    let mut text = Vec::from_slice(alloc, b"world 1\ncomponent p\n")?;
    for tens in b'a'..=b'h' {
        for ones in b'a'..=b'h' {
            text.extend_from_slice(&[b's', b'y', b's', b't', b'e', b'm', b' ', tens, ones])?;
            text.extend_from_slice(b"\nwrite p\nend\n")?;
        }
    }
    text.extend_from_slice(b"tick 0\npool p\nend\n")?;
    Ok(text)
}

#[test]
fn of_systems_that_all_conflict_each_waits_for_the_one_before(rt: HostRuntime) -> Result<(), Fail> {
    let run = run_on(rt.alloc(), "graph", &chain(rt.alloc())?)?;
    assert_eq!(rt; run.status, 0);
    let output = run.output.bytes();
    assert!(rt; output.starts_with(b"task 0 aa top\ntask 1 ab after 0\ntask 2 ac after 1\n"));
    assert!(rt; output.ends_with(b"task 62 hg after 61\ntask 63 hh after 62\nedges 63\n"));
    Ok(())
}
