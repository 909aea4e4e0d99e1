//! Summaries of made worlds, from the words of the program to its status and its output.

use super::*;

// The source of a command that must not read it: each of its reads would fail.
fn unreadable(alloc: Global) -> Result<MemSource, Fail> {
    source(alloc, EMPTY, 5, &[0, 1, 2, 3, 4, 5])
}

fn gen_run(alloc: Global, words: &[&str]) -> Result<Run, Fail> {
    plain_run(alloc, words, unreadable(alloc)?, 100)
}

#[test]
fn a_made_world_is_summed_up_after_its_ticks(rt: HostRuntime) -> Result<(), Fail> {
    let rows: [(&[&str], &[u8]); 5] = [
        (
            &["gen", "1", "2", "0"],
            b"entities 2\nrows 16\nmembers 2 2 2\nsum 2206\ntick 0\n",
        ),
        (
            &["gen", "1", "2", "1"],
            b"entities 2\nrows 16\nmembers 2 2 2\nsum 3129\ntick 1\n",
        ),
        (
            &["gen", "65538", "2", "1"],
            b"entities 2\nrows 16\nmembers 2 2 2\nsum 3129\ntick 1\n",
        ),
        (
            &["gen", "1", "0", "3"],
            b"entities 0\nrows 0\nmembers 0 0 0\nsum 0\ntick 3\n",
        ),
        (
            &["gen", "4294967295", "0", "1000"],
            b"entities 0\nrows 0\nmembers 0 0 0\nsum 0\ntick 1000\n",
        ),
    ];
    for (words, output) in rows {
        expect(&rt, &gen_run(rt.alloc(), words)?, 0, output, b"");
    }
    Ok(())
}

#[test]
fn a_command_that_reads_none_leaves_its_source_as_it_was(rt: HostRuntime) -> Result<(), Fail> {
    let rows: [(&[&str], u8); 3] = [(&["gen", "1", "2", "1"], 0), (&["gen"], 2), (&["draw"], 2)];
    for (words, status) in rows {
        let list = list_of(rt.alloc(), words)?;
        let mut source = source(rt.alloc(), EMPTY, 64, &[])?;
        let mut output = sink(rt.alloc(), 100)?;
        let mut faults = sink(rt.alloc(), 100)?;
        let ended = plain(rt.alloc(), &list, &mut source, &mut output, &mut faults);
        assert_eq!(rt; ended.number, status);
        let snapshot = list_of(rt.alloc(), &["snapshot"])?;
        let mut left = sink(rt.alloc(), 100)?;
        let again = plain(rt.alloc(), &snapshot, &mut source, &mut left, &mut faults);
        assert_eq!(rt; again.number, 0);
        assert!(rt; left.bytes() == EMPTY);
    }
    Ok(())
}

#[test]
fn the_numbers_of_gen_are_three_within_their_limits(rt: HostRuntime) -> Result<(), Fail> {
    let rows: [&[&str]; 14] = [
        &["gen"],
        &["gen", "1"],
        &["gen", "1", "2"],
        &["gen", "1", "2", "3", "4"],
        &["gen", "01", "2", "1"],
        &["gen", "1", "+2", "1"],
        &["gen", "1", "2", "-1"],
        &["gen", "1", "2", ""],
        &["gen", "1", "2 ", "1"],
        &["gen", "one", "2", "1"],
        &["gen", "4294967296", "2", "1"],
        &["gen", "1", "1000001", "1"],
        &["gen", "1", "2", "1000001"],
        &["Gen", "1", "2", "1"],
    ];
    for words in rows {
        let run = gen_run(rt.alloc(), words)?;
        expect(&rt, &run, 2, b"", b"world: usage\n");
    }
    Ok(())
}
