//! Runs of systems, from the words of the program to its status and its output.

use super::*;

// A run of so many ticks by so many workers, on an input.
fn run_ticks(alloc: Global, ticks: &str, workers: &str, input: &[u8]) -> Result<Run, Fail> {
    let words = ["run", "--ticks", ticks, "--workers", workers];
    plain_run(alloc, &words, source(alloc, input, 64, &[])?, 10_000)
}

// Whether each input is answered with the output beside it, whatever the number of workers.
fn try_run(
    rt: &impl Abort,
    alloc: Global,
    ticks: &str,
    rows: &[(&[u8], &[u8])],
) -> Result<(), Fail> {
    for (input, output) in rows {
        for workers in ["1", "4", "16"] {
            expect(
                rt,
                &run_ticks(alloc, ticks, workers, input)?,
                0,
                output,
                b"",
            );
        }
    }
    Ok(())
}

#[test]
fn what_is_not_frozen_moves_each_tick(rt: HostRuntime) -> Result<(), Fail> {
    let input = b"world 1\ncomponent position int int\ncomponent velocity int int\n\
        component frozen\ngroup own position get velocity not frozen\n\
        system move\nread velocity\nwrite position\nnot frozen\n\
        do set position.0 + position.0 velocity.0\ndo set position.1 + position.1 velocity.1\nend\n\
        tick 0\nlive 0\nlive 0\nlive 0\n\
        pool position\nrow 0:0 10 20\nrow 1:0 0 0\nrow 2:0 5 5\n\
        pool velocity\nrow 0:0 1 -1\nrow 1:0 2 3\nrow 2:0 9 9\npool frozen\nrow 2:0\nend\n";
    let output = b"world 1\ncomponent position int int\ncomponent velocity int int\n\
        component frozen\ngroup own position get velocity not frozen\n\
        system move\nread velocity\nwrite position\nnot frozen\n\
        do set position.0 + position.0 velocity.0\ndo set position.1 + position.1 velocity.1\nend\n\
        tick 3\nlive 0\nlive 0\nlive 0\n\
        pool position\nrow 0:0 13 17\nrow 1:0 6 9\nrow 2:0 5 5\n\
        pool velocity\nrow 0:0 1 -1\nrow 1:0 2 3\nrow 2:0 9 9\npool frozen\nrow 2:0\nend\n";
    try_run(&rt, rt.alloc(), "0", &[(input, input)])?;
    try_run(&rt, rt.alloc(), "3", &[(input, output)])
}

#[test]
fn an_order_for_a_dead_entity_is_skipped(rt: HostRuntime) -> Result<(), Fail> {
    let input = b"world 1\ncomponent aim entity\ncomponent hp int\n\
        system first\nread aim\ndo kill aim.0\nend\nsystem second\nread aim\ndo kill aim.0\nend\n\
        system third\nread aim\ndo add aim.0 hp.0 -5\nend\n\
        tick 0\nlive 0\nlive 0\npool aim\nrow 0:0 1:0\npool hp\nrow 1:0 9\nend\n";
    let output = b"world 1\ncomponent aim entity\ncomponent hp int\n\
        system first\nread aim\ndo kill aim.0\nend\nsystem second\nread aim\ndo kill aim.0\nend\n\
        system third\nread aim\ndo add aim.0 hp.0 -5\nend\n\
        tick 1\nlive 0\nfree 1\nnext 1\npool aim\nrow 0:0 1:0\npool hp\nend\n";
    try_run(&rt, rt.alloc(), "1", &[(input, output)])
}

#[test]
fn divisions_wrap_and_missing_rows_have_a_default(rt: HostRuntime) -> Result<(), Fail> {
    let input = b"world 1\ncomponent v int int int int\ncomponent r entity\ncomponent w int\n\
        system s\nread r\nwrite v\nlook w\ndo set v.0 / v.0 -1\ndo set v.1 / v.1 0\n\
        do set v.2 + v.2 1\ndo set v.3 at r.0 w.0 42\nend\ntick 0\nlive 0\n\
        pool v\nrow 0:0 -9223372036854775808 7 9223372036854775807 0\n\
        pool r\nrow 0:0 5:0\npool w\nend\n";
    let output = b"world 1\ncomponent v int int int int\ncomponent r entity\ncomponent w int\n\
        system s\nread r\nwrite v\nlook w\ndo set v.0 / v.0 -1\ndo set v.1 / v.1 0\n\
        do set v.2 + v.2 1\ndo set v.3 at r.0 w.0 42\nend\ntick 1\nlive 0\n\
        pool v\nrow 0:0 -9223372036854775808 0 -9223372036854775808 42\n\
        pool r\nrow 0:0 5:0\npool w\nend\n";
    try_run(&rt, rt.alloc(), "1", &[(input, output)])
}

#[test]
fn a_spawned_entity_bears_a_row(rt: HostRuntime) -> Result<(), Fail> {
    let input = b"world 1\ncomponent egg int\ncomponent bird int\n\
        system hatch\nread egg\ndo when < egg.0 1 spawn\ndo bear bird 7\ndo take self egg\nend\n\
        tick 0\nlive 0\nlive 0\npool egg\nrow 0:0 0\nrow 1:0 5\npool bird\nend\n";
    let output = b"world 1\ncomponent egg int\ncomponent bird int\n\
        system hatch\nread egg\ndo when < egg.0 1 spawn\ndo bear bird 7\ndo take self egg\nend\n\
        tick 1\nlive 0\nlive 0\nlive 0\npool egg\npool bird\nrow 2:0 7\nend\n";
    try_run(&rt, rt.alloc(), "1", &[(input, output)])
}

#[test]
fn the_tick_number_stays_within_its_limit(rt: HostRuntime) -> Result<(), Fail> {
    let last = b"world 1\ntick 1000000000000\nend\n";
    try_run(&rt, rt.alloc(), "0", &[(EMPTY, EMPTY), (last, last)])?;
    let past = run_ticks(rt.alloc(), "1", "1", last)?;
    expect(&rt, &past, 8, b"", b"world: tick limit\n");
    let before = b"world 1\ntick 999999999999\nend\n";
    try_run(&rt, rt.alloc(), "1", &[(before, last)])?;
    let past = run_ticks(rt.alloc(), "1000000", "16", before)?;
    expect(&rt, &past, 8, b"", b"world: tick limit\n");
    Ok(())
}

#[test]
fn a_bad_line_comes_before_the_tick_limit(rt: HostRuntime) -> Result<(), Fail> {
    let input = b"world 1\ntick 1000000000000\nend\nend\n";
    let run = run_ticks(rt.alloc(), "1", "1", input)?;
    expect(&rt, &run, 3, b"", b"world: line 4\n");
    Ok(())
}

#[test]
fn options_stand_in_either_order_with_a_space_or_an_equals_sign(
    rt: HostRuntime,
) -> Result<(), Fail> {
    let after = b"world 1\ntick 3\nend\n";
    let rows: [&[&str]; 8] = [
        &["run", "--ticks", "3", "--workers", "2"],
        &["run", "--ticks=3", "--workers", "2"],
        &["run", "--ticks", "3", "--workers=2"],
        &["run", "--ticks=3", "--workers=2"],
        &["run", "--workers", "2", "--ticks", "3"],
        &["run", "--workers=2", "--ticks", "3"],
        &["run", "--workers", "2", "--ticks=3"],
        &["run", "--workers=2", "--ticks=3"],
    ];
    for words in rows {
        let run = plain_run(rt.alloc(), words, source(rt.alloc(), EMPTY, 4, &[])?, 100)?;
        expect(&rt, &run, 0, after, b"");
    }
    Ok(())
}

#[test]
fn other_words_run_nothing(rt: HostRuntime) -> Result<(), Fail> {
    let rows: [&[&str]; 16] = [
        &["run"],
        &["run", "--ticks", "3"],
        &["run", "--ticks", "3", "--workers"],
        &["run", "--ticks", "3", "--workers", "17"],
        &["run", "--ticks", "3", "--workers", "0"],
        &["run", "--ticks", "3", "--workers", "01"],
        &["run", "--ticks", "03", "--workers", "1"],
        &["run", "--ticks", "+3", "--workers", "1"],
        &["run", "--ticks", "", "--workers", "1"],
        &["run", "--ticks", "1000001", "--workers", "1"],
        &["run", "--ticks", "3", "--ticks", "3"],
        &["run", "--workers=1", "--workers=1"],
        &["run", "--ticks=3", "--workers=1", "--ticks=3"],
        &["run", "--ticks=", "3", "--workers=1"],
        &["run", "--ticks", "--workers=1", "3"],
        &["run", "--ticks", "3", "--workers", "1", "--workers"],
    ];
    for words in rows {
        let run = plain_run(rt.alloc(), words, source(rt.alloc(), EMPTY, 4, &[])?, 100)?;
        expect(&rt, &run, 2, b"", b"world: usage\n");
    }
    Ok(())
}
