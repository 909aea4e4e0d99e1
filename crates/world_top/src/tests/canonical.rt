//! Documents printed, and words that are no command.

use super::*;

#[test]
fn a_document_is_printed(rt: HostRuntime) -> Result<(), Fail> {
    try_printed(&rt, rt.alloc(), "snapshot", &[(EMPTY, EMPTY)])
}

#[test]
fn the_first_bad_line_is_told(rt: HostRuntime) -> Result<(), Fail> {
    let rows: [(&[u8], &[u8]); 6] = [
        (b"world 1\ntick 0\n", b"world: line 3\n"),
        (
            b"world 1\ncomponent a\ntick 0\nfree 0\nnext 0\npool a\nrow 0:0\nend\n",
            b"world: line 7\n",
        ),
        (
            b"world 1\ntick 0\nfree 0\nfree 0\nnext 1\nnext 1\nend\n",
            b"world: line 6\n",
        ),
        (b"world 1\ntick 0\nfree 0\nend\n", b"world: line 4\n"),
        (b"world 1\ntick 0\nend\nend\n", b"world: line 4\n"),
        (b"", b"world: line 1\n"),
    ];
    try_bad(&rt, rt.alloc(), "snapshot", &rows)
}

#[test]
fn other_words_are_no_command(rt: HostRuntime) -> Result<(), Fail> {
    let rows: [&[&str]; 4] = [&[], &["Snapshot"], &["snapshot", "snapshot"], &["--help"]];
    for words in rows {
        let run = plain_run(rt.alloc(), words, source(rt.alloc(), EMPTY, 4, &[])?, 100)?;
        expect(&rt, &run, 2, b"", b"world: usage\n");
    }
    Ok(())
}
