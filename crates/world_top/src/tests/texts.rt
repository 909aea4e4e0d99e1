//! Texts of worlds, of scripts and of replies, read and printed by the calls of the libraries.

ghost use Rattle.std.specs.Prelude.{◌≤◌, length};
ghost use Rattle.world_model.specs.Worlds.{component_limit};

use super::*;
use entity_id::Entity;
use std::alloc::Global;
use world_model::{Command, Decl, EventKind, Reply, Row};
use world_text::{
    ScriptLine, TextRefused, after_first_line, after_last_line, push_heard, push_reply,
    push_unwatched, push_watched, push_world, read_command, read_front, read_script, read_world,
    take_script_line, write_world,
};

const DOCUMENT: &[u8] =
    b"world 1\ncomponent a int\ncomponent b entity int\ntick 0\nlive 0\npool a\npool b\nend\n";

const SCRIPT: &[u8] = b"script\nwatch update a\nall_of 0:0 b a\nunwatch 0\nend\n";

// The document and the script behind it.
fn scripted(alloc: Global) -> Result<Vec<u8>, Fail> {
    let mut text = Vec::from_slice(alloc, DOCUMENT)?;
    text.extend_from_slice(SCRIPT)?;
    Ok(text)
}

// How many of these lines are read.
fn how_many_are_read(alloc: Global, lines: &[&[u8]], decls: &[Decl]) -> usize
    requires { length decls.now ≤ component_limit }
{
    lines
        .iter()
        .filter(|line| read_command(alloc, line, decls).is_ok())
        .count()
}

#[test]
fn lines_of_a_script_have_their_form(rt: HostRuntime) -> Result<(), Fail> {
    let taken: [&[u8]; 26] = [
        b"create",
        b"hint 1048575:0",
        b"hint null",
        b"destroy 0:0",
        b"valid null",
        b"emplace 0:0 b null -9223372036854775808",
        b"emplace_or_replace 0:0 a 4",
        b"replace 0:0 b 1048574:4094 0",
        b"patch 0:0 b.1 7",
        b"remove 0:0 a",
        b"erase 0:0 b",
        b"clear a",
        b"get 7:9 a",
        b"all_of 0:0 b a",
        b"any_of null a",
        b"orphan 0:0",
        b"alive",
        b"size",
        b"view a",
        b"view b a",
        b"view b not a",
        b"group own a",
        b"group own b a get a not b",
        b"members 4294967295",
        b"sort pool b.1",
        b"sort group 0 a.0",
    ];
    let refused: [&[u8]; 26] = [
        b"",
        b"create ",
        b" create",
        b"create\ncreate",
        b"hint 1048575:4095",
        b"destroy 00:0",
        b"emplace 0:0 a",
        b"emplace 0:0 a 4 5",
        b"emplace 0:0 b 1048575:0 1",
        b"emplace 0:0 c 1",
        b"patch 0:0 b.2 7",
        b"patch 0:0 b.0 7",
        b"clear c",
        b"all_of 0:0",
        b"any_of 0:0 a a",
        b"view",
        b"view not a",
        b"view a not",
        b"view a not a",
        b"watch update a",
        b"unwatch 0",
        b"group get a",
        b"group own a a",
        b"members 4294967296",
        b"sort pool b.0",
        b"sort group a.0",
    ];
    let read = read_world(rt.alloc(), DOCUMENT);
    assert!(rt; read.is_ok());
    if let Ok(document) = read {
        let decls = document.world.decls.as_slice();
        assert_eq!(rt; how_many_are_read(rt.alloc(), &taken, decls), 26);
        assert_eq!(rt; how_many_are_read(rt.alloc(), &refused, decls), 0);
    }
    Ok(())
}

#[test]
fn the_front_of_a_text_is_its_document(rt: HostRuntime) -> Result<(), Fail> {
    match read_front(rt.alloc(), &scripted(rt.alloc())?) {
        Ok(front) => {
            assert_eq!(rt; front.taken, 79);
            assert_eq!(rt; front.lines, 8);
            let mut out = Vec::new(rt.alloc());
            push_world(&mut out, &front.document)?;
            assert_eq!(rt; out.as_slice(), DOCUMENT);
            let whole = write_world(rt.alloc(), &front.document)?;
            assert_eq!(rt; whole.as_slice(), DOCUMENT);
        }
        Err(refused) => panic!(rt; "{refused:?}"),
    }
    Ok(())
}

#[test]
fn a_script_is_taken_line_by_line(rt: HostRuntime) {
    let behind = after_first_line(SCRIPT);
    assert_eq!(rt;
        behind,
        Some(b"watch update a\nall_of 0:0 b a\nunwatch 0\nend\n".as_slice())
    );
    match take_script_line(rt.alloc(), &[], b"unwatch 7\nend\n") {
        Ok((ScriptLine::Unwatch { number }, rest)) => {
            assert_eq!(rt; number, 7);
            assert_eq!(rt; after_last_line(rest), Some(b"".as_slice()));
        }
        _ => panic!(rt; "another line"),
    }
}

#[test]
fn a_script_keeps_names_in_ascending_number(rt: HostRuntime) -> Result<(), Fail> {
    let read = read_script(rt.alloc(), &scripted(rt.alloc())?);
    assert!(rt; read.is_ok());
    if let Ok((document, script)) = read {
        assert_eq!(rt; document.world.slots.as_slice().len(), 1);
        match script.as_slice() {
            [
                ScriptLine::Watch { kind, pool },
                ScriptLine::Run(Command::AllOf { pools, .. }),
                ScriptLine::Unwatch { number },
            ] => {
                assert_eq!(rt; *kind, EventKind::Update);
                assert_eq!(rt; *pool, 0);
                assert_eq!(rt; pools.as_slice(), [0, 1].as_slice());
                assert_eq!(rt; *number, 0);
            }
            _ => panic!(rt; "another script"),
        }
    }
    Ok(())
}

#[test]
fn the_first_bad_line_of_a_script_is_told(rt: HostRuntime) -> Result<(), Fail> {
    let rows: [(&[u8], u64); 5] = [
        (b"world 1\ntick 0\n", 3),
        (b"world 1\ntick 0\nend\n", 4),
        (b"world 1\ntick 0\nend\nscript\nwatch update a\nend\n", 5),
        (b"world 1\ntick 0\nend\nscript\nsize\n", 6),
        (b"world 1\ntick 0\nend\nscript\nend\nend\n", 6),
    ];
    for (text, bad) in rows {
        match read_script(rt.alloc(), text) {
            Err(refused) => assert_eq!(rt; refused, TextRefused::BadLine { line: bad }),
            Ok(_) => assert_eq!(rt; bad, 0),
        }
    }
    Ok(())
}

#[test]
fn replies_and_events_are_lines(rt: HostRuntime) -> Result<(), Fail> {
    let first = Entity {
        index: 0,
        version: 0,
    };
    let second = Entity {
        index: 7,
        version: 3,
    };
    let row = Row { f: [-1, 5, 0, 0] };
    let mut out = Vec::new(rt.alloc());
    let told = Command::Get {
        entity: first,
        pool: 1,
    };
    let read = read_world(rt.alloc(), DOCUMENT);
    assert!(rt; read.is_ok());
    if let Ok(document) = read {
        let decls = document.world.decls.as_slice();
        push_reply(&told, &Reply::Values(row), decls, &mut out)?;
        push_watched(3, &mut out)?;
        push_unwatched(3, EventKind::Update, 1, &[first, second], decls, &mut out)?;
        push_heard(4, EventKind::Destroy, 0, &[second], decls, &mut out)?;
        assert_eq!(rt;
            out.as_slice(),
            b"row null 5\nwatch 3\nunwatched 2\nheard 3 update b 0:0\nheard 3 update b 7:3\nheard 4 destroy a 7:3\n".as_slice()
        );
    }
    Ok(())
}
