//! Lines of systems and of headers through the calls of the libraries: read one at a time, and printed.

ghost use Rattle.std.specs.Prelude.{◌<◌};
ghost use Rattle.row_lang.specs.Naming.{AreNamedDecls};
ghost use Rattle.world_text.specs.Documents.{IsLawfulDocument};

use super::*;
use row_lang::{Added, LineFault, SystemDraft, print_system};
use world_model::Decl;
use world_text::{Document, HeaderDraft, header_lines, read_front};

// Components of every form, and no system.
const COMPONENTS: &[u8] = b"world 1\ncomponent v int int int int\ncomponent r entity\n\
    component w int\ntick 0\npool v\npool r\npool w\nend\n";

// Components, a group and two systems, in canonical text.
const HEADED: &[u8] = b"world 1\ncomponent a int\ncomponent b\ngroup own a not b\n\
    system b\nread a\nend\nsystem s\nread b\nwrite a\ndo set a.0 7\nend\n\
    tick 0\npool a\npool b\nend\n";

// Adds lines, each of which leaves the system open.
fn add_lines(
    rt: &impl Abort,
    draft: &mut SystemDraft,
    decls: &[Decl],
    lines: &[&[u8]],
) -> Result<(), Fail>
    requires { AreNamedDecls decls.now }
{
    for line in lines {
        assert_eq!(rt; draft.add(line, decls), Ok(Added::More));
    }
    Ok(())
}

// Tries lines none of which is admissible.
fn try_bad_lines(
    rt: &impl Abort,
    draft: &mut SystemDraft,
    decls: &[Decl],
    lines: &[&[u8]],
) -> Result<(), Fail>
    requires { AreNamedDecls decls.now }
{
    for line in lines {
        assert_eq!(rt; draft.add(line, decls), Err(LineFault::Bad));
    }
    Ok(())
}

// Adds the lines of a system behind its first one.
fn add_all(rt: &impl Abort, draft: &mut SystemDraft, decls: &[Decl]) -> Result<(), Fail>
    requires { AreNamedDecls decls.now }
{
    let lists: [&[u8]; 3] = [b"read r", b"write v", b"look w"];
    let statements: [&[u8]; 4] = [
        b"do set v.0 / v.0 -1",
        b"do set v.1 / v.1 0",
        b"do set v.2 + v.2 1",
        b"do set v.3 at r.0 w.0 42",
    ];
    let bad: [&[u8]; 6] = [
        b"read r",
        b"look v",
        b"do set v.0",
        b"do set w.0 1",
        b"do set v.0 1 1",
        b"end ",
    ];
    try_bad_lines(rt, draft, decls, &[b"end", b"do spawn", b"system s"])?;
    add_lines(rt, draft, decls, &lists)?;
    try_bad_lines(rt, draft, decls, &bad)?;
    add_lines(rt, draft, decls, &statements)
}

// What a system is printed as, whose lines are added one at a time under the components of a document.
fn printed(rt: &impl Abort, alloc: Global, document: &Document) -> Result<Vec<u8>, Fail>
    requires { IsLawfulDocument document.now }
{
    let decls = document.world.decls.as_slice();
    let mut draft = SystemDraft::begin(alloc, b"system s", decls)?;
    add_all(rt, &mut draft, decls)?;
    assert_eq!(rt; draft.add(b"end", decls), Ok(Added::Closed));
    assert_eq!(rt; draft.add(b"end", decls), Err(LineFault::Bad));
    assert!(rt; draft.is_closed());
    Ok(print_system(alloc, &draft.finish(), decls)?)
}

#[test]
fn a_system_is_read_line_by_line_and_printed(rt: HostRuntime) -> Result<(), Fail> {
    let front = read_front(rt.alloc(), COMPONENTS)?;
    let text = printed(&rt, rt.alloc(), &front.document)?;
    assert_eq!(rt;
        text.as_slice(),
        b"system s\nread r\nwrite v\nlook w\ndo set v.0 / v.0 -1\ndo set v.1 / v.1 0\n\
        do set v.2 + v.2 1\ndo set v.3 at r.0 w.0 42\nend\n"
            .as_slice()
    );
    Ok(())
}

#[test]
fn first_lines_of_systems_are_words_and_a_name(rt: HostRuntime) -> Result<(), Fail> {
    let front = read_front(rt.alloc(), COMPONENTS)?;
    let decls = front.document.world.decls.as_slice();
    let bad: [&[u8]; 4] = [b"system", b"system ", b"system 1", b"system s "];
    for line in &bad {
        assert!(rt; SystemDraft::begin(rt.alloc(), line, decls).is_err());
    }
    Ok(())
}

// The header lines of the document with a group and two systems.
fn headings() -> [&'static [u8]; 10] {
    [
        b"component a int",
        b"component b",
        b"group own a not b",
        b"system b",
        b"read a",
        b"end",
        b"system s",
        b"read b",
        b"write a",
        b"do set a.0 7",
    ]
}

#[test]
fn the_header_lines_of_a_document_are_given(rt: HostRuntime) -> Result<(), Fail> {
    let front = read_front(rt.alloc(), HEADED)?;
    let lines = header_lines(rt.alloc(), &front.document)?;
    let expected = headings();
    assert_eq!(rt; lines.len(), expected.len() + 1);
    for (line, text) in lines.iter().zip(&expected) {
        assert!(rt; line.as_slice() == *text);
    }
    assert!(rt; lines[expected.len()].as_slice() == b"end".as_slice());
    Ok(())
}

#[test]
fn header_lines_are_added_one_at_a_time(rt: HostRuntime) -> Result<(), Fail> {
    let mut draft = HeaderDraft::new(rt.alloc());
    let bad: [&[u8]; 5] = [b"tick 0", b"read a", b"end", b"component", b"group own a"];
    for line in &bad {
        assert_eq!(rt; draft.add(line), Err(LineFault::Bad));
    }
    for line in &headings() {
        draft.add(line)?;
    }
    assert!(rt; !draft.at_rest());
    assert_eq!(rt; draft.add(b"system t"), Err(LineFault::Bad));
    draft.add(b"end")?;
    assert!(rt; draft.at_rest());
    assert_eq!(rt; draft.add(b"system s"), Err(LineFault::Bad));
    assert_eq!(rt; draft.decls().len(), 2);
    Ok(())
}

#[test]
fn a_header_is_what_its_lines_stand_for(rt: HostRuntime) -> Result<(), Fail> {
    let mut draft = HeaderDraft::new(rt.alloc());
    for line in &headings() {
        draft.add(line)?;
    }
    draft.add(b"end")?;
    assert!(rt; draft.at_rest());
    let header = draft.finish();
    assert_eq!(rt; header.decls.as_slice().len(), 2);
    assert_eq!(rt; header.groups.as_slice().len(), 1);
    let systems = header.systems.as_slice();
    assert_eq!(rt; systems.len(), 2);
    let text = print_system(rt.alloc(), &systems[1], header.decls.as_slice())?;
    let expected = b"system s\nread b\nwrite a\ndo set a.0 7\nend\n";
    assert_eq!(rt; text.as_slice(), expected.as_slice());
    Ok(())
}
