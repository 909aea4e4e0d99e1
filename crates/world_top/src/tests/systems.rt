//! Documents with systems, from the words of the program to its status and its output.

ghost use Rattle.std.specs.Prelude.{◌<◌};

use super::*;

// Two systems: one that moves what isn't frozen, and one with a component's name, every kind of list and
// every kind of statement.
const SYSTEMS: &[u8] = b"world 1\ncomponent position int int\ncomponent velocity int int\n\
    component frozen\ncomponent target entity\ngroup own position get velocity not frozen\n\
    system move\nread velocity\nwrite position\nnot frozen\n\
    do set position.0 + position.0 velocity.0\ndo set position.1 + position.1 velocity.1\nend\n\
    system target\nread position target\nlook position target\n\
    do when has target.0 position add target.0 velocity.0 - 0 position.0\ndo kill self\n\
    do give self frozen\ndo take at self target.0 null frozen\ndo send self target.0 null\n\
    do spawn\ndo bear position tick % tick 7\nend\n\
    tick 0\nlive 0\nlive 0\n\
    pool position\nrow 0:0 10 20\nrow 1:0 0 0\npool velocity\nrow 0:0 1 -1\n\
    pool frozen\nrow 1:0\npool target\nend\n";

#[test]
fn systems_are_printed_as_they_are_read(rt: HostRuntime) -> Result<(), Fail> {
    let shuffled = b"world 1\ncomponent a int\ncomponent b\nsystem s\nread b a\nend\n\
        tick 7\npool a\npool b\nend\n";
    let ascending = b"world 1\ncomponent a int\ncomponent b\nsystem s\nread a b\nend\n\
        tick 7\npool a\npool b\nend\n";
    let rows: [(&[u8], &[u8]); 2] = [(SYSTEMS, SYSTEMS), (shuffled, ascending)];
    try_printed(&rt, rt.alloc(), "snapshot", &rows)
}

#[test]
fn a_script_leaves_the_systems(rt: HostRuntime) -> Result<(), Fail> {
    let mut input = Vec::from_slice(rt.alloc(), SYSTEMS)?;
    input.extend_from_slice(b"script\nend\n")?;
    try_printed(&rt, rt.alloc(), "apply", &[(&input, SYSTEMS)])
}

#[test]
fn bad_lines_of_systems_are_told(rt: HostRuntime) -> Result<(), Fail> {
    let rows: [(&[u8], &[u8]); 9] = [
        (
            b"world 1\ncomponent a int\nsystem s\nlook a\n",
            b"world: line 4\n",
        ),
        (
            b"world 1\ncomponent a int\nsystem s\nread a\nwrite a\n",
            b"world: line 5\n",
        ),
        (
            b"world 1\ncomponent a int\nsystem s\nend\n",
            b"world: line 4\n",
        ),
        (
            b"world 1\ncomponent a int\nsystem s\nread a\ntick 0\n",
            b"world: line 5\n",
        ),
        (
            b"world 1\ncomponent a int\nsystem s\nread a\nend\nsystem s\n",
            b"world: line 6\n",
        ),
        (
            b"world 1\ncomponent a int\nsystem s\nread a\nend\ngroup own a\n",
            b"world: line 6\n",
        ),
        (
            b"world 1\ncomponent a int\nsystem s\nread a\nend\nread a\n",
            b"world: line 6\n",
        ),
        (b"world 1\ncomponent a int\nread a\n", b"world: line 3\n"),
        (b"world 1\ntick 0\nsystem s\n", b"world: line 3\n"),
    ];
    try_bad(&rt, rt.alloc(), "snapshot", &rows)
}

// The name of a system: two letters of its number.
fn push_system_name(out: &mut Vec<u8>, number: u8) -> Result<(), Fail>
    requires { number < 100 }
{
    out.extend_from_slice(&[b'a' + number / 10, b'a' + number % 10])?;
    Ok(())
}

// A document of so many systems, each with as many statements `do spawn`.
fn many_systems(alloc: Global, count: u8, spawns: u8) -> Result<Vec<u8>, Fail>
    requires { count < 100 }
{
    let mut out = Vec::from_slice(alloc, b"world 1\ncomponent a int\n")?;
    for number in 0..count {
        out.extend_from_slice(b"system ")?;
        push_system_name(&mut out, number)?;
        out.extend_from_slice(b"\nread a\n")?;
        for _ in 0..spawns {
            out.extend_from_slice(b"do spawn\n")?;
        }
        out.extend_from_slice(b"end\n")?;
    }
    out.extend_from_slice(b"tick 0\npool a\nend\n")?;
    Ok(out)
}

#[test]
fn a_document_has_64_systems_and_64_commands_at_most(rt: HostRuntime) -> Result<(), Fail> {
    let most = many_systems(rt.alloc(), 64, 1)?;
    let fewer = many_systems(rt.alloc(), 8, 8)?;
    try_printed(
        &rt,
        rt.alloc(),
        "snapshot",
        &[(&most, &most), (&fewer, &fewer)],
    )?;
    let systems = many_systems(rt.alloc(), 65, 0)?;
    let commands = many_systems(rt.alloc(), 9, 8)?;
    let rows: [(&[u8], &[u8]); 2] = [
        (&systems, b"world: line 195\n"),
        (&commands, b"world: line 93\n"),
    ];
    try_bad(&rt, rt.alloc(), "snapshot", &rows)
}

// The sum of two expressions.
fn sum(alloc: Global, a: &[u8], b: &[u8]) -> Result<Vec<u8>, Fail> {
    let mut out = Vec::from_slice(alloc, b"+ ")?;
    out.extend_from_slice(a)?;
    out.push(b' ')?;
    out.extend_from_slice(b)?;
    Ok(out)
}

// A document whose fifth line has 4,091 bytes and those of the number.
fn long_line(alloc: Global, number: &[u8]) -> Result<Vec<u8>, Fail> {
    let mut ones = Vec::from_slice(alloc, b"1")?;
    let mut whole = Vec::from_slice(alloc, number)?;
    for level in 1..10 {
        ones = sum(alloc, &ones, &ones)?;
        if level >= 2 {
            whole = sum(alloc, &ones, &whole)?;
        }
    }
    let head = b"world 1\ncomponent a int\nsystem s\nwrite a\ndo set a.0 ";
    let mut out = Vec::from_slice(alloc, head)?;
    out.extend_from_slice(&whole)?;
    out.extend_from_slice(b"\nend\ntick 0\npool a\nend\n")?;
    Ok(out)
}

#[test]
fn a_line_has_4096_bytes_at_most(rt: HostRuntime) -> Result<(), Fail> {
    let most = long_line(rt.alloc(), b"12345")?;
    try_printed(&rt, rt.alloc(), "snapshot", &[(&most, &most)])?;
    let longer = long_line(rt.alloc(), b"123456")?;
    try_bad(
        &rt,
        rt.alloc(),
        "snapshot",
        &[(&longer, b"world: line 5\n")],
    )
}
