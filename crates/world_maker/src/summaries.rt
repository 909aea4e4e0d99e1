//! The summary of a world.

ghost use Rattle.std.specs.Prelude.{◌≡◌, ◌<◌, ◌++◌, ◌∷◌, [], map, length, codes, IfOk, OnOk};
ghost use Rattle.std.specs.Fmt.{decimal, signed_decimal};
ghost use Rattle.world_model.specs.Contents.{group_at, keys_of};
ghost use Rattle.world_model.specs.Groups.{members};
ghost use Rattle.world_maker.specs.Summaries.{counts_line, summary_text};

use super::tally::{row_count, sum_of_ints};
use entity_id::OutOfMemory;
use itoa::Buffer;
use registry::Registry;
use signal_sink::Listener;
use std::alloc::Global;
use world_model::Decl;

/// The summary of a registry's world at a tick: five lines, with how many entities are live, how many
/// rows all components have, how many members each group has, the sum of all `int` fields of all rows, of
/// which 64 bits with a sign are kept, and the tick (`specs/Summaries.antt`). The components are the
/// registry's. It looks at each row once and copies none. Refused where memory for the text runs out.
/// (This project's own.)
pub fn summary<L: Listener>(
    alloc: Global,
    registry: &Registry<L>,
    decls: &[Decl],
    tick: u64,
) -> Result<Vec<u8>, OutOfMemory>
    requires { decls.now ≡ registry.now.world.decls }
    ensures { IfOk result (λ text.
        text.items ≡ summary_text (record registry.now.world { tick = tick })) }
{
    let mut text = Vec::new(alloc);
    push_count(&mut text, b"entities", u64::from(registry.alive()))?;
    push_count(&mut text, b"rows", row_count(registry, decls))?;
    push_members(&mut text, registry)?;
    push_sum(&mut text, sum_of_ints(registry, decls))?;
    push_count(&mut text, b"tick", tick)?;
    Ok(text)
}

// Appends a line of a word and a number.
fn push_count(text: &mut Vec<u8>, word: &[u8], count: u64) -> Result<(), OutOfMemory>
    ensures { OnOk result (text.new.items ≡ text.old.items ++ counts_line word.now (count ∷ [])) }
{
    text.extend_from_slice(word)?;
    push_spaced(text, count)?;
    text.push(b'\n')?;
    Ok(())
}

// Appends a number behind a space.
fn push_spaced(text: &mut Vec<u8>, count: u64) -> Result<(), OutOfMemory>
    ensures { OnOk result (text.new.items ≡ text.old.items ++ 32 ∷ decimal count) }
{
    let mut digits = Buffer::new();
    text.push(b' ')?;
    text.extend_from_slice(digits.format(count).as_bytes())?;
    Ok(())
}

// Appends the line of the groups.
fn push_members<L: Listener>(text: &mut Vec<u8>, registry: &Registry<L>) -> Result<(), OutOfMemory>
    ensures { OnOk result (text.new.items ≡ text.old.items ++ counts_line (codes "members")
        (map (λ group. length (members (keys_of registry.now.world) group))
        registry.now.world.groups)) }
{
    text.extend_from_slice(b"members")?;
    for group in 0..registry.groups() {
        push_spaced(text, member_count(registry, group))?;
    }
    text.push(b'\n')?;
    Ok(())
}

// How many members a group has.
fn member_count<L: Listener>(registry: &Registry<L>, group: u32) -> u64
    requires { group < length registry.now.world.groups }
    ensures { result ≡
        length (members (keys_of registry.now.world) (group_at registry.now.world group)) }
{
    registry.law();
    match registry.members(group) {
        Ok(list) => list.len() as u64,
        Err(_) => unreachable!(),
    }
}

// Appends the line of the sum.
fn push_sum(text: &mut Vec<u8>, sum: i64) -> Result<(), OutOfMemory>
    ensures { OnOk result (text.new.items ≡
        text.old.items ++ (codes "sum " ++ (signed_decimal sum ++ 10 ∷ []))) }
{
    let mut digits = Buffer::new();
    text.extend_from_slice(b"sum ")?;
    text.extend_from_slice(digits.format(sum).as_bytes())?;
    text.push(b'\n')?;
    Ok(())
}
