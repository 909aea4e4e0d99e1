//! Replies to the lines of a script that begin and end watches, and what watches have heard, as lines of
//! output.

ghost use Rattle.std.specs.Prelude.{◌≡◌, ◌++◌, ◌∷◌, [], length, take, OnOk, OnErr};
ghost use Rattle.std.specs.Fmt.{decimal};
ghost use Rattle.std.specs.List.{flat_map};
ghost use Rattle.world_text.specs.Formats.{version_1};
ghost use Rattle.world_text.specs.Replies.{watched_text, unwatched_text, heard_line, heard_text};
ghost use Rattle.row_lang.specs.NameLists.{name_at};
ghost use Rattle.world_text.specs.Scripts.{event_word as word_of};

use super::printing::{ROOM, push_number};
use super::replies::{push_item, push_words};
use entity_id::{Entity, OutOfMemory};
use itoa::write_digits;
use world_model::{Decl, EventKind};

/// Appends the line of the reply to a `watch` line that is accepted: the number of the watch, counted
/// from 0. After a refusal, which comes where memory for the line runs out, `out` is as before.
pub fn push_watched(number: u32, out: &mut Vec<u8>) -> Result<(), OutOfMemory>
    ensures ok { OnOk result (out.new.items ≡ out.old.items ++ (watched_text number ++ 10 ∷ [])) }
    ensures err { OnErr result (out.new.items ≡ out.old.items) }
{
    push_number(out, b"watch ", u64::from(number))
}

/// Appends the lines of the reply to an `unwatch` line that is accepted: how many events the watch has
/// heard, and a line for each of them, in the order in which they were heard. The watch is the one of
/// this number, of the events of this kind in this pool, one of `decls`. After a refusal, which comes
/// where memory for the lines runs out, `out` is as before.
pub fn push_unwatched(
    number: u32,
    kind: EventKind,
    pool: u32,
    heard: &[Entity],
    decls: &[Decl],
    out: &mut Vec<u8>,
) -> Result<(), OutOfMemory>
    ensures ok { OnOk result (out.new.items ≡ out.old.items ++
        ((unwatched_text (length heard.now) ++ 10 ∷ []) ++
        heard_text version_1.profile decls.now number kind pool heard.now)) }
    ensures err { OnErr result (out.new.items ≡ out.old.items) }
{
    let before = out.len();
    push_number(out, b"unwatched ", heard.len() as u64)?;
    let pushed = push_heard(number, kind, pool, heard, decls, out);
    if pushed.is_err() {
        out.truncate(before);
    }
    pushed
}

/// Appends a line for each event that a watch has heard, in the order in which they were heard. The
/// watch is the one of this number, of the events of this kind in this pool, one of `decls`. After a
/// refusal, which comes where memory for the lines runs out, `out` is as before.
pub fn push_heard(
    number: u32,
    kind: EventKind,
    pool: u32,
    heard: &[Entity],
    decls: &[Decl],
    out: &mut Vec<u8>,
) -> Result<(), OutOfMemory>
    ensures ok { OnOk result (out.new.items ≡ out.old.items ++
        heard_text version_1.profile decls.now number kind pool heard.now) }
    ensures err { OnErr result (out.new.items ≡ out.old.items) }
{
    let before = out.len();
    let pushed = push_events(number, kind, name_of(decls, pool), heard, out);
    if pushed.is_err() {
        out.truncate(before);
    }
    pushed
}

// The name of the component of this number, and nothing where there is none.
fn name_of(decls: &[Decl], pool: u32) -> &[u8]
    ensures { result.now ≡ name_at decls.now pool }
{
    match decls.get(pool as usize) {
        Some(decl) => decl.name.as_slice(),
        None => b"",
    }
}

fn event_word(kind: EventKind) -> &'static [u8]
    ensures { result.now ≡ word_of kind }
{
    match kind {
        EventKind::Construct => b"construct",
        EventKind::Update => b"update",
        EventKind::Destroy => b"destroy",
    }
}

// The lines of events; after a refusal a front of them may have been appended.
fn push_events(
    number: u32,
    kind: EventKind,
    name: &[u8],
    heard: &[Entity],
    out: &mut Vec<u8>,
) -> Result<(), OutOfMemory>
    ensures ok { OnOk result (out.new.items ≡ out.old.items ++
        flat_map (heard_line version_1.profile number kind name.now) heard.now) }
    ensures front { take (length out.old.items) out.new.items ≡ out.old.items }
{
    for entity in heard {
        push_event(number, kind, name, *entity, out)?;
    }
    Ok(())
}

// The line of an event; after a refusal a front of it may have been appended.
fn push_event(
    number: u32,
    kind: EventKind,
    name: &[u8],
    entity: Entity,
    out: &mut Vec<u8>,
) -> Result<(), OutOfMemory>
    ensures ok { OnOk result (out.new.items ≡
        out.old.items ++ heard_line version_1.profile number kind name.now entity) }
    ensures front { take (length out.old.items) out.new.items ≡ out.old.items }
{
    push_words(out, b"heard ")?;
    push_digits(out, u64::from(number))?;
    push_words(out, b" ")?;
    push_words(out, event_word(kind))?;
    push_words(out, b" ")?;
    push_words(out, name)?;
    push_item(out, entity)?;
    push_words(out, b"\n")
}

fn push_digits(out: &mut Vec<u8>, number: u64) -> Result<(), OutOfMemory>
    ensures ok { OnOk result (out.new.items ≡ out.old.items ++ decimal number) }
    ensures err { OnErr result (out.new.items ≡ out.old.items) }
{
    let mut digits = [0u8; ROOM];
    let at = write_digits(number, &mut digits, ROOM);
    push_words(out, &digits[at..])
}
