//! Replies as lines of output.

ghost use Rattle.std.specs.Prelude.{◌≡◌, ◌≤◌, ◌++◌, ◌∷◌, [], length, take, slice_get, codes, OnOk, OnErr};
ghost use Rattle.std.specs.Fmt.{decimal};
ghost use Rattle.std.specs.List.{flat_map};
ghost use Rattle.std.specs.Option.{option_map_or};
ghost use Rattle.entity_id.specs.Texts.{entity_text};
ghost use Rattle.world_text.specs.Documents.{values_in};
ghost use Rattle.world_text.specs.Formats.{version_1};
ghost use Rattle.world_text.specs.Lines.{values_text};
ghost use Rattle.world_text.specs.Replies.{answer_word as word_of, refusal_text, reply_text, told_pool as pool_of};

use super::format::VERSION_1;
use super::printing::{ROOM, push_number, write_number, write_word};
use super::row_printing::write_row_end;
use entity_id::{Entity, OutOfMemory};
use world_model::{Command, Decl, Refusal, Reply, Row};

/// Appends the line of the reply to a command. After a refusal, which comes where memory for the line
/// runs out, `out` is as before.
pub fn push_reply(
    command: &Command,
    reply: &Reply,
    decls: &[Decl],
    out: &mut Vec<u8>,
) -> Result<(), OutOfMemory>
    ensures ok { OnOk result (out.new.items ≡ out.old.items ++
        (reply_text version_1.profile decls.now command.now reply.now ++ 10 ∷ [])) }
    ensures err { OnErr result (out.new.items ≡ out.old.items) }
{
    match reply {
        Reply::Done => push_words(out, b"ok\n"),
        Reply::Made(entity) => push_entity(out, *entity),
        Reply::Truth(true) => push_words(out, b"yes\n"),
        Reply::Truth(false) => push_words(out, b"no\n"),
        Reply::Number(number) => push_answer(out, answer_word(command), *number),
        Reply::Values(row) => push_values(out, decls, told_pool(command), row),
        Reply::Listed(entities) => push_list(out, answer_word(command), entities.as_slice()),
        Reply::GroupNumber(group) => push_number(out, b"group ", u64::from(*group)),
        Reply::Refused(refusal) => push_refusal(out, *refusal),
    }
}

pub(super) fn push_words(out: &mut Vec<u8>, words: &[u8]) -> Result<(), OutOfMemory>
    ensures ok { OnOk result (out.new.items ≡ out.old.items ++ words.now) }
    ensures err { OnErr result (out.new.items ≡ out.old.items) }
{
    out.extend_from_slice(words)?;
    Ok(())
}

fn push_refusal(out: &mut Vec<u8>, refusal: Refusal) -> Result<(), OutOfMemory>
    ensures ok { OnOk result (out.new.items ≡ out.old.items ++ (refusal_text refusal ++ 10 ∷ [])) }
    ensures err { OnErr result (out.new.items ≡ out.old.items) }
{
    match refusal {
        Refusal::Dead => push_words(out, b"dead\n"),
        Refusal::Present => push_words(out, b"present\n"),
        Refusal::Absent => push_words(out, b"absent\n"),
        Refusal::Full => push_words(out, b"full\n"),
        Refusal::Conflict { with } => push_number(out, b"conflict ", u64::from(with)),
        Refusal::Owned { by } => push_number(out, b"owned ", u64::from(by)),
        Refusal::TooMany => push_words(out, b"too many\n"),
        Refusal::NoPool => push_words(out, b"no pool\n"),
        Refusal::BadDecl | Refusal::BadKey => push_words(out, b"bad\n"),
        Refusal::OutOfMemory => push_words(out, b"out of memory\n"),
        Refusal::NoGroup => push_words(out, b"no group\n"),
        Refusal::HasInner { with } => push_number(out, b"inner ", u64::from(with)),
        Refusal::Unknown => push_words(out, b"unknown\n"),
    }
}

fn answer_word(command: &Command) -> &'static [u8]
    ensures value { result.now ≡ word_of command.now }
    ensures short { length result.now ≤ 7 }
{
    match command {
        Command::Remove { .. } => b"removed",
        Command::Clear { .. } => b"cleared",
        Command::Alive => b"alive",
        Command::Size => b"size",
        Command::View { .. } => b"view",
        Command::Members { .. } => b"members",
        Command::SortPool { .. } | Command::SortGroup { .. } => b"sorted",
        _ => b"",
    }
}

fn told_pool(command: &Command) -> u32
    ensures { result ≡ pool_of command.now }
{
    match command {
        Command::Get { pool, .. } => *pool,
        _ => 0,
    }
}

// A word, a space and a number.
fn push_answer(out: &mut Vec<u8>, word: &[u8], number: u64) -> Result<(), OutOfMemory>
    requires { length word.now ≤ 7 }
    ensures ok { OnOk result (out.new.items ≡
        out.old.items ++ ((word.now ++ 32 ∷ decimal number) ++ 10 ∷ [])) }
    ensures err { OnErr result (out.new.items ≡ out.old.items) }
{
    let mut line = [0u8; ROOM];
    let at = write_number(b" ", number, &mut line);
    let at = write_word(word, &mut line, at);
    push_words(out, &line[at..])
}

fn push_entity(out: &mut Vec<u8>, entity: Entity) -> Result<(), OutOfMemory>
    ensures ok { OnOk result (out.new.items ≡ out.old.items ++
        ((codes "entity " ++ entity_text version_1.profile entity) ++ 10 ∷ [])) }
    ensures err { OnErr result (out.new.items ≡ out.old.items) }
{
    let mut line = [0u8; ROOM];
    line[ROOM - 1] = b'\n';
    let at = entity.write_text(VERSION_1.profile, &mut line, ROOM - 1);
    let at = write_word(b"entity ", &mut line, at);
    push_words(out, &line[at..])
}

// The line of a row of the component of this number, and of no values where there is none.
fn push_values(out: &mut Vec<u8>, decls: &[Decl], pool: u32, row: &Row) -> Result<(), OutOfMemory>
    ensures ok { OnOk result (out.new.items ≡ out.old.items ++
        ((codes "row" ++ values_text version_1.profile
        (option_map_or (λ decl. values_in version_1.profile decl row.now) (slice_get decls.now pool) []))
        ++ 10 ∷ [])) }
    ensures err { OnErr result (out.new.items ≡ out.old.items) }
{
    match decls.get(pool as usize) {
        Some(decl) => push_row_values(out, decl, row),
        None => push_words(out, b"row\n"),
    }
}

fn push_row_values(out: &mut Vec<u8>, decl: &Decl, row: &Row) -> Result<(), OutOfMemory>
    ensures ok { OnOk result (out.new.items ≡ out.old.items ++
        ((codes "row" ++ values_text version_1.profile (values_in version_1.profile decl.now row.now))
        ++ 10 ∷ [])) }
    ensures err { OnErr result (out.new.items ≡ out.old.items) }
{
    let mut line = [0u8; ROOM];
    let at = write_row_end(decl, row, &mut line);
    let at = write_word(b"row", &mut line, at);
    push_words(out, &line[at..])
}

// The line of a word and identifiers.
fn push_list(out: &mut Vec<u8>, word: &[u8], entities: &[Entity]) -> Result<(), OutOfMemory>
    ensures ok { OnOk result (out.new.items ≡ out.old.items ++
        ((word.now ++ flat_map (λ entity. 32 ∷ entity_text version_1.profile entity) entities.now)
        ++ 10 ∷ [])) }
    ensures err { OnErr result (out.new.items ≡ out.old.items) }
{
    let before = out.len();
    let pushed = push_words_of_list(out, word, entities);
    if pushed.is_err() {
        out.truncate(before);
    }
    pushed
}

// The same, but after a refusal a front of the line may have been appended.
fn push_words_of_list(
    out: &mut Vec<u8>,
    word: &[u8],
    entities: &[Entity],
) -> Result<(), OutOfMemory>
    ensures ok { OnOk result (out.new.items ≡ out.old.items ++
        ((word.now ++ flat_map (λ entity. 32 ∷ entity_text version_1.profile entity) entities.now)
        ++ 10 ∷ [])) }
    ensures front { take (length out.old.items) out.new.items ≡ out.old.items }
{
    push_words(out, word)?;
    for entity in entities {
        push_item(out, *entity)?;
    }
    push_words(out, b"\n")
}

// A space and an identifier.
pub(super) fn push_item(out: &mut Vec<u8>, entity: Entity) -> Result<(), OutOfMemory>
    ensures ok { OnOk result (out.new.items ≡
        out.old.items ++ 32 ∷ entity_text version_1.profile entity) }
    ensures err { OnErr result (out.new.items ≡ out.old.items) }
{
    let mut text = [0u8; ROOM];
    let at = entity.write_text(VERSION_1.profile, &mut text, ROOM);
    let at = write_word(b" ", &mut text, at);
    push_words(out, &text[at..])
}
