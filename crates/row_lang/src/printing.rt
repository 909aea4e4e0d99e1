//! Systems as text.

ghost use Rattle.std.specs.Prelude.{◌≡◌, ◌++◌, ◌∷◌, [], length, map, take, OnOk, IfOk};
ghost use Rattle.row_lang.specs.declared.access_list.AccessList.TheVariants as list;
ghost use Rattle.row_lang.specs.declared.token.Token.TheVariants as token;
ghost use Rattle.row_lang.specs.BodyLines.{Do};
ghost use Rattle.row_lang.specs.Naming.{names_of};
ghost use Rattle.row_lang.specs.NameLists.{spaced_names};
ghost use Rattle.row_lang.specs.Spelling.{body_line_text, keyword_text, list_word, name_in, token_text, tokens_text};
ghost use Rattle.row_lang.specs.Systems.{body_text, access_lines, list_lines, system_text};

use super::{AccessList, Keyword, Statement, SystemDef, Token};
use entity_id::OutOfMemory;
use itoa::Buffer;
use std::alloc::Global;
use world_model::{Access, Decl, FieldAt};

/// The canonical text of a system: its first line, its lists that name anything in the order `read`,
/// `write`, `look`, `not`, each in ascending number, its `do` lines and `end`. The components are those
/// under which its lines were read. `OutOfMemory` where memory for the text runs out.
pub fn print_system(alloc: Global, def: &SystemDef, decls: &[Decl]) -> Result<Vec<u8>, OutOfMemory>
    ensures { IfOk result (λ text. text.items ≡ system_text (names_of decls.now) def.now) }
{
    let mut text = Vec::new(alloc);
    push_system(&mut text, def, decls)?;
    Ok(text)
}

/// Appends the text that [`print_system`] makes. After the refusal, which comes where memory for the text
/// runs out, a front of it may have been appended.
pub fn push_system(out: &mut Vec<u8>, def: &SystemDef, decls: &[Decl]) -> Result<(), OutOfMemory>
    ensures ok { OnOk result (out.new.items ≡
        out.old.items ++ system_text (names_of decls.now) def.now) }
    ensures front { take (length out.old.items) out.new.items ≡ out.old.items }
{
    out.extend_from_slice(b"system ")?;
    out.extend_from_slice(def.name().as_slice())?;
    out.push(b'\n')?;
    push_lists(out, def.access(), decls)?;
    push_statements(out, def.statements(), decls)?;
    out.extend_from_slice(b"end\n")?;
    Ok(())
}

fn push_lists(out: &mut Vec<u8>, access: &Access, decls: &[Decl]) -> Result<(), OutOfMemory>
    ensures ok { OnOk result (out.new.items ≡
        out.old.items ++ body_text (names_of decls.now) (access_lines access.now)) }
    ensures front { take (length out.old.items) out.new.items ≡ out.old.items }
{
    push_list(out, AccessList::Read, access.read.as_slice(), decls)?;
    push_list(out, AccessList::Write, access.write.as_slice(), decls)?;
    push_list(out, AccessList::Look, access.look.as_slice(), decls)?;
    push_list(out, AccessList::Without, access.without.as_slice(), decls)
}

// Appends the line of a list, or nothing where it names nothing.
fn push_list(
    out: &mut Vec<u8>,
    list: AccessList,
    pools: &[u32],
    decls: &[Decl],
) -> Result<(), OutOfMemory>
    ensures ok { OnOk result (out.new.items ≡
        out.old.items ++ body_text (names_of decls.now) (list_lines list pools.now)) }
    ensures front { take (length out.old.items) out.new.items ≡ out.old.items }
{
    if pools.is_empty() {
        return Ok(());
    }
    out.extend_from_slice(word_of_list(list))?;
    push_names(out, pools, decls)?;
    out.push(b'\n')?;
    Ok(())
}

fn word_of_list(list: AccessList) -> &'static [u8]
    ensures { result.now ≡ list_word list }
{
    match list {
        AccessList::Read => b"read",
        AccessList::Write => b"write",
        AccessList::Look => b"look",
        AccessList::Without => b"not",
    }
}

// Appends the names of components, each behind a space.
fn push_names(out: &mut Vec<u8>, pools: &[u32], decls: &[Decl]) -> Result<(), OutOfMemory>
    ensures ok { OnOk result (out.new.items ≡
        out.old.items ++ spaced_names (map (name_in (names_of decls.now)) pools.now)) }
    ensures front { take (length out.old.items) out.new.items ≡ out.old.items }
{
    for pool in pools {
        out.push(b' ')?;
        push_name(out, *pool, decls)?;
    }
    Ok(())
}

// Appends `do` lines.
fn push_statements(
    out: &mut Vec<u8>,
    statements: &[Statement],
    decls: &[Decl],
) -> Result<(), OutOfMemory>
    ensures ok { OnOk result (out.new.items ≡
        out.old.items ++ body_text (names_of decls.now) (map Do statements.now)) }
    ensures front { take (length out.old.items) out.new.items ≡ out.old.items }
{
    for statement in statements {
        push_statement(out, statement.as_slice(), decls)?;
    }
    Ok(())
}

fn push_statement(out: &mut Vec<u8>, tokens: &[Token], decls: &[Decl]) -> Result<(), OutOfMemory>
    ensures ok { OnOk result (out.new.items ≡
        out.old.items ++ (body_line_text (names_of decls.now) (Do tokens.now) ++ 10 ∷ [])) }
    ensures front { take (length out.old.items) out.new.items ≡ out.old.items }
{
    out.extend_from_slice(b"do")?;
    push_tokens(out, tokens, decls)?;
    out.push(b'\n')?;
    Ok(())
}

// Appends tokens, each behind a space.
fn push_tokens(out: &mut Vec<u8>, tokens: &[Token], decls: &[Decl]) -> Result<(), OutOfMemory>
    ensures ok { OnOk result (out.new.items ≡
        out.old.items ++ tokens_text (names_of decls.now) tokens.now) }
    ensures front { take (length out.old.items) out.new.items ≡ out.old.items }
{
    for token in tokens {
        out.push(b' ')?;
        push_token(out, *token, decls)?;
    }
    Ok(())
}

fn push_token(out: &mut Vec<u8>, token: Token, decls: &[Decl]) -> Result<(), OutOfMemory>
    ensures ok { OnOk result (out.new.items ≡
        out.old.items ++ token_text (names_of decls.now) token) }
    ensures front { take (length out.old.items) out.new.items ≡ out.old.items }
{
    match token {
        Token::Word(keyword) => {
            out.extend_from_slice(word_of(keyword))?;
            Ok(())
        }
        Token::Number(number) => {
            let mut digits = Buffer::new();
            out.extend_from_slice(digits.format(number).as_bytes())?;
            Ok(())
        }
        Token::Pool(pool) => push_name(out, pool, decls),
        Token::Own(at) => push_field(out, at, decls),
        Token::Field(at) => push_field(out, at, decls),
    }
}

// Appends the name of a component; one that isn't there has none.
fn push_name(out: &mut Vec<u8>, pool: u32, decls: &[Decl]) -> Result<(), OutOfMemory>
    ensures ok { OnOk result (out.new.items ≡
        out.old.items ++ name_in (names_of decls.now) pool) }
    ensures front { take (length out.old.items) out.new.items ≡ out.old.items }
{
    if let Some(decl) = decls.get(pool as usize) {
        out.extend_from_slice(decl.name.as_slice())?;
    }
    Ok(())
}

fn push_field(out: &mut Vec<u8>, at: FieldAt, decls: &[Decl]) -> Result<(), OutOfMemory>
    ensures ok { OnOk result (out.new.items ≡
        out.old.items ++ token_text (names_of decls.now) (token.Field at)) }
    ensures front { take (length out.old.items) out.new.items ≡ out.old.items }
{
    push_name(out, at.pool, decls)?;
    out.push(b'.')?;
    let mut digits = Buffer::new();
    out.extend_from_slice(digits.format(at.field).as_bytes())?;
    Ok(())
}

fn word_of(keyword: Keyword) -> &'static [u8]
    ensures { result.now ≡ keyword_text keyword }
{
    match keyword {
        Keyword::Tick => b"tick",
        Keyword::Plus => b"+",
        Keyword::Minus => b"-",
        Keyword::Times => b"*",
        Keyword::Divide => b"/",
        Keyword::Remainder => b"%",
        Keyword::Least => b"min",
        Keyword::Greatest => b"max",
        Keyword::Less => b"<",
        Keyword::Equal => b"=",
        Keyword::Choice => b"?",
        Keyword::Oneself => b"self",
        Keyword::Null => b"null",
        Keyword::Same => b"same",
        Keyword::Has => b"has",
        Keyword::At => b"at",
        Keyword::When => b"when",
        Keyword::Set => b"set",
        Keyword::Kill => b"kill",
        Keyword::Give => b"give",
        Keyword::Take => b"take",
        Keyword::Send => b"send",
        Keyword::Add => b"add",
        Keyword::Spawn => b"spawn",
        Keyword::Bear => b"bear",
    }
}
