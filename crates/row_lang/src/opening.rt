//! The places that the tokens of expressions open, put on a stack, and those of all tokens.

ghost use Rattle.std.specs.Prelude.{◌≤◌, ◌+◌, ◌∷◌, [], length, reverse};
ghost use Rattle.row_lang.specs.Places.{only_if, opened, value_opened, looked_opened, looked_field_opened, named_opened};
ghost use Rattle.row_lang.specs.Stacks.{room, place_limit, Opens};

use super::deeds::{open_deed, open_given, open_raised, open_sent, open_statement, open_written};
use super::kinds::{has_kind, has_pool, is_kind, is_own};
use super::{Keyword, Place, Token};
use arrayvec::ArrayVec;
use world_model::{Access, Decl, Kind};

/// How many places a reader of a statement has room for. No more than 37 stand open at once.
pub const PLACE_LIMIT: usize = 48;

/// Puts the places that a token opens on the stack, the first one on top. False where the token doesn't
/// fit the place that it is for.
pub fn open(
    decls: &[Decl],
    access: &Access,
    place: Place,
    token: Token,
    stack: &mut ArrayVec<Place, PLACE_LIMIT>,
) -> bool
    requires { length stack.old.items + room place ≤ place_limit }
    ensures { Opens (opened decls.now access.now place token) (reverse stack.old.items)
        (reverse stack.new.items) result }
{
    match place {
        Place::Statement => open_statement(token, stack),
        Place::Deed => open_deed(token, stack),
        Place::Value(kind, levels) => {
            if levels == 0 {
                return false;
            }
            open_value(decls, access, kind, levels - 1, token, stack)
        }
        Place::Looked => is_looked(access, token),
        Place::LookedField(kind) => is_looked_field(decls, access, kind, token),
        Place::Written => open_written(decls, access, token, stack),
        Place::Sent => open_sent(decls, token, stack),
        Place::Raised => open_raised(decls, token, stack),
        Place::Named => is_pool(decls, token),
        Place::Given => open_given(decls, token, stack),
    }
}

// Puts the places of the operands of an expression's first token on the stack.
fn open_value(
    decls: &[Decl],
    access: &Access,
    kind: Kind,
    levels: u32,
    token: Token,
    stack: &mut ArrayVec<Place, PLACE_LIMIT>,
) -> bool
    requires { length stack.old.items + 3 ≤ place_limit }
    ensures { Opens (value_opened decls.now access.now kind levels token) (reverse stack.old.items)
        (reverse stack.new.items) result }
{
    match token {
        Token::Word(keyword) => open_word(decls, access, kind, levels, keyword, stack),
        Token::Number(_) => is_kind(Kind::Int, kind),
        Token::Own(at) => is_own(access, at.pool) && has_kind(decls, at, kind),
        Token::Pool(_) => false,
        Token::Field(_) => false,
    }
}

// The same for a word. The components and the lists stand in its clause alone.
fn open_word(
    decls: &[Decl],
    access: &Access,
    kind: Kind,
    levels: u32,
    keyword: Keyword,
    stack: &mut ArrayVec<Place, PLACE_LIMIT>,
) -> bool
    requires { length stack.old.items + 3 ≤ place_limit }
    ensures { Opens (value_opened decls.now access.now kind levels (Token.Word keyword))
        (reverse stack.old.items) (reverse stack.new.items) result }
{
    let is_int = is_kind(Kind::Int, kind);
    let number = Place::Value(Kind::Int, levels);
    let entity = Place::Value(Kind::Ref, levels);
    let same_kind = Place::Value(kind, levels);
    match keyword {
        Keyword::Tick => is_int,
        Keyword::Plus
        | Keyword::Minus
        | Keyword::Times
        | Keyword::Divide
        | Keyword::Remainder
        | Keyword::Least
        | Keyword::Greatest
        | Keyword::Less
        | Keyword::Equal => open_two(is_int, number, number, stack),
        Keyword::Same => open_two(is_int, entity, entity, stack),
        Keyword::Has => open_two(is_int, entity, Place::Looked, stack),
        Keyword::Choice => open_three(number, same_kind, same_kind, stack),
        Keyword::At => open_three(entity, Place::LookedField(kind), same_kind, stack),
        Keyword::Oneself | Keyword::Null => is_kind(Kind::Ref, kind),
        _ => false,
    }
}

// Puts two places on the stack, the first on top, where the test holds.
fn open_two(
    holds: bool,
    first: Place,
    second: Place,
    stack: &mut ArrayVec<Place, PLACE_LIMIT>,
) -> bool
    requires { length stack.old.items + 2 ≤ place_limit }
    ensures { Opens (only_if holds (first ∷ second ∷ [])) (reverse stack.old.items)
        (reverse stack.new.items) result }
{
    if holds {
        stack.push(second);
        stack.push(first);
    }
    holds
}

// Puts three places on the stack, the first on top.
fn open_three(
    first: Place,
    second: Place,
    third: Place,
    stack: &mut ArrayVec<Place, PLACE_LIMIT>,
) -> bool
    requires { length stack.old.items + 3 ≤ place_limit }
    ensures { Opens (Some (first ∷ second ∷ third ∷ [])) (reverse stack.old.items)
        (reverse stack.new.items) result }
{
    stack.push(third);
    stack.push(second);
    stack.push(first);
    true
}

// Whether a token is a component that the system looks at.
fn is_looked(access: &Access, token: Token) -> bool
    ensures { Opens (looked_opened access.now token) [] [] result }
{
    match token {
        Token::Pool(pool) => has_pool(access.look.as_slice(), pool),
        _ => false,
    }
}

// Whether a token is a field of this kind of such a component.
fn is_looked_field(decls: &[Decl], access: &Access, kind: Kind, token: Token) -> bool
    ensures { Opens (looked_field_opened decls.now access.now kind token) [] [] result }
{
    match token {
        Token::Field(at) => {
            has_pool(access.look.as_slice(), at.pool) && has_kind(decls, at, kind)
        }
        _ => false,
    }
}

// Whether a token is a component.
fn is_pool(decls: &[Decl], token: Token) -> bool
    ensures { Opens (named_opened decls.now token) [] [] result }
{
    match token {
        Token::Pool(pool) => (pool as usize) < decls.len(),
        _ => false,
    }
}
