//! The places that the tokens of what a statement does open, put on a stack.

ghost use Rattle.std.specs.Prelude.{◌≡◌, ◌≤◌, ◌+◌, ◌∷◌, ◌++◌, [], length, map, reverse, slice_get, None, Some};
ghost use Rattle.std.specs.Option.{option_map_or};
ghost use Rattle.world_model.specs.Components.{kinds_of};
ghost use Rattle.row_lang.specs.Places.{deed_opened, statement_opened, value_of_field, whole_value, written_opened, sent_opened, raised_opened, given_opened};
ghost use Rattle.row_lang.specs.Stacks.{place_limit, Opens};

use super::kinds::{has_kind, has_pool, kind_of};
use super::opening::PLACE_LIMIT;
use super::{Keyword, Place, Token};
use arrayvec::ArrayVec;
use world_model::{Access, Decl, FieldAt, Kind};

// How deep expressions stand in each other at most.
const NESTING_LIMIT: u32 = 16;

/// Puts the places behind a statement's first word on the stack.
pub fn open_statement(token: Token, stack: &mut ArrayVec<Place, PLACE_LIMIT>) -> bool
    requires { length stack.old.items + 2 ≤ place_limit }
    ensures { Opens (statement_opened token) (reverse stack.old.items)
        (reverse stack.new.items) result }
{
    match token {
        Token::Word(Keyword::When) => {
            stack.push(Place::Deed);
            stack.push(Place::Value(Kind::Int, NESTING_LIMIT));
            true
        }
        _ => open_deed(token, stack),
    }
}

/// Puts the places behind the word of what a statement does on the stack.
pub fn open_deed(token: Token, stack: &mut ArrayVec<Place, PLACE_LIMIT>) -> bool
    requires { length stack.old.items + 2 ≤ place_limit }
    ensures { Opens (deed_opened token) (reverse stack.old.items) (reverse stack.new.items) result }
{
    match token {
        Token::Word(Keyword::Set) => {
            stack.push(Place::Written);
            true
        }
        Token::Word(Keyword::Kill) => {
            stack.push(Place::Value(Kind::Ref, NESTING_LIMIT));
            true
        }
        Token::Word(Keyword::Give) => open_of_entity(Place::Given, stack),
        Token::Word(Keyword::Take) => open_of_entity(Place::Named, stack),
        Token::Word(Keyword::Send) => open_of_entity(Place::Sent, stack),
        Token::Word(Keyword::Add) => open_of_entity(Place::Raised, stack),
        Token::Word(Keyword::Spawn) => true,
        Token::Word(Keyword::Bear) => {
            stack.push(Place::Given);
            true
        }
        _ => false,
    }
}

// Puts a place for an entity, and behind it another one, on the stack.
fn open_of_entity(behind: Place, stack: &mut ArrayVec<Place, PLACE_LIMIT>) -> bool
    requires { length stack.old.items + 2 ≤ place_limit }
    ensures { Opens (Some (whole_value Kind.Ref ∷ behind ∷ [])) (reverse stack.old.items)
        (reverse stack.new.items) result }
{
    stack.push(behind);
    stack.push(Place::Value(Kind::Ref, NESTING_LIMIT));
    true
}

/// Puts the value of a field that is written on the stack.
pub fn open_written(
    decls: &[Decl],
    access: &Access,
    token: Token,
    stack: &mut ArrayVec<Place, PLACE_LIMIT>,
) -> bool
    requires { length stack.old.items + 1 ≤ place_limit }
    ensures { Opens (written_opened decls.now access.now token) (reverse stack.old.items)
        (reverse stack.new.items) result }
{
    match token {
        Token::Field(at) => {
            if has_pool(access.write.as_slice(), at.pool) {
                open_field(decls, at, stack)
            } else {
                false
            }
        }
        _ => false,
    }
}

/// Puts the value of a field of any component on the stack.
pub fn open_sent(decls: &[Decl], token: Token, stack: &mut ArrayVec<Place, PLACE_LIMIT>) -> bool
    requires { length stack.old.items + 1 ≤ place_limit }
    ensures { Opens (sent_opened decls.now token) (reverse stack.old.items)
        (reverse stack.new.items) result }
{
    match token {
        Token::Field(at) => open_field(decls, at, stack),
        _ => false,
    }
}

/// Puts what is added to a whole number's field on the stack.
pub fn open_raised(decls: &[Decl], token: Token, stack: &mut ArrayVec<Place, PLACE_LIMIT>) -> bool
    requires { length stack.old.items + 1 ≤ place_limit }
    ensures { Opens (raised_opened decls.now token) (reverse stack.old.items)
        (reverse stack.new.items) result }
{
    match token {
        Token::Field(at) => {
            if has_kind(decls, at, Kind::Int) {
                stack.push(Place::Value(Kind::Int, NESTING_LIMIT));
                true
            } else {
                false
            }
        }
        _ => false,
    }
}

// Puts a value of a field's kind on the stack.
fn open_field(decls: &[Decl], at: FieldAt, stack: &mut ArrayVec<Place, PLACE_LIMIT>) -> bool
    requires { length stack.old.items + 1 ≤ place_limit }
    ensures { Opens (value_of_field decls.now at) (reverse stack.old.items)
        (reverse stack.new.items) result }
{
    match kind_of(decls, at) {
        Some(kind) => {
            stack.push(Place::Value(kind, NESTING_LIMIT));
            true
        }
        None => false,
    }
}

/// Puts a value for each field of a component on the stack.
pub fn open_given(decls: &[Decl], token: Token, stack: &mut ArrayVec<Place, PLACE_LIMIT>) -> bool
    requires { length stack.old.items + 4 ≤ place_limit }
    ensures { Opens (given_opened decls.now token) (reverse stack.old.items)
        (reverse stack.new.items) result }
{
    match token {
        Token::Pool(pool) => open_fields(decls, pool, stack),
        _ => false,
    }
}

fn open_fields(decls: &[Decl], pool: u32, stack: &mut ArrayVec<Place, PLACE_LIMIT>) -> bool
    requires { length stack.old.items + 4 ≤ place_limit }
    ensures { Opens (option_map_or (λ decl. Some (map whole_value (kinds_of decl)))
        (slice_get decls.now pool) None) (reverse stack.old.items) (reverse stack.new.items)
        result }
{
    match decls.get(pool as usize) {
        Some(decl) => {
            push_values(stack, decl.field_kinds());
            true
        }
        None => false,
    }
}

// Puts values of these kinds on the stack, the first one on top.
fn push_values(stack: &mut ArrayVec<Place, PLACE_LIMIT>, kinds: &[Kind])
    requires { length stack.old.items + length kinds.now ≤ place_limit }
    ensures { reverse stack.new.items ≡ map whole_value kinds.now ++ reverse stack.old.items }
{
    let mut at = kinds.len();
    while at > 0 {
        at -= 1;
        stack.push(Place::Value(kinds[at], NESTING_LIMIT));
    }
}
