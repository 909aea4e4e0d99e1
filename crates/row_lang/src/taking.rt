//! The tokens of a statement, one after another.

ghost use Rattle.std.specs.Prelude.{◌≡◌, ◌∷◌, [], ℕ, List, IfOk, IsErrOf};
ghost use Rattle.row_lang.specs.declared.token.Token.{Token as AnyToken};
ghost use Rattle.row_lang.specs.Naming.{AreNamedDecls};
ghost use Rattle.row_lang.specs.Reading.{EndsName};
ghost use Rattle.row_lang.specs.Stacks.{HaveRoom};
ghost use Rattle.row_lang.specs.TokenReading.{AreTokensNext, AreOnlyTokens, IsDoLine, is_spaced};

use super::opening::{PLACE_LIMIT, open};
use super::token_reading::take_token;
use super::words::after;
use super::{LineFault, Place, Token};
use arrayvec::ArrayVec;
use std::alloc::Global;
use world_model::{Access, Decl};

/// The tokens of a `do` line behind that word. `Bad` exactly where the line isn't the word `do` and a
/// statement. `OutOfMemory` where memory for the tokens runs out.
pub fn read_do(
    alloc: Global,
    decls: &[Decl],
    access: &Access,
    line: &[u8],
) -> Result<Vec<Token>, LineFault>
    requires named { AreNamedDecls decls.now }
    ensures ok { IfOk result (λ tokens. IsDoLine decls.now access.now line.now tokens.items) }
    ensures once { IfOk result (λ tokens. (others : List AnyToken) →
        IsDoLine decls.now access.now line.now others → others ≡ tokens.items) }
    ensures bad { IsErrOf result LineFault.Bad → (tokens : List AnyToken) →
        IsDoLine decls.now access.now line.now tokens → ⊥ }
{
    let Some(body) = after(line, b"do") else {
        return Err(LineFault::Bad);
    };
    if !begins_with_space(body) {
        return Err(LineFault::Bad);
    }
    match take_tokens(alloc, decls, access, Place::Statement, body) {
        Ok((tokens, rest)) => {
            if rest.is_empty() {
                Ok(tokens)
            } else {
                Err(LineFault::Bad)
            }
        }
        Err(fault) => Err(fault),
    }
}

fn begins_with_space(text: &[u8]) -> bool
    ensures { result ≡ is_spaced text.now }
{
    match text {
        [b' ', ..] => true,
        _ => false,
    }
}

// The tokens at the front of a text that fill a place, and what stands behind them.
fn take_tokens<'a>(
    alloc: Global,
    decls: &[Decl],
    access: &Access,
    first: Place,
    text: &'a [u8],
) -> Result<(Vec<Token>, &'a [u8]), LineFault>
    requires named { AreNamedDecls decls.now }
    requires room { HaveRoom (first ∷ []) }
    requires ended { EndsName text.now }
    ensures ok { IfOk result
        (λ x. AreOnlyTokens decls.now access.now (first ∷ []) text.now x.0.items x.1.now) }
    ensures bad { IsErrOf result LineFault.Bad → (tokens : List AnyToken) (rest : List ℕ) →
        AreTokensNext decls.now access.now (first ∷ []) text.now tokens rest → ⊥ }
{
    let mut tokens = Vec::new(alloc);
    let mut stack: ArrayVec<Place, PLACE_LIMIT> = ArrayVec::new();
    stack.push(first);
    let mut rest = text;
    while let Some(place) = stack.pop() {
        let Some((token, behind)) = take_token(decls, access, place, rest) else {
            return Err(LineFault::Bad);
        };
        if !open(decls, access, place, token, &mut stack) {
            return Err(LineFault::Bad);
        }
        tokens.push(token)?;
        rest = behind;
    }
    Ok((tokens, rest))
}
