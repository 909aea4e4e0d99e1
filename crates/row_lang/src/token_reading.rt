//! One token of a statement, by the place that it is for.

ghost use Rattle.std.specs.Prelude.{◌≡◌, ◌≢◌, true, ℕ, List, IfSome, IfNone};
ghost use Rattle.world_model.specs.declared.tokens.FieldAt.{FieldAt as AnyField};
ghost use Rattle.row_lang.specs.declared.token.Token.{Token as AnyToken};
ghost use Rattle.row_lang.specs.declared.token.Token.TheVariants as token;
ghost use Rattle.row_lang.specs.declared.token.Place.TheVariants as place;
ghost use Rattle.row_lang.specs.Naming.{AreNamedDecls, names_of};
ghost use Rattle.row_lang.specs.Spelling.{token_text};
ghost use Rattle.row_lang.specs.TokenReading.{fits, IsDeclared, IsTokenNext};

use super::keywords::keyword_of;
use super::words::{after, split_name};
use super::{Place, Token};
use world_model::{Access, Decl, FieldAt, Kind, read_field, read_int, read_name};

/// The only token that a text can begin with in a place, and what stands behind it. Whether it fits the
/// place isn't told. None exactly where no token that fits stands there.
pub fn take_token<'a>(
    decls: &[Decl],
    access: &Access,
    place: Place,
    text: &'a [u8],
) -> Option<(Token, &'a [u8])>
    requires { AreNamedDecls decls.now }
    ensures some { IfSome result (λ x. IsTokenNext decls.now text.now x.0 x.1.now) }
    ensures once { IfSome result (λ x. (other : AnyToken) (more : List ℕ) →
        fits decls.now access.now place other ≡ true →
        IsTokenNext decls.now text.now other more → (other ≡ x.0) × (more ≡ x.1.now)) }
    ensures none { IfNone result ((other : AnyToken) (more : List ℕ) →
        fits decls.now access.now place other ≡ true →
        IsTokenNext decls.now text.now other more → ⊥) }
{
    let text = after(text, b" ")?;
    let (word, rest) = split_name(text);
    let token = token_in(decls, access, place, word)?;
    Some((token, rest))
}

// The only token that a text can be in a place. Whether it fits the place isn't told.
fn token_in(decls: &[Decl], access: &Access, place: Place, word: &[u8]) -> Option<Token>
    requires { AreNamedDecls decls.now }
    ensures some { IfSome result
        (λ token. IsDeclared decls.now token × (word.now ≡ token_text (names_of decls.now) token)) }
    ensures once { IfSome result
        (λ token. (other : AnyToken) → IsDeclared decls.now other →
        fits decls.now access.now place other ≡ true
        → word.now ≡ token_text (names_of decls.now) other → other ≡ token) }
    ensures none { IfNone result
        ((other : AnyToken) → IsDeclared decls.now other →
        fits decls.now access.now place other ≡ true
        → word.now ≢ token_text (names_of decls.now) other) }
{
    match place {
        Place::Looked => {
            let pool = pool_named(decls, word)?;
            Some(Token::Pool(pool))
        }
        Place::LookedField(_) => {
            let at = field_named(decls, word)?;
            Some(Token::Field(at))
        }
        Place::Written => {
            let at = field_named(decls, word)?;
            Some(Token::Field(at))
        }
        Place::Sent => {
            let at = field_named(decls, word)?;
            Some(Token::Field(at))
        }
        Place::Raised => {
            let at = field_named(decls, word)?;
            Some(Token::Field(at))
        }
        Place::Named => {
            let pool = pool_named(decls, word)?;
            Some(Token::Pool(pool))
        }
        Place::Given => {
            let pool = pool_named(decls, word)?;
            Some(Token::Pool(pool))
        }
        Place::Statement => {
            let keyword = keyword_of(word)?;
            Some(Token::Word(keyword))
        }
        Place::Deed => {
            let keyword = keyword_of(word)?;
            Some(Token::Word(keyword))
        }
        Place::Value(kind, levels) => value_in(decls, access, kind, levels, word),
    }
}

// The only token that a text can be in an expression's place: a word, a number, or a field of the own
// row. The lists, the kind and the levels stand in its clauses alone.
fn value_in(decls: &[Decl], access: &Access, kind: Kind, levels: u32, word: &[u8]) -> Option<Token>
    requires { AreNamedDecls decls.now }
    ensures some { IfSome result
        (λ token. IsDeclared decls.now token × (word.now ≡ token_text (names_of decls.now) token)) }
    ensures once { IfSome result
        (λ token. (other : AnyToken) → IsDeclared decls.now other →
        fits decls.now access.now (place.Value kind levels) other ≡ true
        → word.now ≡ token_text (names_of decls.now) other → other ≡ token) }
    ensures none { IfNone result
        ((other : AnyToken) → IsDeclared decls.now other →
        fits decls.now access.now (place.Value kind levels) other ≡ true
        → word.now ≢ token_text (names_of decls.now) other) }
{
    if let Some(keyword) = keyword_of(word) {
        return Some(Token::Word(keyword));
    }
    if let Some(number) = read_int(word) {
        return Some(Token::Number(number));
    }
    let at = field_named(decls, word)?;
    Some(Token::Own(at))
}

// The component that a word names.
fn pool_named(decls: &[Decl], word: &[u8]) -> Option<u32>
    requires { AreNamedDecls decls.now }
    ensures some { IfSome result
        (λ pool. IsDeclared decls.now (token.Pool pool) ×
        (word.now ≡ token_text (names_of decls.now) (token.Pool pool))) }
    ensures once { IfSome result (λ pool. (other : ℕ) → IsDeclared decls.now (token.Pool other)
        → word.now ≡ token_text (names_of decls.now) (token.Pool other) → other ≡ pool) }
    ensures none { IfNone result
        ((other : ℕ) → IsDeclared decls.now (token.Pool other) →
        word.now ≢ token_text (names_of decls.now) (token.Pool other)) }
{
    let pool = read_name(word, decls)?;
    Some(pool)
}

// The field that a word names.
fn field_named(decls: &[Decl], word: &[u8]) -> Option<FieldAt>
    requires { AreNamedDecls decls.now }
    ensures some { IfSome result
        (λ at. IsDeclared decls.now (token.Field at) ×
        (word.now ≡ token_text (names_of decls.now) (token.Field at))) }
    ensures once { IfSome result
        (λ at. (other : AnyField) → IsDeclared decls.now (token.Field other)
        → word.now ≡ token_text (names_of decls.now) (token.Field other) → other ≡ at) }
    ensures none { IfNone result
        ((other : AnyField) → IsDeclared decls.now (token.Field other) →
        word.now ≢ token_text (names_of decls.now) (token.Field other)) }
{
    let at = read_field(word, decls)?;
    Some(at)
}
