//! The words of the language.

ghost use Rattle.std.specs.Prelude.{◌≡◌, ◌≢◌, IfSome, IfNone};
ghost use Rattle.row_lang.specs.declared.token.Keyword.{Keyword as AnyKeyword};
ghost use Rattle.row_lang.specs.Spelling.{keyword_text};

use super::Keyword;

/// The word of the language that a text is.
pub fn keyword_of(word: &[u8]) -> Option<Keyword>
    ensures some { IfSome result (λ keyword. word.now ≡ keyword_text keyword) }
    ensures none { IfNone result ((keyword : AnyKeyword) → word.now ≢ keyword_text keyword) }
{
    if let Some(keyword) = arithmetic_word(word) {
        return Some(keyword);
    }
    if let Some(keyword) = comparison_word(word) {
        return Some(keyword);
    }
    if let Some(keyword) = term_word(word) {
        return Some(keyword);
    }
    if let Some(keyword) = deed_word(word) {
        return Some(keyword);
    }
    further_deed_word(word)
}

fn arithmetic_word(word: &[u8]) -> Option<Keyword>
    ensures some { IfSome result (λ keyword. word.now ≡ keyword_text keyword) }
    ensures plus { IfNone result (word.now ≢ keyword_text Keyword.Plus) }
    ensures minus { IfNone result (word.now ≢ keyword_text Keyword.Minus) }
    ensures times { IfNone result (word.now ≢ keyword_text Keyword.Times) }
    ensures divide { IfNone result (word.now ≢ keyword_text Keyword.Divide) }
    ensures remainder { IfNone result (word.now ≢ keyword_text Keyword.Remainder) }
{
    if word == b"+".as_slice() {
        return Some(Keyword::Plus);
    }
    if word == b"-".as_slice() {
        return Some(Keyword::Minus);
    }
    if word == b"*".as_slice() {
        return Some(Keyword::Times);
    }
    if word == b"/".as_slice() {
        return Some(Keyword::Divide);
    }
    if word == b"%".as_slice() {
        return Some(Keyword::Remainder);
    }
    None
}

fn comparison_word(word: &[u8]) -> Option<Keyword>
    ensures some { IfSome result (λ keyword. word.now ≡ keyword_text keyword) }
    ensures least { IfNone result (word.now ≢ keyword_text Keyword.Least) }
    ensures greatest { IfNone result (word.now ≢ keyword_text Keyword.Greatest) }
    ensures less { IfNone result (word.now ≢ keyword_text Keyword.Less) }
    ensures equal { IfNone result (word.now ≢ keyword_text Keyword.Equal) }
{
    if word == b"min".as_slice() {
        return Some(Keyword::Least);
    }
    if word == b"max".as_slice() {
        return Some(Keyword::Greatest);
    }
    if word == b"<".as_slice() {
        return Some(Keyword::Less);
    }
    if word == b"=".as_slice() {
        return Some(Keyword::Equal);
    }
    None
}

fn term_word(word: &[u8]) -> Option<Keyword>
    ensures some { IfSome result (λ keyword. word.now ≡ keyword_text keyword) }
    ensures tick { IfNone result (word.now ≢ keyword_text Keyword.Tick) }
    ensures choice { IfNone result (word.now ≢ keyword_text Keyword.Choice) }
    ensures oneself { IfNone result (word.now ≢ keyword_text Keyword.Oneself) }
    ensures null { IfNone result (word.now ≢ keyword_text Keyword.Null) }
    ensures same { IfNone result (word.now ≢ keyword_text Keyword.Same) }
    ensures has { IfNone result (word.now ≢ keyword_text Keyword.Has) }
    ensures at { IfNone result (word.now ≢ keyword_text Keyword.At) }
{
    if word == b"tick".as_slice() {
        return Some(Keyword::Tick);
    }
    if word == b"?".as_slice() {
        return Some(Keyword::Choice);
    }
    if word == b"self".as_slice() {
        return Some(Keyword::Oneself);
    }
    if word == b"null".as_slice() {
        return Some(Keyword::Null);
    }
    if word == b"same".as_slice() {
        return Some(Keyword::Same);
    }
    if word == b"has".as_slice() {
        return Some(Keyword::Has);
    }
    if word == b"at".as_slice() {
        return Some(Keyword::At);
    }
    None
}

fn deed_word(word: &[u8]) -> Option<Keyword>
    ensures some { IfSome result (λ keyword. word.now ≡ keyword_text keyword) }
    ensures set { IfNone result (word.now ≢ keyword_text Keyword.Set) }
    ensures kill { IfNone result (word.now ≢ keyword_text Keyword.Kill) }
    ensures give { IfNone result (word.now ≢ keyword_text Keyword.Give) }
    ensures take { IfNone result (word.now ≢ keyword_text Keyword.Take) }
    ensures send { IfNone result (word.now ≢ keyword_text Keyword.Send) }
{
    if word == b"set".as_slice() {
        return Some(Keyword::Set);
    }
    if word == b"kill".as_slice() {
        return Some(Keyword::Kill);
    }
    if word == b"give".as_slice() {
        return Some(Keyword::Give);
    }
    if word == b"take".as_slice() {
        return Some(Keyword::Take);
    }
    if word == b"send".as_slice() {
        return Some(Keyword::Send);
    }
    None
}

fn further_deed_word(word: &[u8]) -> Option<Keyword>
    ensures some { IfSome result (λ keyword. word.now ≡ keyword_text keyword) }
    ensures add { IfNone result (word.now ≢ keyword_text Keyword.Add) }
    ensures spawn { IfNone result (word.now ≢ keyword_text Keyword.Spawn) }
    ensures bear { IfNone result (word.now ≢ keyword_text Keyword.Bear) }
    ensures when { IfNone result (word.now ≢ keyword_text Keyword.When) }
{
    if word == b"add".as_slice() {
        return Some(Keyword::Add);
    }
    if word == b"spawn".as_slice() {
        return Some(Keyword::Spawn);
    }
    if word == b"bear".as_slice() {
        return Some(Keyword::Bear);
    }
    if word == b"when".as_slice() {
        return Some(Keyword::When);
    }
    None
}
