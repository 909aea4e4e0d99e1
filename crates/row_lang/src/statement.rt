//! Statements, as their tokens.

ghost use Rattle.std.specs.Prelude.{◌≡◌, ◌++◌, ◌∷◌, [], length, OnOk, OnErr};
ghost use Rattle.std.specs.List.{list_any};
ghost use Rattle.row_lang.specs.Systems.{is_command as is_command_statement, is_set as is_word_set};

use super::{Keyword, Token};
use entity_id::OutOfMemory;
use std::alloc::Global;
use std::marker::Model;

/// A statement of a system. A contract sees the list of its tokens, in the order of its text, without
/// the word `do`.
#[derive(Debug, Drop)]
pub struct Statement {
    tokens: Vec<Token>,
}

impl Model for Statement {
    ghost use Rattle.std.specs.Prelude.{List};
    ghost use Rattle.row_lang.specs.declared.token.Token.{Token};

    ghost Value = { List Token };

    ghost view = { λ a. a.tokens.items };
}

impl Statement {
    /// The statement of these tokens. No memory.
    pub fn from_vec(tokens: Vec<Token>) -> Statement
        ensures { result ≡ tokens.items }
    {
        Statement { tokens }
    }

    /// Its tokens. No memory.
    pub fn as_slice(&self) -> &[Token]
        ensures { result.now ≡ self.now }
    {
        &self.tokens
    }

    /// Whether it is a command statement: all but `set` are. No memory.
    pub fn is_command(&self) -> bool
        ensures { result ≡ is_command_statement self.now }
    {
        !has_set(self.as_slice())
    }
}

fn has_set(tokens: &[Token]) -> bool
    ensures { result ≡ list_any is_word_set tokens.now }
{
    tokens.iter().any(|token| is_set(*token))
}

// Whether a token is the word `set`.
fn is_set(token: Token) -> bool
    ensures { result ≡ is_word_set token }
{
    match token {
        Token::Word(Keyword::Set) => true,
        _ => false,
    }
}

/// The statements of a system, in the order of its lines. A contract sees the list of them.
#[derive(Debug, Drop)]
pub struct StatementList {
    statements: Vec<Statement>,
}

impl Model for StatementList {
    ghost use Rattle.std.specs.Prelude.{List};
    ghost use Rattle.row_lang.specs.declared.token.Token.{Token};

    ghost Value = { List (List Token) };

    ghost view = { λ a. a.statements.items };
}

impl StatementList {
    /// No statement. No memory.
    pub fn new(alloc: Global) -> StatementList
        ensures { result ≡ [] }
    {
        StatementList {
            statements: Vec::new(alloc),
        }
    }

    /// Appends a statement. After the refusal the list is as before.
    pub fn push(&mut self, statement: Statement) -> Result<(), OutOfMemory>
        ensures ok { OnOk result (self.new ≡ self.old ++ statement ∷ []) }
        ensures err { OnErr result (self.new ≡ self.old) }
    {
        self.statements.push(statement)?;
        Ok(())
    }

    /// Its statements. No memory.
    pub fn as_slice(&self) -> &[Statement]
        ensures { result.now ≡ self.now }
    {
        &self.statements
    }

    /// How many there are. No memory.
    pub fn len(&self) -> usize
        ensures { result ≡ length self.now }
    {
        self.statements.len()
    }

    /// The allocator that the list was made with. No memory.
    pub fn allocator(&self) -> Global {
        *self.statements.allocator()
    }
}
