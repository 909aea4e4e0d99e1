//! The tokens of a statement, and the places that they fill.

use world_model::{FieldAt, Kind};

/// A word of the language. What each means stands in `docs/FORMATS.md`.
#[derive(Clone, Copy, Debug, PartialEq, Eq)]
pub enum Keyword {
    /// `tick`: the tick's number.
    Tick,
    /// `+`: a sum of two numbers.
    Plus,
    /// `-`: a difference.
    Minus,
    /// `*`: a product.
    Times,
    /// `/`: a quotient.
    Divide,
    /// `%`: what a division leaves.
    Remainder,
    /// `min`: the smaller of two numbers.
    Least,
    /// `max`: the greater of two numbers.
    Greatest,
    /// `<`: whether the first of two numbers is less.
    Less,
    /// `=`: whether two numbers are equal.
    Equal,
    /// `?`: the second of three where the first isn't 0, else the third.
    Choice,
    /// `self`: the entity itself.
    Oneself,
    /// `null`: the null identifier.
    Null,
    /// `same`: whether two entities are one.
    Same,
    /// `has`: whether an entity is in a pool.
    Has,
    /// `at`: a field of an entity in a pool.
    At,
    /// `when`: a test in front of what a statement does.
    When,
    /// `set`: sets a field of the own row.
    Set,
    /// `kill`: destroys an entity.
    Kill,
    /// `give`: gives an entity a row.
    Give,
    /// `take`: takes an entity out of a pool.
    Take,
    /// `send`: sets a field of an entity.
    Send,
    /// `add`: adds to a field of an entity.
    Add,
    /// `spawn`: makes an entity.
    Spawn,
    /// `bear`: gives the entity that was made last a row.
    Bear,
}

/// A token of a statement. The tokens of a statement stand in the order of its text.
#[derive(Clone, Copy, Debug, PartialEq, Eq)]
pub enum Token {
    /// A word of the language.
    Word(Keyword),
    /// A whole number.
    Number(i64),
    /// A field of the own row, as an expression.
    Own(FieldAt),
    /// A component, by its number.
    Pool(u32),
    /// A field of a component that is no expression by itself: what a statement sets, or an expression
    /// looks up. It is spelled as `Own` is; the place tells which of the two stands there.
    Field(FieldAt),
}

/// What a place in a statement wants.
#[derive(Clone, Copy, Debug, PartialEq, Eq, Default)]
pub enum Place {
    /// A statement.
    #[default]
    Statement,
    /// What a statement does.
    Deed,
    /// An expression of this kind, of at most so many levels.
    Value(Kind, u32),
    /// A component that is looked at.
    Looked,
    /// A field of this kind of a component that is looked at.
    LookedField(Kind),
    /// A field of a component that is written, and behind it a value of its kind.
    Written,
    /// A field of any component, and behind it a value of its kind.
    Sent,
    /// A whole number's field of any component, and behind it a whole number.
    Raised,
    /// Any component.
    Named,
    /// Any component, and behind it a value for each of its fields.
    Given,
}
