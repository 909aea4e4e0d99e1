//! What holds of every made world, whoever makes it.

ghost use Rattle.std.specs.Prelude.{◌≡◌, ℕ};
ghost use Rattle.world_text.specs.declared.document.Document.{Document};
ghost use Rattle.world_maker.specs.MadeWorlds.{IsMade};

/// A number and a count make one world at most: what is said of a made world tells all of it. That there
/// is one, [`super::make_world`] says, which makes it wherever memory doesn't run out. No memory. (This
/// project's own.)
pub fn made_worlds_are_unique()
    ensures { (number count : ℕ) (a b : Document) →
        IsMade number count a → IsMade number count b → a ≡ b }
{}
