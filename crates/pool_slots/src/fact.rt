//! What is so of the pools of some slots.

ghost use Rattle.std.specs.Prelude.{ℕ, List};
ghost use Rattle.entity_id.specs.declared.entity.Entity.{Entity};
ghost use Rattle.world_model.specs.declared.component.Row.{Row as Fields};

/// A fact about the pools of some slots, at each of their versions. A type of this trait is handed over
/// when slots are filled and not kept: it may have no bytes. This project's own.
pub trait PoolFact {
    /// The pool of this number may stand for this finite map at this version.
    ghost admits: { Self → ℕ → ℕ → List (Entity × Fields) → Type 0 };
}
