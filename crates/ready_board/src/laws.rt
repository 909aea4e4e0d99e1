//! Laws of the rule of a board. Each function does nothing: its contract is the law.

ghost use Rattle.std.specs.Prelude.{◌≡◌, ◌≢◌, ℕ, List};
ghost use mathlib.Core.Option.{some};
ghost use lib.ListN.{get_elem?};
ghost use Rattle.ready_board.specs.Rules.{IsKept};
ghost use Rattle.ready_board.specs.Sets.{Has, Lacks};
ghost use Rattle.ready_board.specs.declared.view.View.{View};

/// While the rule is kept, what one seat has claimed is no other seat's, and is claimed on the board; and
/// each system that is claimed on the board is some seat's. No memory. (This project's own.)
pub fn claimed_systems_have_one_owner()
    ensures one { (preds : List ℕ) (claimed done : ℕ) (views : List View)
        (seat other system : ℕ) (view another : View) → IsKept preds claimed done views →
        get_elem? views seat ≡ some view → get_elem? views other ≡ some another →
        other ≢ seat → Has view.mine system → Lacks another.mine system }
    ensures claimed { (preds : List ℕ) (claimed done : ℕ) (views : List View)
        (seat system : ℕ) (view : View) → IsKept preds claimed done views →
        get_elem? views seat ≡ some view → Has view.mine system → Has claimed system }
    ensures owner { (preds : List ℕ) (claimed done : ℕ) (views : List View) (system : ℕ) →
        IsKept preds claimed done views → Has claimed system →
        (seat : ℕ) × (view : View) × (get_elem? views seat ≡ some view) × Has view.mine system }
{}
