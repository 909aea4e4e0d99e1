//! Laws over all schedules: why nobody ever waits for a pool. Each function does nothing: its contract is
//! the law.

ghost use Rattle.std.specs.Prelude.{◌≡◌, ◌⊎◌, ◌<◌, ℕ, List, length, count_by, IsTrue, IsFalse};
ghost use Rattle.world_model.specs.declared.access.Access.{Access};
ghost use Rattle.access_graph.specs.Conflicts.{need, writers};
ghost use Rattle.tick_core.specs.declared.step.Step.{Step};
ghost use Rattle.tick_core.specs.Facts.{HasFacts};
ghost use Rattle.tick_core.specs.Schedules.{IsFinished, IsSchedule, after_all, is_claim_of};
ghost use Rattle.tick_core.specs.States.{CoreState, are_conflicting, start, version_at};
ghost use Rattle.tick_core.specs.Steps.{CanStep, CanTake, Holds, after};

/// The facts hold before the first step, and every step that can be taken keeps them. No memory. (This
/// project's own.)
pub fn steps_keep_the_facts()
    ensures first { (accesses : List Access) → HasFacts (start accesses) }
    ensures next { (state : CoreState) (step : Step) →
        HasFacts state → CanStep state step → HasFacts (after state step) }
{}

/// The facts hold in every state that a schedule reaches. No memory. (This project's own.)
pub fn reached_states_have_the_facts()
    ensures { (accesses : List Access) (steps : List Step) →
        IsSchedule (start accesses) steps → HasFacts (after_all (start accesses) steps) }
{}

/// Where a system can take a pool, the pool is at the version that the system needs: all earlier systems
/// that write it have given it back, and no later one has. No memory. (This project's own.)
pub fn takes_find_what_they_need()
    ensures { (state : CoreState) (i pool : ℕ) → HasFacts state → CanTake state i pool →
        version_at state pool ≡ need state.accesses i pool }
{}

/// Where a system can take a pool, no system that holds the pool conflicts with it. No memory. (This
/// project's own.)
pub fn nobody_holds_what_is_taken()
    ensures { (state : CoreState) (i j pool : ℕ) → HasFacts state → CanTake state i pool →
        Holds state j pool → IsFalse (are_conflicting state i j) }
{}

/// Where not all systems are done, some step can be taken. No memory. (This project's own.)
pub fn a_step_can_always_be_taken()
    ensures { (state : CoreState) → HasFacts state →
        IsFinished state ⊎ ((step : Step) × CanStep state step) }
{}

/// Where all systems are done, no step can be taken, and each pool is at the version that all its writers
/// leave. No memory. (This project's own.)
pub fn finished_states_are_last()
    ensures steps { (state : CoreState) (step : Step) →
        HasFacts state → IsFinished state → CanStep state step → ⊥ }
    ensures versions { (state : CoreState) (pool : ℕ) →
        HasFacts state → IsFinished state → version_at state pool ≡ writers state.accesses pool }
{}

/// A schedule claims each system at most once, and exactly once where it ends with all systems done. No
/// memory. (This project's own.)
pub fn systems_are_claimed_once()
    ensures most { (accesses : List Access) (steps : List Step) (i : ℕ) →
        IsSchedule (start accesses) steps → count_by (is_claim_of i) steps < 2 }
    ensures once { (accesses : List Access) (steps : List Step) (i : ℕ) →
        IsSchedule (start accesses) steps → IsFinished (after_all (start accesses) steps) →
        i < length accesses → count_by (is_claim_of i) steps ≡ 1 }
{}
