//! The core of a parallel tick as a pure machine: which system may begin, take a pool, give it back, and
//! end.
#![tactic(auto)]

mod can;
mod laws;
mod machine;
mod next;
mod progress;
mod step;
mod take;
mod turns;
mod versions;

pub use laws::{
    a_step_can_always_be_taken, finished_states_are_last, nobody_holds_what_is_taken,
    reached_states_have_the_facts, steps_keep_the_facts, systems_are_claimed_once,
    takes_find_what_they_need,
};
pub use machine::Core;
pub use step::Step;
