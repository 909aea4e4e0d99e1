//! The commands of the program `world`, over any source and any two sinks.
//!
//! Which words are a command stands in `specs/Words.antt`, what a command puts out for which input in
//! `specs/Output.antt`, and how a call may end in `specs/Endings.antt`: all are clauses of [`top`] and
//! [`plain`]. [`start`] is the program from its arguments to its exit code, and `specs/Starting.antt` says
//! how that ends. What follows from the endings is said by the laws in `laws.rt`, and what follows from the
//! outputs by those in `output_laws.rt`.
#![tactic(auto)]

mod apply;
mod canonical;
mod generate;
mod graph;
mod laws;
mod options;
mod outcome;
mod output_laws;
mod pack;
mod perform;
mod playing;
mod program;
mod refused;
mod reporting;
mod run;
mod sharing;
mod starting;
mod team;
mod verb;
mod watching;

pub use laws::{
    bad_inputs_are_told, good_inputs_are_printed, long_inputs_are_told, past_inputs_are_told,
    success_prints_the_output,
};
pub use outcome::{FaultAt, Outcome, Status};
pub use output_laws::{
    every_input_is_answered, one_output, packs_are_unpacked, runs_in_parts,
    ticks_keep_documents_lawful,
};
pub use program::{plain, top, top_gated};
pub use starting::start;
pub use verb::Verb;

#[cfg(test)]
mod tests;
