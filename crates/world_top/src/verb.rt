//! The commands, and the words that are one.

ghost use Rattle.std.specs.Prelude.{◌≡◌, IfSome};
ghost use Rattle.world_top.specs.Words.{HasWorkers, IsInRange, reads_input as reads_input_of, verb_named as verb_with, verb_of as verb_in, workers_of};

use super::options::{gen_with, run_with};

/// What the program's words ask for.
#[derive(Clone, Copy, Debug, PartialEq, Eq)]
pub enum Verb {
    /// `snapshot`: read a document and print its canonical text.
    Snapshot,
    /// `apply`: read a document and a script, print the script's replies, and the canonical text of the
    /// document that it leaves.
    Apply,
    /// `run` with `--ticks N` and `--workers W` in either order: read a document, run its systems, and
    /// print the canonical text of the document that they leave.
    Run {
        /// For how many ticks, up to 1,000,000.
        ticks: u64,
        /// On how many threads at most, 1 to 16. What is printed doesn't depend on it.
        workers: u64,
    },
    /// `graph`: read a document, and print which of its systems wait for which.
    Graph,
    /// `pack`: read a document and print its binary snapshot.
    Pack,
    /// `unpack`: read a binary snapshot and print the canonical text of its document.
    Unpack,
    /// `gen NUMBER COUNT TICKS`: make a world, run its systems, and print the summary of the world that
    /// they leave. No input is read.
    Gen {
        /// Which world is made.
        number: u32,
        /// Of how many entities, up to 1,000,000.
        count: u32,
        /// For how many ticks, up to 1,000,000.
        ticks: u64,
    },
}

impl Verb {
    /// Whether the command reads its source, to the end. No memory.
    pub fn reads_input(self) -> bool
        ensures { result ≡ reads_input_of self }
    {
        match self {
            Verb::Gen { .. } => false,
            _ => true,
        }
    }

    /// How many threads carry the command out: 1, but for a run that is told to have more. No memory.
    pub fn workers(self) -> u32
        requires { HasWorkers self }
        ensures { result ≡ workers_of self }
    {
        match self {
            Verb::Run { workers, .. } => workers as u32,
            _ => 1,
        }
    }
}

/// The command that words are. None where they are none. No memory.
pub fn verb_of(words: &[String]) -> Option<Verb>
    ensures verb { result ≡ verb_in words.now }
    ensures range { IfSome result IsInRange }
    ensures workers { IfSome result HasWorkers }
{
    match words {
        [word] => verb_named(word.as_str()),
        [name, options @ ..] if name.as_str() == "run" => run_with(options),
        [name, numbers @ ..] if name.as_str() == "gen" => gen_with(numbers),
        _ => None,
    }
}

fn verb_named(name: &str) -> Option<Verb>
    ensures verb { result ≡ verb_with name.now }
    ensures range { IfSome result IsInRange }
    ensures workers { IfSome result HasWorkers }
{
    if name == "snapshot" {
        return Some(Verb::Snapshot);
    }
    if name == "apply" {
        return Some(Verb::Apply);
    }
    if name == "graph" {
        return Some(Verb::Graph);
    }
    if name == "pack" {
        return Some(Verb::Pack);
    }
    if name == "unpack" {
        return Some(Verb::Unpack);
    }
    None
}
