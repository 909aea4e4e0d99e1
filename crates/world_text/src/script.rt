//! Scripts and their lines.

ghost use Rattle.std.specs.Prelude.{◌≡◌};

use std::marker::Model;
use world_model::{Command, EventKind};

/// A line of a script between its first and its last one.
#[derive(Debug, Drop)]
pub enum ScriptLine {
    /// A command, which is run and answered.
    Run(Command),
    /// Begin a watch: from now on hear of the events of this kind in this pool. Watches are numbered from
    /// 0. (EnTT: `registry.on_construct<T>().connect<..>(..)`, and so for updates and destructions.)
    Watch {
        /// What is heard of.
        kind: EventKind,
        /// The pool.
        pool: u32,
    },
    /// End a watch, and tell what it has heard. (EnTT: `sink.disconnect<..>(..)`.)
    Unwatch {
        /// The watch's number.
        number: u32,
    },
}

/// The lines of a script between its first and its last one, in order. A contract sees them as the list
/// of its items.
#[derive(Debug, Drop)]
pub struct Script {
    lines: Vec<ScriptLine>,
}

impl Model for Script {
    ghost use Rattle.std.specs.Prelude.{List};
    ghost use Rattle.world_text.specs.declared.script.ScriptLine.{ScriptLine};

    ghost Value = { List ScriptLine };

    ghost view = { λ a. a.lines.items };
}

impl Script {
    /// The script of these lines. No memory.
    pub fn from_vec(lines: Vec<ScriptLine>) -> Script
        ensures { result ≡ lines.items }
    {
        Script { lines }
    }

    /// Its lines. No memory.
    pub fn as_slice(&self) -> &[ScriptLine]
        ensures { result.now ≡ self.now }
    {
        &self.lines
    }
}
