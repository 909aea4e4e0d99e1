//! The threads that carry out ticks.

ghost use Rattle.std.specs.Prelude.{◌<◌, ◌≤◌};

/// So many workers of a runtime, each of which calls a gate before it runs a system.
#[derive(Drop)]
pub struct Team<'a, R, T> {
    pub rt: &'a R,
    pub gate: &'a T,
    pub workers: u32,
    ghost some: { 0 < workers },
    ghost most: { workers ≤ 16 },
}
