//! Draws.

ghost use Rattle.std.specs.Prelude.{◌≡◌, ◌<◌, ◌%◌};
ghost use Rattle.world_maker.specs.Draws.{next_draw};

/// The numbers that a number draws, one behind another.
#[derive(Clone, Copy, Debug)]
pub struct Draws {
    /// The number drawn last; before the first, what they begin with.
    pub last: u32,
    ghost small: { last < 65537 },
}

impl Draws {
    /// The draws of a number, none of them drawn. No memory.
    pub fn of(number: u32) -> Draws
        ensures { result.last ≡ number % 65537 }
    {
        Draws {
            last: number % 65_537,
        }
    }

    /// Draws the next one. No memory.
    pub fn draw(&mut self) -> u32
        ensures next { result ≡ next_draw self.old.last }
        ensures last { self.new.last ≡ result }
    {
        self.last = (75 * self.last + 74) % 65_537;
        self.last
    }
}
