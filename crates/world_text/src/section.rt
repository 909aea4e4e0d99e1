ghost use Rattle.std.specs.Prelude.{◌≡◌};
ghost use Rattle.world_text.specs.Sections.{is_between as between};

/// The parts of a document, in the order in which they stand.
#[derive(Clone, Copy, Debug, PartialEq, Eq, PartialOrd, Ord)]
pub enum Section {
    /// Before the first line.
    Start,
    /// The line that names the format's version.
    Version,
    /// The components.
    Components,
    /// The groups.
    Groups,
    /// The systems.
    Systems,
    /// The tick number.
    Tick,
    /// The slots.
    Slots,
    /// The free list.
    FreeList,
    /// The pools and their rows.
    Pools,
    /// Behind the last line.
    End,
}

impl Section {
    // Whether it is one of the parts from `first` to `last`.
    pub fn is_between(self, first: Section, last: Section) -> bool
        ensures { result ≡ between first last self }
    {
        first <= self && self <= last
    }
}
