ghost use Rattle.std.specs.Prelude.{◌≡◌};
ghost use Rattle.row_lang.specs.Systems.{is_between as between, part_of, may_list_behind, may_do_behind};

use super::AccessList;

/// The parts of a system, in the order in which their lines stand.
#[derive(Clone, Copy, Debug, PartialEq, Eq, PartialOrd, Ord)]
pub enum Part {
    /// Its first line alone.
    Begun,
    /// The line `read`.
    Read,
    /// The line `write`.
    Write,
    /// The line `look`.
    Look,
    /// The line `not`.
    Without,
    /// The `do` lines.
    Do,
    /// Its last line, `end`.
    Closed,
}

impl Part {
    // The part that is a list's line.
    pub(super) fn of_list(list: AccessList) -> Part
        ensures { result ≡ part_of list }
    {
        match list {
            AccessList::Read => Part::Read,
            AccessList::Write => Part::Write,
            AccessList::Look => Part::Look,
            AccessList::Without => Part::Without,
        }
    }

    // Whether it is one of the parts from `first` to `last`.
    pub(super) fn is_between(self, first: Part, last: Part) -> bool
        ensures { result ≡ between first last self }
    {
        first <= self && self <= last
    }

    // Whether a list's line may stand behind it.
    pub(super) fn may_list(self, list: AccessList) -> bool
        ensures { result ≡ may_list_behind self list }
    {
        match list {
            AccessList::Read => self.is_between(Part::Begun, Part::Begun),
            AccessList::Write => self.is_between(Part::Begun, Part::Read),
            AccessList::Look => self.is_between(Part::Read, Part::Write),
            AccessList::Without => self.is_between(Part::Read, Part::Look),
        }
    }

    // Whether a `do` line or the last line may stand behind it.
    pub(super) fn may_do(self) -> bool
        ensures { result ≡ may_do_behind self }
    {
        self.is_between(Part::Read, Part::Do)
    }
}
