//! The words that lines of a script begin with, told apart by what stands behind them.

ghost use Rattle.std.specs.Prelude.{◌≡◌};
ghost use Rattle.world_text.specs.Verbs.{plain_command as plain_made, entity_command as entity_made};
ghost use Rattle.world_text.specs.Verbs.{entry_command as entry_made, row_command as row_made};
ghost use Rattle.world_text.specs.Verbs.{names_command as names_made};

use entity_id::{Entity, Pools};
use world_model::{Command, Row};

/// A word that stands alone.
#[derive(Clone, Copy, Debug, PartialEq, Eq)]
pub enum PlainVerb {
    /// `create`
    Create,
    /// `alive`
    Alive,
    /// `size`
    Size,
}

/// A word with an identifier behind it.
#[derive(Clone, Copy, Debug, PartialEq, Eq)]
pub enum EntityVerb {
    /// `hint`
    Hint,
    /// `destroy`
    Destroy,
    /// `valid`
    Valid,
    /// `orphan`
    Orphan,
}

/// A word with an identifier and a component behind it.
#[derive(Clone, Copy, Debug, PartialEq, Eq)]
pub enum EntryVerb {
    /// `remove`
    Remove,
    /// `erase`
    Erase,
    /// `get`
    Get,
}

/// A word with an identifier, a component and a row of it behind it.
#[derive(Clone, Copy, Debug, PartialEq, Eq)]
pub enum RowVerb {
    /// `emplace`
    Emplace,
    /// `emplace_or_replace`
    EmplaceOrReplace,
    /// `replace`
    Replace,
}

/// A word with an identifier and names of components behind it.
#[derive(Clone, Copy, Debug, PartialEq, Eq)]
pub enum NamesVerb {
    /// `all_of`
    AllOf,
    /// `any_of`
    AnyOf,
}

/// The word that a line of a script begins with.
#[derive(Clone, Copy, Debug, PartialEq, Eq)]
pub enum Verb {
    /// A word alone.
    Plain(PlainVerb),
    /// A word and an identifier.
    OfEntity(EntityVerb),
    /// A word, an identifier and a component.
    OfEntry(EntryVerb),
    /// A word, an identifier, a component and a row of it.
    OfRow(RowVerb),
    /// A word, an identifier and names of components.
    OfNames(NamesVerb),
    /// `patch`
    Patch,
    /// `clear`
    Clear,
    /// `view`
    View,
    /// `group`
    Group,
    /// `members`
    Members,
    /// `sort`
    Sort,
    /// `watch`
    Watch,
    /// `unwatch`
    Unwatch,
}

/// The command of a word alone.
pub fn plain_command(verb: PlainVerb) -> Command
    ensures { result ≡ plain_made verb }
{
    match verb {
        PlainVerb::Create => Command::Create,
        PlainVerb::Alive => Command::Alive,
        PlainVerb::Size => Command::Size,
    }
}

/// The command of a word and an identifier.
pub fn entity_command(verb: EntityVerb, entity: Entity) -> Command
    ensures { result ≡ entity_made verb entity }
{
    match verb {
        EntityVerb::Hint => Command::Hint { entity },
        EntityVerb::Destroy => Command::Destroy { entity },
        EntityVerb::Valid => Command::Valid { entity },
        EntityVerb::Orphan => Command::Orphan { entity },
    }
}

/// The command of a word, an identifier and a component.
pub fn entry_command(verb: EntryVerb, entity: Entity, pool: u32) -> Command
    ensures { result ≡ entry_made verb entity pool }
{
    match verb {
        EntryVerb::Remove => Command::Remove { entity, pool },
        EntryVerb::Erase => Command::Erase { entity, pool },
        EntryVerb::Get => Command::Get { entity, pool },
    }
}

/// The command of a word, an identifier, a component and a row of it.
pub fn row_command(verb: RowVerb, entity: Entity, pool: u32, row: Row) -> Command
    ensures { result ≡ row_made verb entity pool row }
{
    match verb {
        RowVerb::Emplace => Command::Emplace { entity, pool, row },
        RowVerb::EmplaceOrReplace => Command::EmplaceOrReplace { entity, pool, row },
        RowVerb::Replace => Command::Replace { entity, pool, row },
    }
}

/// The command of a word, an identifier and components.
pub fn names_command(verb: NamesVerb, entity: Entity, pools: Pools) -> Command
    ensures { result ≡ names_made verb entity pools }
{
    match verb {
        NamesVerb::AllOf => Command::AllOf { entity, pools },
        NamesVerb::AnyOf => Command::AnyOf { entity, pools },
    }
}
