//! The text of systems: their lines read one at a time, checked against the components that a document
//! declares, and printed as their one canonical text.
//!
//! What a system's lines are stands in `specs/`: `Spelling.antt` says how each line is spelled,
//! `Places.antt` which tokens are a statement, and `Systems.antt` which line may stand behind which, what
//! system they stand for, and what is printed of it. `NameLists.antt`, `Naming.antt`, `FieldNames.antt` and
//! `Reading.antt` have the words for names of components in a line, which the text of documents shares.
//!
//! What a system does stands there too: `Values.antt` says what an expression is worth, `Bodies.antt` what
//! the statements do for one entity, and `Effects.antt` what a system does for all of its entities.
//! `meaning_laws` has what holds of every system, in the words of world_model's `Frames.antt`.
#![tactic(auto)]

mod access_list;
mod added;
mod adding;
mod deeds;
mod draft;
mod fault;
mod keywords;
mod kinds;
mod laws;
mod meaning_laws;
pub mod name_lists;
mod opening;
mod part;
mod printing;
mod statement;
mod system;
mod taking;
mod token;
mod token_reading;
pub mod words;

pub use access_list::AccessList;
pub use added::Added;
pub use draft::SystemDraft;
pub use fault::LineFault;
pub use laws::{nesting_is_counted, one_system, printed_system};
pub use meaning_laws::{
    checked_systems_are_fit, checked_systems_give_few_orders, fields_hold_one_identifier,
    fit_systems_keep_worlds_lawful, smallest_pools_bound_orders, systems_are_checked,
    systems_are_fit, systems_change_only_their_rows, systems_depend_on_their_lists,
};
pub use part::Part;
pub use printing::{print_system, push_system};
pub use statement::{Statement, StatementList};
pub use system::SystemDef;
pub use token::{Keyword, Place, Token};
