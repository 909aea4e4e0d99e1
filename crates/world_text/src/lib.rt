//! The text form of a world: documents, read and checked line by line, and printed as their one
//! canonical text.
//!
//! What a document is stands in `specs/`, as a relation on whole lists of lines: `Lines.antt` says
//! how each line is spelled, `Fitting.antt` where a line is admissible after the lines before it, and
//! `Documents.antt` which bytes are a document of which world, and which line is the first bad one.
//! `SystemLines.antt` says what the lines of systems stand for, of which `row_lang` says which there are, and
//! `GroupLines.antt` how an owning group is spelled, in a document and in a script. `Headers.antt` says the
//! same of the header lines alone: those of components, groups and systems.
//! Likewise `Scripts.antt` says how the lines of a script are spelled, which texts are scripts, and which
//! line is the first bad one, and `Playing.antt` what a script prints and leaves.
#![tactic(auto)]

mod adding;
mod command_lines;
mod document;
mod draft;
mod fault;
mod filling;
mod first_words;
mod format;
mod group_lines;
mod group_printing;
mod header;
mod header_printing;
mod laws;
mod line_parts;
mod list_lines;
mod name_lines;
mod number_lines;
mod printing;
mod reading;
mod replies;
mod row_commands;
mod row_lines;
mod row_printing;
mod script;
mod script_laws;
mod scripts;
mod section;
mod single;
mod sort_lines;
mod system_adding;
mod system_lines;
mod system_list;
mod verbs;
mod watch_lines;
mod watch_replies;
mod words;

pub use adding::{add_end, add_next, add_slot, add_tick};
pub use command_lines::{after_first_line, after_last_line, take_script_line};
pub use document::Document;
pub use draft::Draft;
pub use fault::TextRefused;
pub use filling::{add_pool, add_row};
pub use format::{Format, TICK_LIMIT, VERSION_1};
pub use header::{Header, HeaderDraft};
pub use header_printing::header_lines;
pub use laws::{
    document_or_bad_line, documents_are_lawful, front_or_bad_line, one_bad_line, one_document,
    one_front, printed_text, printed_text_is_read_back,
};
pub use printing::{push_world, write_world};
pub use reading::{Front, finished, read_front, read_world};
pub use replies::push_reply;
pub use row_lang::LineFault;
pub use script::{Script, ScriptLine};
pub use script_laws::{
    names_tell_components, one_command, one_script, script_or_bad_line,
    scripts_keep_documents_lawful,
};
pub use scripts::read_script;
pub use section::Section;
pub use single::read_command;
pub use system_list::SystemList;
pub use watch_replies::{push_heard, push_unwatched, push_watched};
