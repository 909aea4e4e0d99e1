//! Lines of a script that begin and end watches.

ghost use Rattle.std.specs.Prelude.{◌≡◌, ◌≢◌, ◌++◌, ◌∷◌, ◌≤◌, ℕ, List, IfSome, IfNone, MatchOption, length};
ghost use Rattle.world_model.specs.declared.component.Decl.{Decl};
ghost use Rattle.world_model.specs.declared.event.EventKind.{EventKind};
ghost use Rattle.world_text.specs.declared.script.ScriptLine.{ScriptLine};
ghost use Rattle.world_text.specs.declared.verbs.Verb.{Verb};
ghost use Rattle.world_model.specs.Worlds.{component_limit};
ghost use Rattle.world_text.specs.Formats.{version_1};
ghost use Rattle.world_text.specs.Scripts.{event_word};
ghost use Rattle.world_text.specs.ScriptReading.{IsLineBehind};

use super::ScriptLine;
use super::line_parts::{take_last_number, take_last_pool};
use super::verbs::Verb;
use row_lang::words::after;
use world_model::{Decl, EventKind};

/// The line of the word `watch`, and what stands behind its end.
pub fn take_watch<'a>(decls: &[Decl], text: &'a [u8]) -> Option<(ScriptLine, &'a [u8])>
    requires { length decls.now ≤ component_limit }
    ensures some { IfSome result (λ x.
        IsLineBehind version_1.profile decls.now Verb.Watch text.now x.0 x.1.now) }
    ensures none { IfNone result ((line : ScriptLine) (rest : List ℕ) →
        IsLineBehind version_1.profile decls.now Verb.Watch text.now line rest → ⊥) }
{
    let (kind, rest) = take_kind(text)?;
    let (pool, rest) = take_last_pool(decls, rest)?;
    Some((ScriptLine::Watch { kind, pool }, rest))
}

// A kind of events behind a space, and what stands behind it.
fn take_kind(text: &[u8]) -> Option<(EventKind, &[u8])>
    ensures { MatchOption result
        ((kind : EventKind) (rest : List ℕ) → text.now ≢ 32 ∷ (event_word kind ++ rest))
        (λ x. text.now ≡ 32 ∷ (event_word x.0 ++ x.1.now)) }
{
    if let Some(rest) = after(text, b" construct") {
        return Some((EventKind::Construct, rest));
    }
    if let Some(rest) = after(text, b" update") {
        return Some((EventKind::Update, rest));
    }
    if let Some(rest) = after(text, b" destroy") {
        return Some((EventKind::Destroy, rest));
    }
    None
}

/// The line of the word `unwatch`, and what stands behind its end.
pub fn take_unwatch(text: &[u8]) -> Option<(ScriptLine, &[u8])>
    ensures some { IfSome result (λ x. (decls : List Decl) →
        IsLineBehind version_1.profile decls Verb.Unwatch text.now x.0 x.1.now) }
    ensures none { IfNone result ((decls : List Decl) (line : ScriptLine) (rest : List ℕ) →
        IsLineBehind version_1.profile decls Verb.Unwatch text.now line rest → ⊥) }
{
    let (number, rest) = take_last_number(text)?;
    Some((ScriptLine::Unwatch { number }, rest))
}
