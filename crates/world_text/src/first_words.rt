//! Which word a line of a script begins with.

ghost use Rattle.std.specs.Prelude.{◌≡◌, ◌≢◌, IfSome, IfNone};
ghost use Rattle.world_text.specs.declared.verbs.EntityVerb.{EntityVerb};
ghost use Rattle.world_text.specs.declared.verbs.EntryVerb.{EntryVerb};
ghost use Rattle.world_text.specs.declared.verbs.NamesVerb.{NamesVerb};
ghost use Rattle.world_text.specs.declared.verbs.PlainVerb.{PlainVerb};
ghost use Rattle.world_text.specs.declared.verbs.RowVerb.{RowVerb};
ghost use Rattle.world_text.specs.declared.verbs.Verb.{Verb};
ghost use Rattle.world_text.specs.Verbs.{plain_word, entity_word, entry_word, row_word, names_word, word_of};

use super::verbs::{EntityVerb, EntryVerb, NamesVerb, PlainVerb, RowVerb, Verb};

/// What a word says. None exactly where no line of a script begins with it. Words of lines with a row
/// come first, then those with an identifier. No memory.
pub fn verb_of(word: &[u8]) -> Option<Verb>
    ensures some { IfSome result (λ verb. word.now ≡ word_of verb) }
    ensures none { IfNone result ((verb : Verb) → word.now ≢ word_of verb) }
{
    if let Some(verb) = row_verb(word) {
        return Some(Verb::OfRow(verb));
    }
    if let Some(verb) = entry_verb(word) {
        return Some(Verb::OfEntry(verb));
    }
    if let Some(verb) = entity_verb(word) {
        return Some(Verb::OfEntity(verb));
    }
    if let Some(verb) = plain_verb(word) {
        return Some(Verb::Plain(verb));
    }
    if let Some(verb) = names_verb(word) {
        return Some(Verb::OfNames(verb));
    }
    if let Some(verb) = group_verb(word) {
        return Some(verb);
    }
    other_verb(word)
}

fn other_verb(word: &[u8]) -> Option<Verb>
    ensures some { IfSome result (λ verb. word.now ≡ word_of verb) }
    ensures patch { IfNone result (word.now ≢ word_of Verb.Patch) }
    ensures clear { IfNone result (word.now ≢ word_of Verb.Clear) }
    ensures view { IfNone result (word.now ≢ word_of Verb.View) }
    ensures watch { IfNone result (word.now ≢ word_of Verb.Watch) }
    ensures unwatch { IfNone result (word.now ≢ word_of Verb.Unwatch) }
{
    if word == b"patch".as_slice() {
        return Some(Verb::Patch);
    }
    if word == b"view".as_slice() {
        return Some(Verb::View);
    }
    if word == b"clear".as_slice() {
        return Some(Verb::Clear);
    }
    if word == b"watch".as_slice() {
        return Some(Verb::Watch);
    }
    if word == b"unwatch".as_slice() {
        return Some(Verb::Unwatch);
    }
    None
}

fn group_verb(word: &[u8]) -> Option<Verb>
    ensures some { IfSome result (λ verb. word.now ≡ word_of verb) }
    ensures group { IfNone result (word.now ≢ word_of Verb.Group) }
    ensures members { IfNone result (word.now ≢ word_of Verb.Members) }
    ensures sort { IfNone result (word.now ≢ word_of Verb.Sort) }
{
    if word == b"members".as_slice() {
        return Some(Verb::Members);
    }
    if word == b"group".as_slice() {
        return Some(Verb::Group);
    }
    if word == b"sort".as_slice() {
        return Some(Verb::Sort);
    }
    None
}

fn plain_verb(word: &[u8]) -> Option<PlainVerb>
    ensures some { IfSome result (λ verb. word.now ≡ plain_word verb) }
    ensures none { IfNone result ((verb : PlainVerb) → word.now ≢ plain_word verb) }
{
    if word == b"create".as_slice() {
        return Some(PlainVerb::Create);
    }
    if word == b"alive".as_slice() {
        return Some(PlainVerb::Alive);
    }
    if word == b"size".as_slice() {
        return Some(PlainVerb::Size);
    }
    None
}

fn entity_verb(word: &[u8]) -> Option<EntityVerb>
    ensures some { IfSome result (λ verb. word.now ≡ entity_word verb) }
    ensures none { IfNone result ((verb : EntityVerb) → word.now ≢ entity_word verb) }
{
    if word == b"destroy".as_slice() {
        return Some(EntityVerb::Destroy);
    }
    if word == b"valid".as_slice() {
        return Some(EntityVerb::Valid);
    }
    if word == b"hint".as_slice() {
        return Some(EntityVerb::Hint);
    }
    if word == b"orphan".as_slice() {
        return Some(EntityVerb::Orphan);
    }
    None
}

fn entry_verb(word: &[u8]) -> Option<EntryVerb>
    ensures some { IfSome result (λ verb. word.now ≡ entry_word verb) }
    ensures none { IfNone result ((verb : EntryVerb) → word.now ≢ entry_word verb) }
{
    if word == b"get".as_slice() {
        return Some(EntryVerb::Get);
    }
    if word == b"remove".as_slice() {
        return Some(EntryVerb::Remove);
    }
    if word == b"erase".as_slice() {
        return Some(EntryVerb::Erase);
    }
    None
}

fn row_verb(word: &[u8]) -> Option<RowVerb>
    ensures some { IfSome result (λ verb. word.now ≡ row_word verb) }
    ensures none { IfNone result ((verb : RowVerb) → word.now ≢ row_word verb) }
{
    if word == b"emplace".as_slice() {
        return Some(RowVerb::Emplace);
    }
    if word == b"replace".as_slice() {
        return Some(RowVerb::Replace);
    }
    if word == b"emplace_or_replace".as_slice() {
        return Some(RowVerb::EmplaceOrReplace);
    }
    None
}

fn names_verb(word: &[u8]) -> Option<NamesVerb>
    ensures some { IfSome result (λ verb. word.now ≡ names_word verb) }
    ensures none { IfNone result ((verb : NamesVerb) → word.now ≢ names_word verb) }
{
    if word == b"all_of".as_slice() {
        return Some(NamesVerb::AllOf);
    }
    if word == b"any_of".as_slice() {
        return Some(NamesVerb::AnyOf);
    }
    None
}
