//! What holds of the outputs of commands, whoever makes them.

ghost use Rattle.std.specs.Prelude.{◌≡◌, ◌↔◌, ℕ, ◌+◌, ◌≤◌, List};
ghost use Rattle.world_text.specs.declared.document.Document.{Document};
ghost use Rattle.world_text.specs.Documents.{IsLawfulDocument};
ghost use Rattle.world_text.specs.Formats.{tick_limit};
ghost use Rattle.world_top.specs.declared.outcome.FaultAt.{FaultAt};
ghost use Rattle.world_top.specs.declared.verb.Verb.{Verb};
ghost use Rattle.world_top.specs.declared.verb.Verb.TheVariants.{Snapshot, Run, Pack, Unpack};
ghost use Rattle.world_top.specs.Output.{IsOutput, IsBadInput, IsPastLimit};
ghost use Rattle.world_top.specs.Ticking.{document_after_ticks};
ghost use Rattle.world_top.specs.Words.{IsInRange};

/// A command has one output at most for an input, and no input has two first bad parts. No input has
/// both an output and a bad part; and the tick number of none that has either would pass its limit. No
/// memory.
pub fn one_output()
    ensures output { (verb : Verb) (input a b : List ℕ) →
        IsOutput verb input a → IsOutput verb input b → a ≡ b }
    ensures at { (verb : Verb) (input : List ℕ) (a b : FaultAt) →
        IsBadInput verb input a → IsBadInput verb input b → a ≡ b }
    ensures none { (verb : Verb) (input bytes : List ℕ) (at : FaultAt) →
        IsOutput verb input bytes → IsBadInput verb input at → ⊥ }
    ensures within { (verb : Verb) (input bytes : List ℕ) →
        IsOutput verb input bytes → IsPastLimit verb input → ⊥ }
    ensures admitted { (verb : Verb) (input : List ℕ) (at : FaultAt) →
        IsBadInput verb input at → IsPastLimit verb input → ⊥ }
{}

/// Every input has an output of a command, or a first bad part, or a tick number that would pass its
/// limit: none has none of them. Of the commands that words are this holds of each, as `IsInRange` holds
/// of each. No memory.
pub fn every_input_is_answered()
    ensures { (verb : Verb) (input : List ℕ) → IsInRange verb →
        ((bytes : List ℕ) → IsOutput verb input bytes → ⊥) →
        ((at : FaultAt) → IsBadInput verb input at → ⊥) →
        (IsPastLimit verb input → ⊥) → ⊥ }
{}

/// What `pack` prints for an input, `unpack` prints as what `snapshot` does for the input: the canonical
/// text of the document that it is. No memory.
pub fn packs_are_unpacked()
    ensures { (input packed bytes : List ℕ) →
        IsOutput Pack input packed →
        (IsOutput Unpack packed bytes ↔ IsOutput Snapshot input bytes) }
{}

/// The document that ticks leave of a lawful one is lawful, where its tick number stays within the limit.
/// No memory.
pub fn ticks_keep_documents_lawful()
    ensures { (ticks : ℕ) (document : Document) →
        IsLawfulDocument document →
        document.world.tick + ticks ≤ tick_limit →
        IsLawfulDocument (document_after_ticks ticks document) }
{}

/// So many ticks and then so many more are as many as both together: of a document, and of `run`, where
/// the second run reads what the first one printed. The number of workers plays no part. No memory.
pub fn runs_in_parts()
    ensures documents { (first second : ℕ) (document : Document) →
        document_after_ticks (first + second) document
        ≡ document_after_ticks second (document_after_ticks first document) }
    ensures outputs { (first second x y z : ℕ) (input between bytes : List ℕ) →
        IsOutput (Run first x) input between →
        (IsOutput (Run second y) between bytes ↔ IsOutput (Run (first + second) z) input bytes) }
    ensures workers { (ticks x y : ℕ) (input bytes : List ℕ) →
        IsOutput (Run ticks x) input bytes → IsOutput (Run ticks y) input bytes }
{}
