//! What holds of every script, whoever reads or plays it.

ghost use Rattle.std.specs.Prelude.{◌≡◌, ◌<◌, ℕ, List, length};
ghost use Rattle.std.specs.List.{AllByRecursion};
ghost use Rattle.world_model.specs.declared.command.Command.{Command};
ghost use Rattle.world_model.specs.declared.component.Decl.{Decl};
ghost use Rattle.world_model.specs.Components.{IsDecl};
ghost use Rattle.world_text.specs.declared.document.Document.{Document};
ghost use Rattle.world_text.specs.declared.script.ScriptLine.{ScriptLine};
ghost use Rattle.row_lang.specs.Naming.{AreNamedDecls};
ghost use Rattle.world_text.specs.Documents.{IsLawfulDocument};
ghost use Rattle.world_text.specs.Formats.{version_1};
ghost use Rattle.world_text.specs.Playing.{document_after};
ghost use Rattle.row_lang.specs.NameLists.{IsCalled};
ghost use Rattle.world_text.specs.Scripts.{IsCommandText, IsScriptLine, IsScript, IsBadScriptLine, IsScripted, IsBadScriptedLine};

/// Each component of a document is the one that its name tells. No memory.
pub fn names_tell_components()
    ensures { (decls : List Decl) (pool : ℕ) →
        AreNamedDecls decls → pool < length decls → IsCalled decls pool }
{}

/// The world that a script leaves of a lawful document makes one again. No memory.
pub fn scripts_keep_documents_lawful()
    ensures { (document : Document) (script : List ScriptLine) →
        IsLawfulDocument document →
        AllByRecursion (IsScriptLine version_1.profile document.world.decls) script →
        IsLawfulDocument (document_after document script) }
{}

/// A line spells one command at most, whatever the components are called. No memory.
pub fn one_command()
    ensures { (decls : List Decl) (line : List ℕ) (a b : Command) →
        AllByRecursion IsDecl decls →
        IsCommandText version_1.profile decls line a →
        IsCommandText version_1.profile decls line b → a ≡ b }
{}

/// A text stands for one document with one script at most. No such text has a bad line, and no text has
/// two first bad lines. No memory.
pub fn one_script()
    ensures one { (bytes : List ℕ) (a b : Document) (first second : List ScriptLine) →
        IsScripted bytes a first → IsScripted bytes b second → (a ≡ b) × (first ≡ second) }
    ensures none { (bytes : List ℕ) (document : Document) (script : List ScriptLine) (number : ℕ) →
        IsScripted bytes document script → IsBadScriptedLine bytes number → ⊥ }
    ensures one_bad { (bytes : List ℕ) (a b : ℕ) →
        IsBadScriptedLine bytes a → IsBadScriptedLine bytes b → a ≡ b }
{}

/// A text is a script, or has a first bad line; and so is one a document with a script behind it, or has a
/// first bad line: no text is neither. No memory.
pub fn script_or_bad_line()
    ensures alone { (decls : List Decl) (bytes : List ℕ) →
        ((script : List ScriptLine) → IsScript version_1.profile decls bytes script → ⊥) →
        ((number : ℕ) → IsBadScriptLine version_1.profile decls bytes number → ⊥) → ⊥ }
    ensures behind { (bytes : List ℕ) →
        ((document : Document) (script : List ScriptLine) →
        IsScripted bytes document script → ⊥) →
        ((number : ℕ) → IsBadScriptedLine bytes number → ⊥) → ⊥ }
{}
