//! What holds of every document, whoever reads or prints it.

ghost use Rattle.std.specs.Prelude.{◌≡◌, ℕ, List};
ghost use Rattle.world_text.specs.declared.document.Document.{Document};
ghost use Rattle.world_text.specs.Documents.{IsDocument, IsBadLine, IsFront, IsBadFront, IsLawfulDocument, text};

/// A text stands for one document at most. No memory.
pub fn one_document()
    ensures { (bytes : List ℕ) (a b : Document) → IsDocument bytes a → IsDocument bytes b → a ≡ b }
{}

/// No document has a bad line, and no text has two first bad lines. No memory.
pub fn one_bad_line()
    ensures none { (bytes : List ℕ) (document : Document) (number : ℕ) →
        IsDocument bytes document → IsBadLine bytes number → ⊥ }
    ensures one { (bytes : List ℕ) (a b : ℕ) → IsBadLine bytes a → IsBadLine bytes b → a ≡ b }
{}

/// A text is a document, or has a first bad line: no text is neither. No memory.
pub fn document_or_bad_line()
    ensures { (bytes : List ℕ) →
        ((document : Document) → IsDocument bytes document → ⊥) →
        ((number : ℕ) → IsBadLine bytes number → ⊥) → ⊥ }
{}

/// A text begins with one document at most, up to one rest. No text that begins with a document has a bad
/// line there, and none has two first bad lines there. No memory.
pub fn one_front()
    ensures document { (bytes : List ℕ) (a b : Document) (m n : ℕ) (x y : List ℕ) →
        IsFront bytes a m x → IsFront bytes b n y → a ≡ b }
    ensures count { (bytes : List ℕ) (a b : Document) (m n : ℕ) (x y : List ℕ) →
        IsFront bytes a m x → IsFront bytes b n y → m ≡ n }
    ensures rest { (bytes : List ℕ) (a b : Document) (m n : ℕ) (x y : List ℕ) →
        IsFront bytes a m x → IsFront bytes b n y → x ≡ y }
    ensures none { (bytes : List ℕ) (a : Document) (m number : ℕ) (x : List ℕ) →
        IsFront bytes a m x → IsBadFront bytes number → ⊥ }
    ensures one { (bytes : List ℕ) (a b : ℕ) → IsBadFront bytes a → IsBadFront bytes b → a ≡ b }
{}

/// A text begins with a document, or has a first bad line there: no text has neither. No memory.
pub fn front_or_bad_line()
    ensures { (bytes : List ℕ) →
        ((document : Document) (count : ℕ) (rest : List ℕ) →
        IsFront bytes document count rest → ⊥) →
        ((number : ℕ) → IsBadFront bytes number → ⊥) → ⊥ }
{}

/// The canonical text of a lawful document is a document that stands for the same. No memory.
pub fn printed_text()
    ensures { (document : Document) →
        IsLawfulDocument document → IsDocument (text document) document }
{}

/// A lawful document is what a reader of its canonical text gets: the text stands for no other, and has no
/// bad line. No memory.
pub fn printed_text_is_read_back()
    ensures same { (document other : Document) →
        IsLawfulDocument document → IsDocument (text document) other → other ≡ document }
    ensures none { (document : Document) (number : ℕ) →
        IsLawfulDocument document → IsBadLine (text document) number → ⊥ }
{}

/// What a document stands for is lawful. No memory.
pub fn documents_are_lawful()
    ensures { (bytes : List ℕ) (document : Document) →
        IsDocument bytes document → IsLawfulDocument document }
{}
