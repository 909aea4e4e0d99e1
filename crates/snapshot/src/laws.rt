//! What holds of every snapshot, whoever reads or packs it.

ghost use Rattle.std.specs.Prelude.{◌≡◌, ℕ, List};
ghost use Rattle.world_text.specs.declared.document.Document.{Document};
ghost use Rattle.world_text.specs.Documents.{IsLawfulDocument};
ghost use Rattle.snapshot.specs.Packing.{snapshot};
ghost use Rattle.snapshot.specs.Snapshots.{IsSnapshot, IsBadField};

/// Bytes stand for one document at most. No memory.
pub fn one_snapshot()
    ensures { (bytes : List ℕ) (a b : Document) → IsSnapshot bytes a → IsSnapshot bytes b → a ≡ b }
{}

/// No snapshot has a bad field, and no bytes have two first bad fields. No memory.
pub fn one_bad_field()
    ensures none { (bytes : List ℕ) (document : Document) (offset : ℕ) →
        IsSnapshot bytes document → IsBadField bytes offset → ⊥ }
    ensures one { (bytes : List ℕ) (a b : ℕ) → IsBadField bytes a → IsBadField bytes b → a ≡ b }
{}

/// Bytes are a snapshot, or have a first bad field: none are neither. No memory.
pub fn snapshot_or_bad_field()
    ensures { (bytes : List ℕ) →
        ((document : Document) → IsSnapshot bytes document → ⊥) →
        ((offset : ℕ) → IsBadField bytes offset → ⊥) → ⊥ }
{}

/// What a snapshot stands for is lawful. No memory.
pub fn snapshots_are_lawful()
    ensures { (bytes : List ℕ) (document : Document) →
        IsSnapshot bytes document → IsLawfulDocument document }
{}

/// The snapshot of a lawful document stands for the same. No memory.
pub fn packed_snapshot()
    ensures { (document : Document) →
        IsLawfulDocument document → IsSnapshot (snapshot document) document }
{}

/// A lawful document is what a reader of its snapshot gets: the snapshot stands for no other, and has no
/// bad field. No memory.
pub fn packed_snapshot_is_read_back()
    ensures same { (document other : Document) →
        IsLawfulDocument document → IsSnapshot (snapshot document) other → other ≡ document }
    ensures none { (document : Document) (offset : ℕ) →
        IsLawfulDocument document → IsBadField (snapshot document) offset → ⊥ }
{}
