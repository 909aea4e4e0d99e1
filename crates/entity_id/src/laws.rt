//! What holds of identifiers and finite maps, whoever computes them.

ghost use Rattle.std.specs.Prelude.{◌≡◌, ℕ, ◌<◌, List, [], ◌∷◌, slice_index_or};
ghost use Rattle.std.specs.List.{list_any};
ghost use Rattle.entity_id.specs.declared.entity.Profile.{Profile};
ghost use Rattle.entity_id.specs.declared.entity.Entity.{Entity};
ghost use Rattle.entity_id.specs.Identifiers.{HasLimits, IsOfProfile, is_same};
ghost use Rattle.entity_id.specs.Fields.{field_of, entity_in};
ghost use Rattle.entity_id.specs.Bits.{bit_span, bits_of, entity_of_bits};
ghost use Rattle.entity_id.specs.FiniteMap as entries;
ghost use Rattle.entity_id.specs.FiniteMap.{AreAscending, AreDistinctBy};
ghost use Rattle.entity_id.specs.Matching.{matches, is_match};

/// The field of an identifier of the profile holds that identifier. No memory.
pub fn fields_and_identifiers()
    ensures { (profile : Profile) (entity : Entity) →
        HasLimits profile → IsOfProfile profile entity →
        entity_in profile (field_of profile entity) ≡ entity }
{}

/// The bits of an identifier of a profile are below the number of its identifiers, and are that
/// identifier's; and each such number is the bits of one identifier, which is of the profile. No
/// memory.
pub fn bits_and_identifiers()
    ensures within { (profile : Profile) (entity : Entity) → IsOfProfile profile entity →
        bits_of profile entity < bit_span profile }
    ensures read_back { (profile : Profile) (entity : Entity) → IsOfProfile profile entity →
        entity_of_bits profile (bits_of profile entity) ≡ entity }
    ensures of_profile { (profile : Profile) (bits : ℕ) → bits < bit_span profile →
        IsOfProfile profile (entity_of_bits profile bits) }
    ensures written_back { (profile : Profile) (bits : ℕ) →
        bits_of profile (entity_of_bits profile bits) ≡ bits }
{}

/// Two finite maps, as lists of entries in ascending index, that give the same value for every
/// identifier are the same list. The argument says only of which type the values are. No memory.
pub fn equal_lookups<T>(_values: &[T])
    ensures { (v w : List (Entity × T)) →
        entries.IsAscending v → entries.IsAscending w →
        ((entity : Entity) → entries.get v entity ≡ entries.get w entity) → v ≡ w }
{}

/// An identifier stands in the list of the matches of some maps exactly where it matches: it is in
/// each of the maps that are asked for, and in none of those that are excluded. No memory. (EnTT: the
/// entities that `registry.view<..>(entt::exclude<..>)` visits.)
pub fn matches_are_exact()
    ensures { (maps : List (List Entity)) (first : ℕ) (rest none : List ℕ) (entity : Entity) →
        list_any (is_same entity) (matches maps (first ∷ rest) none)
        ≡ is_match maps (first ∷ rest) none entity }
{}

/// Where the first map ascends in index, so do the matches, and no index comes twice. No memory. (This
/// project's own: EnTT visits a view in the order of one of its pools.)
pub fn matches_ascend()
    ensures ascending { (maps : List (List Entity)) (first : ℕ) (rest none : List ℕ) →
        AreAscending (slice_index_or maps first []) →
        AreAscending (matches maps (first ∷ rest) none) }
    ensures each_once { (maps : List (List Entity)) (first : ℕ) (rest none : List ℕ) →
        AreAscending (slice_index_or maps first []) →
        AreDistinctBy (λ (entity : Entity). entity.index) (matches maps (first ∷ rest) none) }
{}
