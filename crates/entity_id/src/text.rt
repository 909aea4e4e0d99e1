ghost use Rattle.std.specs.Prelude.{◌≡◌, ◌≢◌, ◌+◌, ◌≤◌, ◌++◌, ◌∷◌, List, ℕ, codes, length, drop, OnOk, OnErr, IfSome, IfNone, MatchOption};
ghost use Rattle.std.specs.Fmt.{decimal};
ghost use Rattle.entity_id.specs.declared.entity.Entity.{Entity};
ghost use Rattle.entity_id.specs.Identifiers.{IsOfProfile};
ghost use Rattle.entity_id.specs.Texts.{entity_text, EndsNumber, ArePartsFirst, IsEntityFirst};

use super::decimal::ends_number;
use super::{Entity, OutOfMemory, Profile, take_nat};
use itoa::write_digits;

// The longest text: an index and a version of ten digits each, and the colon.
const LONGEST: usize = 21;

impl Entity {
    /// Appends the identifier's text: `null` where both parts are the limits, and else the index, a
    /// colon and the version in decimal. After a refusal `out` is as before.
    pub fn push_text(self, profile: Profile, out: &mut Vec<u8>) -> Result<(), OutOfMemory>
        ensures ok { OnOk result (out.new.items ≡ out.old.items ++ entity_text profile self) }
        ensures err { OnErr result (out.new.items ≡ out.old.items) }
    {
        let mut text = [0u8; LONGEST];
        let start = self.write_text(profile, &mut text, LONGEST);
        out.extend_from_slice(&text[start..])?;
        Ok(())
    }

    /// Writes the text that [`Entity::push_text`] appends so that it ends at `end`, and says where it
    /// begins: at most 21 bytes before `end`. What stands behind `end` is as before. No memory.
    pub fn write_text(self, profile: Profile, buf: &mut [u8], end: usize) -> usize
        requires { (21 ≤ end) × (end ≤ length buf.old) }
        ensures within { (result ≤ end) × (end ≤ result + 21) }
        ensures written { drop result buf.new ≡ entity_text profile self ++ drop end buf.old }
    {
        if self.index == profile.index_limit && self.version == profile.version_limit {
            buf[end - 4..end].copy_from_slice(b"null");
            return end - 4;
        }
        write_parts(self, buf, end)
    }
}

/// The identifier of the profile that stands at the front of a text, as [`Entity::push_text`] writes
/// it, and what stands behind it, which begins with no digit. None exactly where the text begins with
/// none: the index and the version are at most the limits, where both are the limits the text is
/// `null`, and no further digit follows. No memory.
pub fn take_entity(profile: Profile, text: &[u8]) -> Option<(Entity, &[u8])>
    ensures some { IfSome result (λ x. IsEntityFirst profile text.now x.0 x.1.now) }
    ensures none { IfNone result
        ((entity : Entity) (rest : List ℕ) → IsEntityFirst profile text.now entity rest → ⊥) }
{
    if let Some(rest) = take_null(text) {
        let null = Entity {
            index: profile.index_limit,
            version: profile.version_limit,
        };
        return Some((null, rest));
    }
    let (entity, rest) = take_parts(profile, text)?;
    if entity.index == profile.index_limit && entity.version == profile.version_limit {
        return None;
    }
    Some((entity, rest))
}

/// The identifier of the profile that a text spells, as [`Entity::push_text`] writes it. None exactly
/// where the text spells none: the index and the version are at most the limits, and where both are
/// the limits the text is `null`. No memory.
pub fn parse_entity(profile: Profile, text: &[u8]) -> Option<Entity>
    ensures some { IfSome result (λ entity.
        IsOfProfile profile entity × (text.now ≡ entity_text profile entity)) }
    ensures none { IfNone result ((entity : Entity) →
        IsOfProfile profile entity → text.now ≢ entity_text profile entity) }
{
    let (entity, rest) = take_entity(profile, text)?;
    if rest.is_empty() { Some(entity) } else { None }
}

// Writes index, colon and version so that they end at `end`, and says where they begin.
fn write_parts(entity: Entity, buf: &mut [u8], end: usize) -> usize
    requires { (21 ≤ end) × (end ≤ length buf.old) }
    ensures within { (result ≤ end) × (end ≤ result + 21) }
    ensures written { drop result buf.new ≡
        (decimal entity.index ++ 58 ∷ decimal entity.version) ++ drop end buf.old }
{
    let colon = write_digits(u64::from(entity.version), buf, end) - 1;
    buf[colon] = b':';
    write_digits(u64::from(entity.index), buf, colon)
}

// What stands behind the word `null` at the front, where that is no digit.
fn take_null(text: &[u8]) -> Option<&[u8]>
    ensures some { IfSome result (λ rest. (text.now ≡ codes "null" ++ rest.now) × EndsNumber rest.now) }
    ensures none { IfNone result ((rest : List ℕ) → EndsNumber rest → text.now ≢ codes "null" ++ rest) }
{
    match text {
        [b'n', b'u', b'l', b'l', rest @ ..] if ends_number(rest) => Some(rest),
        _ => None,
    }
}

// The identifier whose two parts stand at the front, and what stands behind them.
fn take_parts(profile: Profile, text: &[u8]) -> Option<(Entity, &[u8])>
    ensures some { IfSome result (λ x. ArePartsFirst profile text.now x.0 x.1.now) }
    ensures none { IfNone result
        ((entity : Entity) (rest : List ℕ) → ArePartsFirst profile text.now entity rest → ⊥) }
{
    let (index, behind) = take_nat(text, u64::from(profile.index_limit))?;
    let version = without_colon(behind)?;
    let (version, rest) = take_nat(version, u64::from(profile.version_limit))?;
    let entity = Entity {
        index: index as u32,
        version: version as u32,
    };
    Some((entity, rest))
}

// What stands behind a colon.
fn without_colon(text: &[u8]) -> Option<&[u8]>
    ensures { MatchOption result ((rest : List ℕ) → text.now ≢ 58 ∷ rest) (λ rest. text.now ≡ 58 ∷ rest.now) }
{
    match text {
        [b':', rest @ ..] => Some(rest),
        _ => None,
    }
}
