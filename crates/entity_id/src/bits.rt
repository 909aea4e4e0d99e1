//! Identifiers as one number, and the version that comes after one.

ghost use Rattle.std.specs.Prelude.{◌≡◌, ◌<◌};
ghost use Rattle.std.specs.Option.{SomeIff};
ghost use Rattle.entity_id.specs.Identifiers.{IsOfProfile};
ghost use Rattle.entity_id.specs.Identifiers as identifiers;
ghost use Rattle.entity_id.specs.Bits.{bit_span, bits_of, entity_of_bits};

use super::{Entity, Profile};

impl Entity {
    /// The identifier of the profile with these bits: the index in as many low bits as the index
    /// limit has, and the version in those above. None exactly where a bit past the profile's width
    /// is set: 32 bits of [`P20_12`], 64 of [`P32_32`]. No memory. (EnTT: `entt::entity{bits}`.)
    ///
    /// [`P20_12`]: super::P20_12
    /// [`P32_32`]: super::P32_32
    pub fn from_bits(profile: Profile, bits: u64) -> Option<Entity>
        ensures { SomeIff result (bits < bit_span profile) (entity_of_bits profile bits) }
    {
        let span = u64::from(profile.index_limit) + 1;
        let version = bits / span;
        if version > u64::from(profile.version_limit) {
            return None;
        }
        Some(Entity {
            index: (bits % span) as u32,
            version: version as u32,
        })
    }

    /// Its bits, as [`Entity::from_bits`] reads them, for an identifier of the profile. No memory.
    /// (EnTT: `entt::to_integral(entity)`.)
    pub fn to_bits(self, profile: Profile) -> u64
        requires { IsOfProfile profile self }
        ensures { result ≡ bits_of profile self }
    {
        let span = u64::from(profile.index_limit) + 1;
        u64::from(self.index) + u64::from(self.version) * span
    }
}

/// The version that an index has once an owner with this version, which is below the limit, is
/// destroyed: the next number, or 0 where that is the limit, which no owner has. No memory. (EnTT:
/// the version that `registry.release(entity)` gives, which skips a tombstone's too.)
pub fn next_version(profile: Profile, version: u32) -> u32
    requires { version < profile.version_limit }
    ensures { result ≡ identifiers.next_version profile version }
{
    let next = version + 1;
    if next == profile.version_limit {
        0
    } else {
        next
    }
}
