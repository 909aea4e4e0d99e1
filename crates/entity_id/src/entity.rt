ghost use Rattle.std.specs.Prelude.{◌≡◌, ◌==◌};

/// How large the two parts of an identifier are. Every profile of the library is [`P20_12`] or
/// [`P32_32`].
#[derive(Clone, Copy, Debug, PartialEq, Eq)]
pub struct Profile {
    /// The greatest index, which the null identifier has.
    pub index_limit: u32,
    /// The greatest version, which no entity gets: EnTT calls an identifier that has it a tombstone.
    pub version_limit: u32,
}

/// 20 bits of index and 12 of version, as EnTT's identifiers of 32 bits.
pub const P20_12: Profile = Profile {
    index_limit: 1_048_575,
    version_limit: 4_095,
};

/// 32 bits of each, as EnTT's identifiers of 64 bits.
pub const P32_32: Profile = Profile {
    index_limit: 4_294_967_295,
    version_limit: 4_294_967_295,
};

/// An identifier. It is of a profile where neither part is above the profile's limit.
#[derive(Clone, Copy, Debug, PartialEq, Eq)]
pub struct Entity {
    /// Which slot of a registry it names.
    pub index: u32,
    /// Which of the slot's owners, one after another, it names.
    pub version: u32,
}

impl Entity {
    ghost use Rattle.entity_id.specs.Fields.{field_of, entity_in};

    /// Whether it stands for no entity: its index is the index limit, whatever its version. No
    /// memory. (EnTT: `entity == entt::null`.)
    pub fn is_null(self, profile: Profile) -> bool
        ensures { result ≡ (self.index == profile.index_limit) }
    {
        self.index == profile.index_limit
    }

    /// As a field of a row holds it: -1 for the identifier of both limits, and else the index in the
    /// low 32 bits and the version in the high ones. No memory. (This project's own.)
    pub fn to_field(self, profile: Profile) -> i64
        ensures { result ≡ field_of profile self }
    {
        if self.index == profile.index_limit && self.version == profile.version_limit {
            return -1;
        }
        (u64::from(self.index) + u64::from(self.version) * (1 << 32)).cast_signed()
    }

    /// The identifier that a field holds: the one of both limits for -1, and else the field's low 32
    /// bits as the index and its high ones as the version. No memory. (This project's own.)
    pub fn from_field(profile: Profile, field: i64) -> Entity
        ensures { result ≡ entity_in profile field }
    {
        if field == -1 {
            return Entity {
                index: profile.index_limit,
                version: profile.version_limit,
            };
        }
        let bits = field.cast_unsigned();
        Entity {
            index: (bits % (1 << 32)) as u32,
            version: (bits / (1 << 32)) as u32,
        }
    }
}
