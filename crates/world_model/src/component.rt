ghost use Rattle.std.specs.Prelude.{◌≡◌, ◌≤◌, length, pos};
ghost use Rattle.std.specs.List.{list_all, zip};
ghost use Rattle.std.specs.Ordering.{int_eq};
ghost use Rattle.world_model.specs.Components.{fits_kind, is_below};

use entity_id::{Entity, Name, Profile};

/// What a field of a row holds.
#[derive(Clone, Copy, Debug, PartialEq, Eq)]
pub enum Kind {
    /// A whole number of 64 bits.
    Int,
    /// An identifier, as [`Entity::to_field`] gives it.
    Ref,
}

/// A component: its name, and the kinds of its fields. There are at most 4 fields, and the kinds past
/// `count` are `Int`. (EnTT: a component type.)
#[derive(Debug, Drop)]
pub struct Decl {
    /// The component's name.
    pub name: Name,
    /// How many fields a row has.
    pub count: u32,
    /// The kind of each field.
    pub kinds: [Kind; 4],
}

/// The fields of one component of one entity. Those past the component's count are 0.
#[derive(Clone, Copy, Debug, PartialEq, Eq)]
pub struct Row {
    /// The fields, in order.
    pub f: [i64; 4],
}

impl Decl {
    ghost use Rattle.world_model.specs.Components.{kinds_of, fits};

    /// The kinds of its fields, in order, at most 4. No memory.
    pub fn field_kinds(&self) -> &[Kind]
        ensures value { result.now ≡ kinds_of self.now }
        ensures few { length result.now ≤ 4 }
    {
        &self.kinds[..(self.count as usize).min(4)]
    }

    /// Whether a row may stand in this component: each declared field holds a value of its kind, and
    /// every field past `count` is 0. A `Ref` field holds -1, or an identifier whose index and version
    /// are both below the profile's limits. No memory.
    pub fn fits(&self, profile: Profile, row: &Row) -> bool
        ensures { result ≡ fits profile self.now row.now }
    {
        let count = (self.count as usize).min(4);
        hold_kinds(profile, self.field_kinds(), &row.f[..count]) && are_zero(&row.f[count..])
    }
}

fn hold_kinds(profile: Profile, kinds: &[Kind], fields: &[i64]) -> bool
    ensures { result ≡ list_all (λ pair. fits_kind profile pair.0 pair.1) (zip kinds.now fields.now) }
{
    kinds
        .iter()
        .zip(fields)
        .all(|(kind, field)| fits_field(profile, *kind, *field))
}

fn fits_field(profile: Profile, kind: Kind, field: i64) -> bool
    ensures { result ≡ fits_kind profile kind field }
{
    match kind {
        Kind::Int => true,
        Kind::Ref => field == -1 || is_below_limits(profile, Entity::from_field(profile, field)),
    }
}

fn are_zero(fields: &[i64]) -> bool
    ensures { result ≡ list_all (λ field. int_eq field (pos 0)) fields.now }
{
    fields.iter().all(|field| *field == 0)
}

fn is_below_limits(profile: Profile, entity: Entity) -> bool
    ensures { result ≡ is_below profile entity }
{
    entity.index < profile.index_limit && entity.version < profile.version_limit
}
