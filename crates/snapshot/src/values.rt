//! Values of rows at a place of a snapshot.

ghost use Rattle.std.specs.Prelude.{◌≡◌, ◌+◌, ◌≤◌, length, IfSome, IfNone};
ghost use Rattle.snapshot.specs.Reading.{IsValueAt, IsNoValueAt, AreValuesAt, AreNoValuesAt};

use super::counts::ALL_SET;
use super::numbers::{u32_at, u64_at};
use entity_id::{Entity, P20_12};
use world_model::{Kind, Row};

// The row of values of these kinds from a place on, and the place behind them.
pub fn row_at(kinds: &[Kind], bytes: &[u8], at: usize) -> Option<(Row, usize)>
    requires few { length kinds.now ≤ 4 }
    requires place { at ≤ length bytes.now }
    ensures some { IfSome result (λ x. AreValuesAt kinds.now bytes.now at x.0 x.1) }
    ensures within { IfSome result (λ x. x.1 ≤ length bytes.now) }
    ensures none { IfNone result (AreNoValuesAt kinds.now bytes.now at) }
{
    let mut row = Row { f: [0; 4] };
    let mut to = at;
    for (place, kind) in kinds.iter().enumerate() {
        row.f[place] = value_at(*kind, bytes, to)?;
        to += 8;
    }
    Some((row, to))
}

// The field that holds the value of this kind at a place.
pub fn value_at(kind: Kind, bytes: &[u8], at: usize) -> Option<i64>
    ensures some { IfSome result (λ held. IsValueAt kind bytes.now at held) }
    ensures within { IfSome result (λ held. at + 8 ≤ length bytes.now) }
    ensures none { IfNone result (IsNoValueAt kind bytes.now at) }
{
    match kind {
        Kind::Int => integer_at(bytes, at),
        Kind::Ref => target_at(bytes, at),
    }
}

fn integer_at(bytes: &[u8], at: usize) -> Option<i64>
    ensures some { IfSome result (λ held. IsValueAt Kind.Int bytes.now at held) }
    ensures within { IfSome result (λ held. at + 8 ≤ length bytes.now) }
    ensures none { IfNone result (IsNoValueAt Kind.Int bytes.now at) }
{
    let number = u64_at(bytes, at)?;
    Some(number.cast_signed())
}

// The field that holds the identifier at a place: null, where all bits are set in both parts, or one
// below the limits.
fn target_at(bytes: &[u8], at: usize) -> Option<i64>
    ensures some { IfSome result (λ held. IsValueAt Kind.Ref bytes.now at held) }
    ensures within { IfSome result (λ held. at + 8 ≤ length bytes.now) }
    ensures none { IfNone result (IsNoValueAt Kind.Ref bytes.now at) }
{
    let index = u32_at(bytes, at)?;
    let version = u32_at(bytes, at + 4)?;
    if index == ALL_SET && version == ALL_SET {
        return Some(-1);
    }
    if index >= P20_12.index_limit || version >= P20_12.version_limit {
        return None;
    }
    let entity = Entity { index, version };
    Some(entity.to_field(P20_12))
}
