//! The tick number, the slots and the free list of a snapshot.

ghost use Rattle.std.specs.Prelude.{◌+◌, ℕ, suc, IfOk, IfErr, IfSome, IfNone, OnOk, if◌then◌else◌};
ghost use Rattle.snapshot.specs.Fields.{Field};
ghost use Rattle.snapshot.specs.Due as due;
ghost use Rattle.snapshot.specs.Reading.{IsCause, Reaches, IsDraft, SlotsDue, IsFieldAt, IsNoFieldAt};

use super::numbers::{u8_at, u32_at, u64_at};
use super::refusal::{PackRefused, refused};
use super::room::{reserve_free, reserve_slots, room_at};
use super::sizes::{INDEX_SIZE, SLOT_SIZE};
use entity_id::P20_12;
use world_model::Slot;
use world_text::{Draft, TICK_LIMIT, VERSION_1, add_next, add_slot, add_tick};

// Reads the tick number, and gives the place behind it.
pub fn read_tick(draft: &mut Draft, bytes: &[u8], at: usize) -> Result<usize, PackRefused>
    requires { Reaches bytes.now at (due.Headers 0) (IsDraft draft.old) }
    ensures ok { IfOk result (λ to. Reaches bytes.now to due.SlotCount (IsDraft draft.new)) }
    ensures cause { IfErr result (IsCause bytes.now) }
{
    let Some(tick) = tick_at(bytes, at) else {
        return Err(PackRefused::BadAt { offset: at as u64 });
    };
    match add_tick(draft, tick) {
        Ok(()) => Ok(at + 8),
        Err(fault) => Err(refused(fault, at)),
    }
}

fn tick_at(bytes: &[u8], at: usize) -> Option<u64>
    ensures some { IfSome result (λ tick. IsFieldAt bytes.now at (Field.Tick tick) (at + 8)) }
    ensures none { IfNone result ((tick : ℕ) → IsNoFieldAt bytes.now at (Field.Tick tick)) }
{
    let tick = u64_at(bytes, at)?;
    if tick > TICK_LIMIT { None } else { Some(tick) }
}

// Reads the slot count and the slots, and gives the place behind them and how many slots are free.
pub fn read_slots(draft: &mut Draft, bytes: &[u8], at: usize) -> Result<(usize, u32), PackRefused>
    requires { Reaches bytes.now at due.SlotCount (IsDraft draft.old) }
    ensures ok { IfOk result (λ x. SlotsDue bytes.now x.0 draft.new 0 x.1) }
    ensures cause { IfErr result (IsCause bytes.now) }
{
    let Some(count) = slot_count_at(bytes, at) else {
        return Err(PackRefused::BadAt { offset: at as u64 });
    };
    let mut to = at + 4;
    reserve_slots(draft, room_at(bytes, to, count, SLOT_SIZE))?;
    let mut free = 0;
    for _ in 0..count {
        let live = read_slot(draft, bytes, to)?;
        to += 5;
        if !live {
            free += 1;
        }
    }
    Ok((to, free))
}

fn slot_count_at(bytes: &[u8], at: usize) -> Option<u32>
    ensures some { IfSome result (λ count.
        IsFieldAt bytes.now at (Field.SlotCount count) (at + 4)) }
    ensures none { IfNone result ((count : ℕ) → IsNoFieldAt bytes.now at (Field.SlotCount count)) }
{
    let count = u32_at(bytes, at)?;
    if count > VERSION_1.slot_limit {
        None
    } else {
        Some(count)
    }
}

// Reads the slot at a place, and says whether it is live.
fn read_slot(draft: &mut Draft, bytes: &[u8], at: usize) -> Result<bool, PackRefused>
    ensures ok { IfOk result (λ live. (left free : ℕ) →
        SlotsDue bytes.now at draft.old (suc left) free →
        SlotsDue bytes.now (at + 5) draft.new left (if live then free else suc free)) }
    ensures cause { IfErr result (λ e. (left free : ℕ) →
        SlotsDue bytes.now at draft.old (suc left) free → IsCause bytes.now e) }
{
    let Some(slot) = slot_at(bytes, at) else {
        return Err(PackRefused::BadAt { offset: at as u64 });
    };
    match add_slot(draft, slot) {
        Ok(()) => Ok(slot.live),
        Err(fault) => Err(refused(fault, at)),
    }
}

fn slot_at(bytes: &[u8], at: usize) -> Option<Slot>
    ensures some { IfSome result (λ slot. IsFieldAt bytes.now at (Field.Slot slot) (at + 5)) }
    ensures none { IfNone result ((slot : Slot) → IsNoFieldAt bytes.now at (Field.Slot slot)) }
{
    let state = u8_at(bytes, at)?;
    let version = u32_at(bytes, at + 1)?;
    if state > 1 || version >= P20_12.version_limit {
        return None;
    }
    let live = state == 1;
    Some(Slot { version, live })
}

// Reads the free list, of so many indices, and gives the place behind it.
pub fn read_free(
    draft: &mut Draft,
    bytes: &[u8],
    at: usize,
    free: u32,
) -> Result<usize, PackRefused>
    requires { SlotsDue bytes.now at draft.old 0 free }
    ensures ok { IfOk result (λ to. SlotsDue bytes.now to draft.new 0 0) }
    ensures cause { IfErr result (IsCause bytes.now) }
{
    reserve_free(draft, room_at(bytes, at, free, INDEX_SIZE))?;
    let mut to = at;
    for _ in 0..free {
        read_next(draft, bytes, to)?;
        to += 4;
    }
    Ok(to)
}

// Reads the index at a place, which goes on the free list.
fn read_next(draft: &mut Draft, bytes: &[u8], at: usize) -> Result<(), PackRefused>
    ensures ok { OnOk result ((free : ℕ) → SlotsDue bytes.now at draft.old 0 (suc free) →
        SlotsDue bytes.now (at + 4) draft.new 0 free) }
    ensures cause { IfErr result (λ e. (free : ℕ) →
        SlotsDue bytes.now at draft.old 0 (suc free) → IsCause bytes.now e) }
{
    let Some(index) = next_at(bytes, at) else {
        return Err(PackRefused::BadAt { offset: at as u64 });
    };
    match add_next(draft, index) {
        Ok(()) => Ok(()),
        Err(fault) => Err(refused(fault, at)),
    }
}

fn next_at(bytes: &[u8], at: usize) -> Option<u32>
    ensures some { IfSome result (λ index. IsFieldAt bytes.now at (Field.Next index) (at + 4)) }
    ensures none { IfNone result ((index : ℕ) → IsNoFieldAt bytes.now at (Field.Next index)) }
{
    let index = u32_at(bytes, at)?;
    if index >= VERSION_1.slot_limit {
        None
    } else {
        Some(index)
    }
}
