//! Numbers of a snapshot, the lowest byte first: read at a place, and appended.

ghost use Rattle.std.specs.Prelude.{◌≡◌, ◌+◌, ◌<◌, ◌≤◌, ◌^◌, ◌++◌, length, drop, OnOk, IfSome, IfNone};
ghost use Rattle.snapshot.specs.Fields.{u8_bytes, u16_bytes, u32_bytes, u64_bytes};
ghost use Rattle.snapshot.specs.Reading.{IsNumberAt};

use byteorder::{ByteOrder, LittleEndian};
use entity_id::OutOfMemory;

// The bytes from a place on, where so many are there.
fn bytes_at(bytes: &[u8], at: usize, size: usize) -> Option<&[u8]>
    requires { size < 2 ^ 8 }
    ensures some { IfSome result (λ rest.
        (rest.now ≡ drop at bytes.now) × (at + size ≤ length bytes.now)) }
    ensures none { IfNone result (length bytes.now < at + size) }
{
    if at > bytes.len() {
        return None;
    }
    let rest = &bytes[at..];
    if rest.len() < size {
        return None;
    }
    Some(rest)
}

/// The number of 8 bits at a place.
pub fn u8_at(bytes: &[u8], at: usize) -> Option<u8>
    ensures some { IfSome result (λ n. IsNumberAt 1 bytes.now at n (u8_bytes n)) }
    ensures none { IfNone result (length bytes.now < at + 1) }
{
    let rest = bytes_at(bytes, at, 1)?;
    Some(rest[0])
}

/// The number of 16 bits at a place.
pub fn u16_at(bytes: &[u8], at: usize) -> Option<u16>
    ensures some { IfSome result (λ n. IsNumberAt 2 bytes.now at n (u16_bytes n)) }
    ensures none { IfNone result (length bytes.now < at + 2) }
{
    let rest = bytes_at(bytes, at, 2)?;
    Some(LittleEndian::read_u16(rest))
}

/// The number of 32 bits at a place.
pub fn u32_at(bytes: &[u8], at: usize) -> Option<u32>
    ensures some { IfSome result (λ n. IsNumberAt 4 bytes.now at n (u32_bytes n)) }
    ensures none { IfNone result (length bytes.now < at + 4) }
{
    let rest = bytes_at(bytes, at, 4)?;
    Some(LittleEndian::read_u32(rest))
}

/// The number of 64 bits at a place.
pub fn u64_at(bytes: &[u8], at: usize) -> Option<u64>
    ensures some { IfSome result (λ n. IsNumberAt 8 bytes.now at n (u64_bytes n)) }
    ensures none { IfNone result (length bytes.now < at + 8) }
{
    let rest = bytes_at(bytes, at, 8)?;
    Some(LittleEndian::read_u64(rest))
}

/// Appends a number of 16 bits.
pub fn push_u16(out: &mut Vec<u8>, number: u16) -> Result<(), OutOfMemory>
    ensures { OnOk result (out.new.items ≡ out.old.items ++ u16_bytes number) }
{
    let mut bytes = [0u8; 2];
    LittleEndian::write_u16(&mut bytes, number);
    out.extend_from_slice(&bytes)?;
    Ok(())
}

/// Appends a number of 32 bits.
pub fn push_u32(out: &mut Vec<u8>, number: u32) -> Result<(), OutOfMemory>
    ensures { OnOk result (out.new.items ≡ out.old.items ++ u32_bytes number) }
{
    let mut bytes = [0u8; 4];
    LittleEndian::write_u32(&mut bytes, number);
    out.extend_from_slice(&bytes)?;
    Ok(())
}

/// Appends a number of 64 bits.
pub fn push_u64(out: &mut Vec<u8>, number: u64) -> Result<(), OutOfMemory>
    ensures { OnOk result (out.new.items ≡ out.old.items ++ u64_bytes number) }
{
    let mut bytes = [0u8; 8];
    LittleEndian::write_u64(&mut bytes, number);
    out.extend_from_slice(&bytes)?;
    Ok(())
}
