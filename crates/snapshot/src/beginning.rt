//! The beginning of a snapshot: its mark, its version and its header lines.

ghost use Rattle.std.specs.Prelude.{ℕ, [], suc, IfOk, IfErr, IfSome, IfNone};
ghost use Rattle.world_text.specs.Headers.{header_so_far};
ghost use Rattle.snapshot.specs.Reading.{IsCause, HeadersDue, IsLineAt, IsNoLineAt};

use super::counts::{HEADER_LIMIT, LINE_LIMIT, MARK, VERSION};
use super::numbers::{u16_at, u32_at};
use super::refusal::{PackRefused, refused};
use std::alloc::Global;
use world_text::HeaderDraft;

// How many header lines follow the first three fields.
pub fn read_start(bytes: &[u8]) -> Result<u32, PackRefused>
    ensures ok { IfOk result (λ count. HeadersDue bytes.now 16 (header_so_far []) count) }
    ensures cause { IfErr result (IsCause bytes.now) }
{
    if !bytes.starts_with(MARK) {
        return Err(PackRefused::BadAt { offset: 0 });
    }
    if u32_at(bytes, 8) != Some(VERSION) {
        return Err(PackRefused::BadAt { offset: 8 });
    }
    match u32_at(bytes, 12) {
        Some(count) if count <= HEADER_LIMIT => Ok(count),
        _ => Err(PackRefused::BadAt { offset: 12 }),
    }
}

// The header of so many lines, and the place behind them.
pub fn read_header(
    alloc: Global,
    bytes: &[u8],
    count: u32,
) -> Result<(HeaderDraft, usize), PackRefused>
    requires { HeadersDue bytes.now 16 (header_so_far []) count }
    ensures ok { IfOk result (λ x. HeadersDue bytes.now x.1 x.0 0) }
    ensures cause { IfErr result (IsCause bytes.now) }
{
    let mut header = HeaderDraft::new(alloc);
    let mut at = 16;
    for _ in 0..count {
        at = read_line(&mut header, bytes, at)?;
    }
    Ok((header, at))
}

// Reads the header line at a place, and gives the place behind it.
fn read_line(header: &mut HeaderDraft, bytes: &[u8], at: usize) -> Result<usize, PackRefused>
    ensures ok { IfOk result (λ to. (left : ℕ) →
        HeadersDue bytes.now at header.old (suc left) → HeadersDue bytes.now to header.new left) }
    ensures cause { IfErr result (λ e. (left : ℕ) →
        HeadersDue bytes.now at header.old (suc left) → IsCause bytes.now e) }
{
    let Some(line) = line_at(bytes, at) else {
        return Err(PackRefused::BadAt { offset: at as u64 });
    };
    match header.add(line) {
        Ok(()) => Ok(at + 2 + line.len()),
        Err(fault) => Err(refused(fault, at)),
    }
}

// The line of a header field at a place.
fn line_at(bytes: &[u8], at: usize) -> Option<&[u8]>
    ensures some { IfSome result (λ line. IsLineAt bytes.now at line.now) }
    ensures none { IfNone result (IsNoLineAt bytes.now at) }
{
    let size = u16_at(bytes, at)? as usize;
    let rest = &bytes[at + 2..];
    if size > LINE_LIMIT || rest.len() < size {
        return None;
    }
    Some(&rest[..size])
}
