//! Whole texts in and out.

ghost use Rattle.std.specs.Prelude.{◌≡◌, ◌+◌, ◌<◌, ◌≤◌, length, vec_len, IfOk, OnOk, IfSome, IsErrOf, Ok};
ghost use Rattle.std.specs.Io.KnownBytes.{IsAtEnd};
ghost use Rattle.ecs_io.specs.Streams.{Rose, HasCause, LosesAtMost, AppendsTaken, Grows, GrowsByFront};

use super::{ReadRefused, Sink, Source, WriteFailed};
use std::alloc::{AllocError, Global};

// The most bytes that `read_all` asks for in a read.
const PIECE: usize = 65536;

/// All that the source has left, where that is at most `limit` bytes. At most `limit + 1` bytes are
/// taken, whatever comes. `ReadFailed` where a read failed, which the count of faults shows;
/// `TooLong` where the source gave more than `limit` bytes; `OutOfMemory` where there was no memory
/// for them.
pub fn read_all<S: Source>(
    alloc: Global,
    source: &mut S,
    limit: usize,
) -> Result<Vec<u8>, ReadRefused>
    ensures all { IfOk result (λ v. IfSome (S.left source.old) (λ left. v.items ≡ left)) }
    ensures end { OnOk result (IsAtEnd (S.left source.new)) }
    ensures within { IfOk result (λ v. vec_len v ≤ limit) }
    ensures too_long { IsErrOf result ReadRefused.TooLong →
        IfSome (S.left source.old) (λ left. limit < length left) }
    ensures failed { IsErrOf result ReadRefused.ReadFailed →
        Rose (S.faults source.old) (S.faults source.new) }
    ensures later { S.faults source.old ≤ S.faults source.new }
    ensures taken { LosesAtMost (S.left source.old) (S.left source.new) (limit + 1) }
{
    read_in_pieces(alloc, source, limit, PIECE)
}

// `read_all`, by reads of at most `piece` bytes.
fn read_in_pieces<S: Source>(
    alloc: Global,
    source: &mut S,
    limit: usize,
    piece: usize,
) -> Result<Vec<u8>, ReadRefused>
    requires { 0 < piece }
    ensures all { IfOk result (λ v. IfSome (S.left source.old) (λ left. v.items ≡ left)) }
    ensures end { OnOk result (IsAtEnd (S.left source.new)) }
    ensures within { IfOk result (λ v. vec_len v ≤ limit) }
    ensures too_long { IsErrOf result ReadRefused.TooLong →
        IfSome (S.left source.old) (λ left. limit < length left) }
    ensures failed { IsErrOf result ReadRefused.ReadFailed →
        Rose (S.faults source.old) (S.faults source.new) }
    ensures later { S.faults source.old ≤ S.faults source.new }
    ensures taken { LosesAtMost (S.left source.old) (S.left source.new) (limit + 1) }
{
    let mut out = Vec::new(alloc);
    let mut buf = zeros(alloc, piece)?;
    while out.len() <= limit {
        let room = (limit - out.len()).min(piece - 1) + 1;
        let count = append_piece(source, &mut buf[..room], &mut out)?;
        if count == 0 {
            return Ok(out);
        }
    }
    Err(ReadRefused::TooLong)
}

// One read, whose bytes go to the end of `out`.
fn append_piece<S: Source>(
    source: &mut S,
    buf: &mut [u8],
    out: &mut Vec<u8>,
) -> Result<usize, ReadRefused>
    requires { 0 < length buf.old }
    ensures len { IfOk result (λ n.
        (n ≤ length buf.old) × (vec_len out.new ≡ vec_len out.old + n)) }
    ensures bytes { OnOk result (AppendsTaken (S.left source.old) (S.left source.new)
        out.old.items out.new.items) }
    ensures end { result ≡ Ok 0 → IsAtEnd (S.left source.new) }
    ensures failed { IsErrOf result ReadRefused.ReadFailed →
        Rose (S.faults source.old) (S.faults source.new) }
    ensures not_long { IsErrOf result ReadRefused.TooLong → ⊥ }
    ensures later { S.faults source.old ≤ S.faults source.new }
    ensures taken { LosesAtMost (S.left source.old) (S.left source.new) (length buf.old) }
{
    let count = source.read(buf)?;
    out.extend_from_slice(&buf[..count])?;
    Ok(count)
}

// So many bytes of 0.
fn zeros(alloc: Global, len: usize) -> Result<Vec<u8>, AllocError>
    ensures { IfOk result (λ v. vec_len v ≡ len) }
{
    vec![in alloc; 0u8; len]
}

/// Appends the bytes, in order, and flushes. `WriteFailed` where a write or the flush failed, which
/// the count of faults shows: a front of the bytes was then appended. No memory.
pub fn write_all<K: Sink>(sink: &mut K, bytes: &[u8]) -> Result<(), WriteFailed>
    ensures all { OnOk result (Grows (K.holds sink.old) (K.holds sink.new) bytes.now) }
    ensures front { GrowsByFront (K.holds sink.old) (K.holds sink.new) bytes.now }
    ensures cause { HasCause (K.faults sink.old) (K.faults sink.new) result }
{
    let mut at = 0;
    while at < bytes.len() {
        at += sink.write(&bytes[at..])?;
    }
    sink.flush()
}
