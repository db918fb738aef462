// Reading all bytes of a source, and writing all bytes to a sink.
ghost use Rattle.std.specs.Prelude.{◌≡◌, ◌≤◌, ◌<◌, ◌+◌, ◌-◌, ℕ, List, Option, length, vec_len, IfOk, OnOk, OnErr, IsErrOf, IsFalse, IsTrue};
ghost use Rattle.std.specs.Io.KnownBytes.{Appends, Consumes, IsAtEnd, Keeps};
ghost use Rattle.jc_io.specs.Faults.{HasCause, Rose, raised_count};
ghost use Rattle.jc_io.specs.Moved.{AppendsFront, Moves, TakesAtMost, TakesCount};
ghost use Rattle.jc_io.specs.declared.all.ReadEnd.TheVariants.{ReadFault, Want as OutOfMemory};

use super::{Bytes, Failed, Sink, Source, Want};
use std::alloc::{AllocError, Global};

// How many bytes a call of the source is asked for at most: 64 KiB, as much as a pipe holds.
const PIECE_LEN: usize = 65536;

/// Why `read_all` ended before the end of input.
#[derive(Clone, Copy, Debug, PartialEq, Eq)]
pub enum ReadEnd {
    /// A call of the source failed.
    ReadFault,
    /// The source has more bytes than the limit.
    TooLong,
    /// Memory ran out.
    Want,
}

impl From<Failed> for ReadEnd {
    ghost from_gives = { λ _ e. e ≡ ReadFault };

    fn from(_failed: Failed) -> ReadEnd {
        ReadEnd::ReadFault
    }
}

impl From<AllocError> for ReadEnd {
    ghost from_gives = { λ _ e. e ≡ OutOfMemory };

    fn from(_want: AllocError) -> ReadEnd {
        ReadEnd::Want
    }
}

/// A call of the sink failed in `write_all`.
#[derive(Clone, Copy, Debug, PartialEq, Eq)]
pub struct WriteFault;

impl From<Failed> for WriteFault {
    fn from(_failed: Failed) -> WriteFault {
        WriteFault
    }
}

// A buffer of `len` bytes.
fn blank(alloc: Global, len: usize) -> Result<Bytes, Want>
    ensures { IfOk result (λ bytes. vec_len bytes ≡ len) }
{
    vec![in alloc; 0u8; len]
}

// Reads once and keeps what came. It answers whether the source was at its end.
fn take_piece<S: Source>(
    source: &mut S,
    bytes: &mut Bytes,
    piece: &mut [u8],
    limit: u64,
) -> Result<bool, ReadEnd>
    requires within { vec_len bytes.old ≤ limit }
    requires buffer { 0 < length piece.old }
    ensures moves { OnOk result
        (Moves (S.left source.old) (S.left source.new) bytes.old.items bytes.new.items) }
    ensures end { IfOk result (λ ended. IsTrue ended → IsAtEnd (S.left source.new)) }
    ensures grows { IfOk result (λ ended. IsFalse ended → vec_len bytes.old < vec_len bytes.new) }
    ensures within { OnOk result (vec_len bytes.new ≤ limit) }
    ensures fault { IsErrOf result ReadEnd.ReadFault
        → Rose (S.faults source.old) (S.faults source.new) }
    ensures too_long { IsErrOf result ReadEnd.TooLong
        → TakesCount (S.left source.old) (S.left source.new) (limit + 1 - vec_len bytes.old) }
    ensures not_too_long { IsErrOf result ReadEnd.ReadFault
        → Keeps (S.left source.old) (S.left source.new) }
    ensures want { IsErrOf result ReadEnd.Want
        → TakesAtMost (S.left source.old) (S.left source.new) (limit - vec_len bytes.old) }
    ensures later { S.faults source.old ≤ S.faults source.new }
    ensures turn { S.calls source.new ≡ raised_count (S.calls source.old) }
{
    let left = limit - bytes.len() as u64;
    let room = left.saturating_add(1).min(piece.len() as u64) as usize;
    let count = source.read_some(&mut piece[..room])?;
    if count as u64 > left {
        return Err(ReadEnd::TooLong);
    }
    bytes.extend_from_slice(&piece[..count])?;
    Ok(count == 0)
}

/// Reads all bytes of `source` to the end of input, of which there may be at most `limit`. It calls the
/// source at most `limit` + 1 times: each call but the last gives a byte at least.
///
/// # Errors
///
/// - `ReadFault`: only where the source's count of faults rose in this call.
/// - `TooLong`: exactly where `limit` + 1 bytes were taken.
/// - `Want`: memory ran out.
///
/// Bytes that were taken before an error are gone from the source.
pub fn read_all<S: Source>(alloc: Global, source: &mut S, limit: u64) -> Result<Bytes, ReadEnd>
    // The bytes are all that the source had left.
    ensures all { IfOk result
        (λ bytes. Consumes (S.left source.old) (S.left source.new) bytes.items) }
    ensures end { OnOk result (IsAtEnd (S.left source.new)) }
    ensures within { IfOk result (λ bytes. vec_len bytes ≤ limit) }
    ensures fault { IsErrOf result ReadEnd.ReadFault
        → Rose (S.faults source.old) (S.faults source.new) }
    // `limit` + 1 bytes were taken at `TooLong`, and fewer at each other end.
    ensures too_long { IsErrOf result ReadEnd.TooLong
        → TakesCount (S.left source.old) (S.left source.new) (limit + 1) }
    ensures not_too_long { IsErrOf result ReadEnd.ReadFault
        → TakesAtMost (S.left source.old) (S.left source.new) limit }
    ensures want { IsErrOf result ReadEnd.Want
        → TakesAtMost (S.left source.old) (S.left source.new) limit }
    ensures later { S.faults source.old ≤ S.faults source.new }
    ensures turns { S.calls source.new ≤ S.calls source.old + limit + 1 }
{
    let mut piece = blank(alloc, PIECE_LEN)?;
    let mut bytes = Vec::new(alloc);
    'reading: loop {
        let ended = take_piece(source, &mut bytes, &mut piece, limit)?;
        if ended {
            return Ok(bytes);
        }
    }
}

/// Writes all `bytes` to `sink`, in order. It is not finished.
///
/// # Errors
///
/// `WriteFault` comes only where the sink's count of faults rose in this call. What was appended
/// is then a front of `bytes`.
pub fn write_part<K: Sink>(sink: &mut K, bytes: &[u8]) -> Result<(), WriteFault>
    ensures all { OnOk result (Appends (K.held sink.old) (K.held sink.new) bytes.now) }
    ensures fault { HasCause (K.faults sink.old) (K.faults sink.new) result }
    ensures front { OnErr result (AppendsFront (K.held sink.old) (K.held sink.new) bytes.now) }
    ensures later { K.faults sink.old ≤ K.faults sink.new }
    ensures not_finished { K.finished sink.new ≡ K.finished sink.old }
{
    let mut at = 0;
    'writing: while at < bytes.len() {
        at += sink.write_some(&bytes[at..])?;
    }
    Ok(())
}

/// Writes all `bytes` to `sink`, in order, and finishes it.
///
/// # Errors
///
/// `WriteFault` comes only where the sink's count of faults rose in this call. What was appended
/// is then a front of `bytes`, and the sink was not finished.
pub fn write_all<K: Sink>(sink: &mut K, bytes: &[u8]) -> Result<(), WriteFault>
    ensures all { OnOk result (Appends (K.held sink.old) (K.held sink.new) bytes.now) }
    ensures fault { HasCause (K.faults sink.old) (K.faults sink.new) result }
    ensures front { OnErr result (AppendsFront (K.held sink.old) (K.held sink.new) bytes.now) }
    ensures later { K.faults sink.old ≤ K.faults sink.new }
    // With Ok the sink was finished, once, behind the last byte.
    ensures finished { OnOk result
        (K.finished sink.new ≡ raised_count (K.finished sink.old)) }
    ensures not_finished { OnErr result (K.finished sink.new ≡ K.finished sink.old) }
{
    write_part(sink, bytes)?;
    sink.finish()?;
    Ok(())
}
