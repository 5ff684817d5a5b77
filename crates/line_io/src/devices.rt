//! Reads and writes, and repeats a call that was interrupted.

ghost use Rattle.std.specs.Prelude.{◌≡◌, List, ℕ, ◌++◌, ◌<◌, ◌≤◌, length, take, IfOk, IfErr, OnErr, OnOk};
ghost use Rattle.std.specs.Io.KnownBytes.{Appends, Consumes, IsAtEnd, Keeps};

use std::io::{ErrorKind, Read, Write};

// How many times in a row an interrupted call is repeated.
const MAX_REPEATS: u32 = 16;

/// The error of [`read`]: a read failed, or was interrupted 17 times in a row.
#[derive(Clone, Copy, Debug, PartialEq, Eq)]
pub(crate) struct ReadFailed;

/// The error of [`write_all`]: a write or the flush failed, was interrupted 17 times in a row, or took nothing.
#[derive(Clone, Copy, Debug, PartialEq, Eq)]
pub struct WriteFailed;

/// Reads some bytes. Returns 0 only at the end of the input.
pub(crate) fn read<R: Read>(r: &mut R, buffer: &mut [u8]) -> Result<usize, ReadFailed>
    ensures bound { IfOk result (λ n. n ≤ length buffer.new) }
    ensures bytes { IfOk result (λ n. Consumes (R.remaining r.old) (R.remaining r.new) (take n buffer.new)) }
    ensures end { IfOk result (λ n. n ≡ 0 → 0 < length buffer.new → IsAtEnd (R.remaining r.new)) }
{
    'repeats: for _ in 0..=MAX_REPEATS {
        match r.read(buffer) {
            Ok(n) => return Ok(n),
            Err(error) if error.kind() == ErrorKind::Interrupted => {}
            Err(_) => return Err(ReadFailed),
        }
    }
    Err(ReadFailed)
}

/// Writes some bytes and flushes. After an error it has written a beginning of them.
pub fn write_all<W: Write>(w: &mut W, bytes: &[u8]) -> Result<(), WriteFailed>
    ensures written { OnOk result (Appends (W.contents w.old) (W.contents w.new) bytes.now) }
    ensures begun { IfErr result (λ _. (written rest : List ℕ) × (bytes.now ≡ written ++ rest)
        × Appends (W.contents w.old) (W.contents w.new) written) }
{
    let mut rest = bytes;
    'rest: while !rest.is_empty() {
        let n = write(w, rest)?;
        rest = &rest[n..];
    }
    flush(w)
}

// Writes a beginning of some bytes, at least one byte.
fn write<W: Write>(w: &mut W, bytes: &[u8]) -> Result<usize, WriteFailed>
    ensures some { IfOk result (λ n. 0 < n) }
    ensures bound { IfOk result (λ n. n ≤ length bytes.now) }
    ensures bytes { IfOk result (λ n. Appends (W.contents w.old) (W.contents w.new) (take n bytes.now)) }
    ensures unwritten { OnErr result (Keeps (W.contents w.old) (W.contents w.new)) }
{
    'repeats: for _ in 0..=MAX_REPEATS {
        match w.write(bytes) {
            Ok(0) => return Err(WriteFailed),
            Ok(n) => return Ok(n),
            Err(error) if error.kind() == ErrorKind::Interrupted => {}
            Err(_) => return Err(WriteFailed),
        }
    }
    Err(WriteFailed)
}

fn flush<W: Write>(w: &mut W) -> Result<(), WriteFailed>
    ensures { Keeps (W.contents w.old) (W.contents w.new) }
{
    'repeats: for _ in 0..=MAX_REPEATS {
        match w.flush() {
            Ok(()) => return Ok(()),
            Err(error) if error.kind() == ErrorKind::Interrupted => {}
            Err(_) => return Err(WriteFailed),
        }
    }
    Err(WriteFailed)
}
