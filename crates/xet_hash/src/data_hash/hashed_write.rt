//! A writer that hashes what is written.

ghost use Rattle.std.specs.Prelude.{◌≡◌, ◌+◌, ◌^◌, ◌<◌, ◌≤◌, ℕ, List, [], ◌++◌, length, IfOk, OnOk, OnErr, IsErrAnd, IsOk};
ghost use Rattle.std.specs.Io.{WritesAtMost};
ghost use Rattle.std.specs.Io.KnownBytes.{Appends, Keeps, WriteAppends};
ghost use Rattle.std.specs.IoError.{error_kind};
ghost use Rattle.keyed_blake3.specs.Blake3.{keyed_hash};
ghost use Rattle.xet_hash.specs.Hash.{data_key, hash_of};
ghost use Rattle.xet_hash.specs.HashedWrite.{inner_writer, taken_bytes, HoldsBeginning, HoldsWritten, IsOneCall};

use super::{DATA_KEY, DataHash};
use keyed_blake3::Hasher;
use std::io::{self, ErrorKind, Write};

/// A writer that passes everything on to an inner writer, and hashes what that one takes.
#[derive(Drop)]
pub struct HashedWrite<W: Write> {
    hasher: Hasher,
    writer: W,
}

impl<W: Write> HashedWrite<W> {
    /// Makes a writer that hashes everything that `writer` takes from here on.
    #[tactic(auto, unfolding(crate::specs::HashedWrite::inner_writer))]
    pub fn new(writer: W) -> HashedWrite<W>
        ensures message { HoldsWritten result [] }
        ensures writer { inner_writer result ≡ writer }
    {
        HashedWrite {
            hasher: Hasher::new_keyed(&DATA_KEY),
            writer,
        }
    }

    /// Returns the hash of the bytes that were taken so far. It is the same as that of
    /// [`compute_data_hash`](super::compute_data_hash).
    pub fn hash(&self) -> DataHash
        ensures { (m : List ℕ) → HoldsWritten self.now m → result ≡ hash_of (keyed_hash data_key m) }
    {
        DataHash::from(self.hasher.finalize())
    }

    // Writes a beginning of `slice`, at least one byte. It tries again if the write is interrupted.
    #[tactic(auto, unfolding(crate::specs::HashedWrite::inner_writer))]
    fn write_some(&mut self, slice: &[u8]) -> io::Result<usize>
        ensures some { IfOk result (λ n. 0 < n) }
        ensures bound { WritesAtMost result slice.now }
        ensures bytes { WriteAppends (W.contents (inner_writer self.old)) (W.contents (inner_writer self.new)) result slice.now }
        ensures message { (m : List ℕ) → HoldsWritten self.old m → HoldsWritten self.new (m ++ taken_bytes result slice.now) }
    {
        'repeats: for _ in 0..u64::MAX {
            match self.write(slice) {
                Ok(0) => return Err(io::Error::from(ErrorKind::WriteZero)),
                Ok(n) => return Ok(n),
                Err(error) if error.kind() == ErrorKind::Interrupted => {}
                Err(error) => return Err(error),
            }
        }
        Err(io::Error::from(ErrorKind::Interrupted))
    }

    // Calls `call` once, with the inner writer and all of `slice`. It hashes what was taken, and returns what `call`
    // returned. If there is no room for all of `slice`, it doesn't call it, and fails with `InvalidInput`.
    #[tactic(auto, unfolding(crate::specs::HashedWrite::inner_writer))]
    fn write_by<F: FnOnce(&mut W, &[u8]) -> io::Result<usize> + Drop>(
        &mut self,
        slice: &[u8],
        call: F,
    ) -> io::Result<usize>
        requires callable { (w : _) (s : _) → F.pre call w s }
        requires bounded { (w : _) (s : _) (answer : _) (left : _) → F.post call w s answer left → WritesAtMost answer s.now }
        requires appends { (w : _) (s : _) (answer : _) (left : _) → F.post call w s answer left →
            WriteAppends (W.contents w.now) (W.contents left.now) answer s.now }
        ensures bound { WritesAtMost result slice.now }
        ensures bytes { WriteAppends (W.contents (inner_writer self.old)) (W.contents (inner_writer self.new)) result slice.now }
        ensures one_call { (m : List ℕ) → HoldsWritten self.old m → length m + length slice.now < 2 ^ 64 →
            IsOneCall F.FnOnce call (inner_writer self.old) slice.now result (inner_writer self.new) }
        ensures message { (m : List ℕ) → HoldsWritten self.old m → HoldsWritten self.new (m ++ taken_bytes result slice.now) }
        ensures full { (m : List ℕ) → HoldsWritten self.old m → 2 ^ 64 ≤ length m + length slice.now
            → IsErrAnd result (λ e. error_kind e ≡ ErrorKind.InvalidInput) × (self.new ≡ self.old) }
    {
        if !self.hasher.has_room(slice.len()) {
            return Err(io::Error::from(ErrorKind::InvalidInput));
        }
        let taken = call(&mut self.writer, slice)?;
        self.hasher.update(&slice[..taken]);
        Ok(taken)
    }

    /// Returns the inner writer in its current state.
    #[tactic(auto, unfolding(crate::specs::HashedWrite::inner_writer))]
    pub fn into_inner(self) -> W
        ensures { result ≡ inner_writer self }
    {
        let HashedWrite { hasher: _, writer } = self;
        writer
    }
}

impl<W: Write> Write for HashedWrite<W> {
    ghost contents = { λ w. W.contents (inner_writer w) };

    /// Passes `slice` to the inner writer in one call, and returns what that returns. Fails with
    /// [`ErrorKind::InvalidInput`], without calling the inner writer, if the message would reach 2^64 bytes.
    #[tactic(auto, unfolding(crate::specs::HashedWrite::inner_writer))]
    fn write(&mut self, slice: &[u8]) -> io::Result<usize>
        ensures bound { WritesAtMost result slice.now }
        ensures bytes { WriteAppends (W.contents (inner_writer self.old)) (W.contents (inner_writer self.new)) result slice.now }
        ensures message { (m : List ℕ) → HoldsWritten self.old m → HoldsWritten self.new (m ++ taken_bytes result slice.now) }
        ensures full { (m : List ℕ) → HoldsWritten self.old m → 2 ^ 64 ≤ length m + length slice.now
            → IsErrAnd result (λ e. error_kind e ≡ ErrorKind.InvalidInput) × (self.new ≡ self.old) }
    {
        self.write_by(slice, |writer, slice| writer.write(slice))
    }

    /// Passes all of `slice` to the inner writer, in as many calls of `write` as needed. If `slice` is empty, that is
    /// none.
    ///
    /// Fails if a call takes nothing, or fails for a reason other than [`ErrorKind::Interrupted`]. Then a beginning of
    /// `slice` was taken, and is hashed.
    fn write_all(&mut self, slice: &[u8]) -> io::Result<()>
        ensures bytes { OnOk result (Appends (W.contents (inner_writer self.old)) (W.contents (inner_writer self.new)) slice.now) }
        ensures message { (m : List ℕ) → HoldsWritten self.old m → OnOk result (HoldsWritten self.new (m ++ slice.now)) }
        ensures begun { OnErr result (HoldsBeginning W.contents self.old self.new slice.now) }
        ensures nothing { length slice.now ≡ 0 → IsOk result }
    {
        let mut rest = slice;
        'rest: while !rest.is_empty() {
            let n = self.write_some(rest)?;
            rest = &rest[n..];
        }
        Ok(())
    }

    /// Flushes the inner writer. Fails if that fails. The hash is unchanged.
    #[tactic(auto, unfolding(crate::specs::HashedWrite::inner_writer))]
    fn flush(&mut self) -> io::Result<()>
        ensures bytes { Keeps (W.contents (inner_writer self.old)) (W.contents (inner_writer self.new)) }
        ensures message { (m : List ℕ) → HoldsWritten self.old m → HoldsWritten self.new m }
    {
        self.writer.flush()
    }
}
