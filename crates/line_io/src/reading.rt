//! Reads an input piece by piece, and cuts it into lines.

ghost use Rattle.std.specs.Prelude.{◌≡◌, ◌+◌, ◌≤◌, ℕ, List, [], ◌∷◌, ◌++◌, length, IfSome, IfNone, IfOk, IfErr, OnOk};
ghost use Rattle.std.specs.Io.KnownBytes.{IsAtEnd};
ghost use Rattle.line_io.specs.Faults.{HasFault, IfLine};
ghost use Rattle.line_io.specs.Lines.{NoNewline, byte_limit, lines_of, newline};

use crate::devices::read;
use crate::fault::InputFault;
use crate::take_lines::TakeLines;
use memchr::memchr;
use std::io::Read;

// The most bytes of an input.
pub(crate) const BYTE_LIMIT: u64 = 1 << 40;

// The most bytes requested by one read.
pub(crate) const BUFFER_LEN: usize = 65536;

/// Passes all lines of the input to `lines`, each with its newline, in pieces of at most 65536 bytes. An input has at
/// most 2^40 bytes. If it has more, the line with the next byte is faulty.
///
/// `lines` must have taken nothing yet. How much of the input was read after a fault isn't specified.
pub fn read_lines<L: TakeLines, R: Read>(lines: L, r: &mut R) -> Result<L, InputFault<L::Fault>>
    requires { L.has_taken lines [] [] }
    ensures taken { IfOk result (λ lines. IfSome (R.remaining r.old) (λ text. L.has_taken lines (lines_of text) [])) }
    ensures read { OnOk result (IsAtEnd (R.remaining r.new)) }

    // The fault of a line depends on the whole input, including the part that was left unread.
    ensures fault { IfErr result (λ fault. IfSome (R.remaining r.old) (λ text. IfLine fault (HasFault L.is_fault text))) }
{
    let mut reading = Reading::new(lines);
    let mut buffer = [0; BUFFER_LEN];
    'pieces: loop {
        let Ok(n) = read(r, &mut buffer) else {
            return Err(InputFault::Read);
        };
        if n == 0 {
            return reading.finish();
        }
        reading.take(&buffer[..n])?;
    }
}

// What has been read of an input. Of the text only the open line is kept, by what takes the lines.
#[derive(Drop)]
struct Reading<L: TakeLines> {
    lines: L,
    // The number of bytes taken.
    count: u64,
    // The number of the open line, from 1.
    number: u64,
    // Whether the open line has a byte.
    begun: bool,
}

impl<L: TakeLines> Reading<L> {
    ghost use Rattle.line_io.specs.Steps.Taken.{IsTaken};

    // Starts with nothing read.
    fn new(lines: L) -> Self
        requires { L.has_taken lines [] [] }
        ensures { IsTaken L.has_taken result [] }
    {
        Reading {
            lines,
            count: 0,
            number: 1,
            begun: false,
        }
    }

    // Takes the next piece of the input.
    fn take(&mut self, piece: &[u8]) -> Result<(), InputFault<L::Fault>>
        ensures taken { OnOk result ((text : List ℕ) →
            IsTaken L.has_taken self.old text → IsTaken L.has_taken self.new (text ++ piece.now)) }
        ensures fault { IfErr result (λ fault. (text rest : List ℕ) →
            IsTaken L.has_taken self.old text → IfLine fault (HasFault L.is_fault (text ++ piece.now ++ rest))) }
    {
        let room = BYTE_LIMIT.saturating_sub(self.count);
        if piece.len() as u64 <= room {
            return self.take_within(piece);
        }
        self.take_within(&piece[..room as usize])?;
        Err(InputFault::Line(self.number, self.lines.past_limit()))
    }

    // Ends the input. Returns what has taken the lines.
    fn finish(mut self) -> Result<L, InputFault<L::Fault>>
        ensures taken { IfOk result (λ lines. (text : List ℕ) → IsTaken L.has_taken self text →
            L.has_taken lines (lines_of text) []) }
        ensures fault { IfErr result (λ fault. (text : List ℕ) →
            IsTaken L.has_taken self text → IfLine fault (HasFault L.is_fault text)) }
    {
        if !self.begun {
            return Ok(self.lines);
        }
        if let Err(refusal) = self.lines.end_line() {
            return Err(InputFault::at_line(self.number, refusal));
        }
        Ok(self.lines)
    }

    // Takes a piece in which no byte is past the limit.
    fn take_within(&mut self, piece: &[u8]) -> Result<(), InputFault<L::Fault>>
        ensures taken { OnOk result ((text : List ℕ) → length text + length piece.now ≤ byte_limit →
            IsTaken L.has_taken self.old text → IsTaken L.has_taken self.new (text ++ piece.now)) }
        ensures fault { IfErr result (λ fault. (text rest : List ℕ) → length text + length piece.now ≤ byte_limit →
            IsTaken L.has_taken self.old text → IfLine fault (HasFault L.is_fault (text ++ piece.now ++ rest))) }
    {
        let mut rest = piece;
        'lines: while let Some((begun, after)) = split_line(rest) {
            self.extend_line(begun)?;
            self.end_line()?;
            rest = after;
        }
        self.extend_line(rest)
    }

    // Takes bytes without a newline.
    fn extend_line(&mut self, bytes: &[u8]) -> Result<(), InputFault<L::Fault>>
        requires { NoNewline bytes.now }
        ensures taken { OnOk result ((text : List ℕ) → length text + length bytes.now ≤ byte_limit →
            IsTaken L.has_taken self.old text → IsTaken L.has_taken self.new (text ++ bytes.now)) }
        ensures fault { IfErr result (λ fault. (text rest : List ℕ) → length text + length bytes.now ≤ byte_limit →
            IsTaken L.has_taken self.old text → IfLine fault (HasFault L.is_fault (text ++ bytes.now ++ rest))) }
    {
        if bytes.is_empty() {
            return Ok(());
        }
        if let Err(refusal) = self.lines.extend_line(bytes) {
            return Err(InputFault::at_line(self.number, refusal));
        }
        self.begun = true;
        self.count = self.count.saturating_add(bytes.len() as u64);
        Ok(())
    }

    // Takes a newline.
    fn end_line(&mut self) -> Result<(), InputFault<L::Fault>>
        ensures taken { OnOk result ((text : List ℕ) → length text + 1 ≤ byte_limit →
            IsTaken L.has_taken self.old text → IsTaken L.has_taken self.new (text ++ newline ∷ [])) }
        ensures fault { IfErr result (λ fault. (text rest : List ℕ) →
            length text + 1 ≤ byte_limit → IsTaken L.has_taken self.old text →
            IfLine fault (HasFault L.is_fault (text ++ newline ∷ rest))) }
    {
        if let Err(refusal) = self.lines.end_line() {
            return Err(InputFault::at_line(self.number, refusal));
        }
        self.begun = false;
        self.count = self.count.saturating_add(1);
        self.number = self.number.saturating_add(1);
        Ok(())
    }
}

// Splits some bytes at their first newline.
pub(crate) fn split_line(bytes: &[u8]) -> Option<(&[u8], &[u8])>
    ensures found { IfSome result (λ parts.
        (bytes.now ≡ parts.0.now ++ newline ∷ parts.1.now) × NoNewline parts.0.now) }
    ensures none { IfNone result (NoNewline bytes.now) }
{
    let end = memchr(b'\n', bytes)?;
    Some((&bytes[..end], &bytes[end + 1..]))
}
