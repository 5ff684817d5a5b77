//! Reads the first line of an input, and the data after it.

ghost use Rattle.std.specs.Prelude.{◌≡◌, ◌⊎◌, ◌+◌, ◌<◌, ◌≤◌, ◌++◌, ℕ, Option, List, length, IfErr, IfOk, IfSome, OnOk};
ghost use Rattle.std.specs.Io.KnownBytes.{IsAtEnd};
ghost use Rattle.line_io.specs.Faults.{IfLine};
ghost use Rattle.line_io.specs.LineAndData.{HasRead, first_line};
ghost use Rattle.line_io.specs.Lines.{byte_limit};

use crate::devices::read;
use crate::fault::InputFault;
use crate::reading::{BUFFER_LEN, BYTE_LIMIT, split_line};
use std::alloc::Allocator;
use std::io::Read;

/// What was read of an input: its first line, without its newline, and data after it.
#[derive(Drop)]
pub struct LineAndData<A: Allocator> {
    pub line: Vec<u8, A>,
    pub data: Vec<u8, A>,
}

/// The first line of an input has more than 2^40 bytes.
#[derive(Clone, Copy, Debug, PartialEq, Eq)]
pub struct LongLine;

impl<A: Allocator + Clone> LineAndData<A> {
    /// Reads the first line of an input, in pieces of at most 65,536 bytes, and keeps the data that came with it. If
    /// there is no newline, the whole input is the line.
    pub fn read_line<R: Read>(alloc: A, r: &mut R) -> Result<Self, InputFault<LongLine>>
        ensures read { IfOk result (λ held. HasRead held.line.items held.data.items (R.remaining r.old) (R.remaining r.new)) }
        ensures fault { IfErr result (λ fault. IfSome (R.remaining r.old) (λ text.
            IfLine fault (λ number _. (number ≡ 1) × (byte_limit < length (first_line text))))) }
    {
        let mut line = Vec::new(alloc.clone()?);
        let mut data = Vec::new(alloc);
        let mut buffer = [0; BUFFER_LEN];
        'pieces: loop {
            let Ok(n) = read(r, &mut buffer) else {
                return Err(InputFault::Read);
            };
            if n == 0 {
                return Ok(LineAndData { line, data });
            }
            let Some((begun, after)) = split_line(&buffer[..n]) else {
                extend_line(&mut line, &buffer[..n])?;
                continue;
            };
            extend_line(&mut line, begun)?;
            data.extend_from_slice(after)?;
            return Ok(LineAndData { line, data });
        }
    }
}

impl<A: Allocator> LineAndData<A> {
    /// Reads on until more than `len` bytes of data are held, or the input ends. At most 65,535 bytes more are held.
    /// The line, and the data that was held, stay as they are, even if a read or an allocation fails. The bytes of a
    /// read are lost if there is no memory for them.
    pub fn read_data<R: Read>(&mut self, r: &mut R, len: u64) -> Result<(), InputFault<LongLine>>
        ensures read { OnOk result ((input : Option (List ℕ)) →
            HasRead self.old.line.items self.old.data.items input (R.remaining r.old) →
            HasRead self.new.line.items self.new.data.items input (R.remaining r.new)) }
        ensures enough { OnOk result (IsAtEnd (R.remaining r.new) ⊎ (len < length self.new.data.items)) }
        ensures fault { IfErr result (λ fault. IfLine fault (λ _ _. ⊥)) }
        ensures line { self.new.line.items ≡ self.old.line.items }
        ensures held { (more : List ℕ) × (self.new.data.items ≡ self.old.data.items ++ more) }
    {
        let mut buffer = [0; BUFFER_LEN];
        'pieces: while self.data.len() as u64 <= len {
            let Ok(n) = read(r, &mut buffer) else {
                return Err(InputFault::Read);
            };
            if n == 0 {
                return Ok(());
            }
            self.data.extend_from_slice(&buffer[..n])?;
        }
        Ok(())
    }
}

// Appends bytes to the first line of an input, unless it has too many then.
fn extend_line<A: Allocator>(
    line: &mut Vec<u8, A>,
    bytes: &[u8],
) -> Result<(), InputFault<LongLine>>
    requires { length line.old.items ≤ byte_limit }
    ensures extended { OnOk result (line.new.items ≡ line.old.items ++ bytes.now) }
    ensures within { OnOk result (length line.new.items ≤ byte_limit) }
    ensures fault { IfErr result (λ fault. IfLine fault (λ number _. (number ≡ 1)
        × (byte_limit < length line.old.items + length bytes.now))) }
{
    let room = BYTE_LIMIT.saturating_sub(line.len() as u64);
    if room < bytes.len() as u64 {
        return Err(InputFault::Line(1, LongLine));
    }
    line.extend_from_slice(bytes)?;
    Ok(())
}
