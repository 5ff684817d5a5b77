//! The line that is being read.

ghost use Rattle.std.specs.Prelude.{◌≡◌, ◌==◌, ◌++◌, ℕ, List, [], length, IfSome, IfNone, OnErr, OnOk};
ghost use Rattle.xet_roots.specs.Groups.{Node};
ghost use Rattle.pair_text.specs.Lines.{IsSeparator, IsPositionLine, SaysPair};
ghost use Rattle.pair_text.specs.LineSays.{Says};

use crate::line::{self, Line};
use arrayvec::ArrayVec;
use xet_hash::blake3::Hasher;
use xet_hash::data_hash::{DATA_KEY, DataHash};

// The most bytes of a line that isn't bad and isn't a chunk: 64 hex digits, a space and 20 decimal digits.
const MAX_TEXT_LEN: usize = 85;

/// The part of a line that has been read.
///
/// It keeps at most as many bytes as the longest pair line has. For a chunk it keeps the hasher that took its bytes.
#[derive(Drop)]
pub enum OpenLine {
    /// The bytes of a line that doesn't begin with a plus sign.
    Text(ArrayVec<u8, MAX_TEXT_LEN>),
    /// A chunk line: the bytes after its plus sign, in a hasher.
    Chunk(Hasher),
}

/// The error of [`OpenLine::extend`]: the line has more bytes than any line that isn't bad.
#[derive(Clone, Copy, Debug)]
pub struct Overlong;

impl OpenLine {
    ghost use Rattle.pair_text.specs.Steps.Open.{IsOpenLine, IsOverlong};

    /// Starts a line without bytes.
    pub fn new() -> Self
        ensures { IsOpenLine result [] }
    {
        OpenLine::Text(ArrayVec::new())
    }

    /// Starts a new line in the place of this one. After a line without a chunk only its bytes are forgotten, since a hasher is much
    /// longer than these.
    pub fn restart(&mut self)
        ensures { IsOpenLine self.new [] }
    {
        match self {
            OpenLine::Text(text) => text.clear(),
            OpenLine::Chunk(_) => *self = OpenLine::new(),
        }
    }

    /// Returns whether the line has no bytes.
    pub fn is_empty(&self) -> bool
        ensures { (line : List ℕ) → IsOpenLine self.now line → result ≡ (length line == 0) }
    {
        match self {
            OpenLine::Text(text) => text.is_empty(),
            OpenLine::Chunk(_) => false,
        }
    }

    /// Takes the next bytes of the line. Fails if the line then has more bytes than any line that isn't bad. It then has
    /// the bytes that it had.
    pub fn extend(&mut self, bytes: &[u8]) -> Result<(), Overlong>
        ensures open { OnOk result ((line : List ℕ) →
            IsOpenLine self.old line → IsOpenLine self.new (line ++ bytes.now)) }
        ensures overlong { OnErr result ((line : List ℕ) →
            IsOpenLine self.old line → IsOverlong (line ++ bytes.now)) }
        ensures kept { OnErr result ((line : List ℕ) → IsOpenLine self.old line → IsOpenLine self.new line) }
    {
        if self.is_empty()
            && let Some(chunk) = bytes.strip_prefix(b"+")
        {
            let mut hasher = Hasher::new_keyed(&DATA_KEY);
            hasher.update(chunk);
            *self = OpenLine::Chunk(hasher);
            return Ok(());
        }
        match self {
            OpenLine::Text(text) => text.try_extend_from_slice(bytes).map_err(|_| Overlong),
            OpenLine::Chunk(hasher) => {
                if !hasher.has_room(bytes.len()) {
                    return Err(Overlong);
                }
                hasher.update(bytes);
                Ok(())
            }
        }
    }

    /// Returns what the line says if it ends here, or `None` if it is bad.
    pub fn says(&self) -> Option<Line>
        ensures says { IfSome result (λ said. (line : List ℕ) →
            IsOpenLine self.now line → Says line said) }
        ensures nothing { IfNone result ((line : List ℕ) → IsOpenLine self.now line →
            ¬ (IsSeparator line) × ((position : ℕ) → ¬ (IsPositionLine line position))
            × ((node : Node) → ¬ (SaysPair line node))) }
    {
        match self {
            OpenLine::Text(text) => line::parse(text.as_slice()),
            OpenLine::Chunk(hasher) => {
                let hash = DataHash::from(hasher.finalize());
                Some(Line::Pair((hash, hasher.count())))
            }
        }
    }
}
