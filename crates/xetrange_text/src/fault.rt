//! Why a call ends without an answer.

ghost use Rattle.std.specs.Prelude.{◌≡◌};
ghost use Rattle.xetrange_text.specs.Status.{line_fault_of, make_fault_of, prove_fault_of, range_fault_of, status_of};
ghost use Rattle.xetrange_text.specs.declared.fault.RangeFault.TheVariants.{Memory, Write};

use line_io::devices::WriteFailed;
use line_io::fault::{AnswerFault, InputFault, Refusal};
use line_io::line_and_data::LongLine;
use pair_text::pair_fault::PairFault;
use std::alloc::AllocError;
use std::convert::Infallible;
use std::fmt;

/// Why a line of a range is faulty, after lines that aren't.
#[derive(Clone, Copy, Debug, PartialEq, Eq)]
pub enum LineFault {
    /// It contains the first byte past the limit of an input.
    Bad,
    /// With it, the sizes add up to more than `u64::MAX`.
    Sizes,
    /// It says no range. The number is the lowest rule that its value breaks.
    NoRange(Option<u8>),
}

/// The lines have no such chunks: the range is empty, or ends after the last chunk.
#[derive(Clone, Copy, Debug, PartialEq, Eq)]
pub struct NoChunks;

/// Why a command failed. Line numbers count from 1, and are those of the first faulty line.
#[derive(Clone, Copy, Debug, PartialEq, Eq)]
pub enum RangeFault {
    /// The line is bad: it contains byte number 2^40 + 1 of the input, or, for `make` and `prove`, it isn't a pair, a
    /// chunk or a separator.
    BadLine(u64),
    /// The line isn't bad. With it, the sizes add up to more than `u64::MAX`.
    Sizes(u64),
    /// An allocation failed.
    Memory,
    /// A read failed.
    Read,
    /// A write or the flush failed, or a write took nothing.
    Write,
    /// For `join` and `root`, the line isn't the JSON text of a subtree that is open at both ends. The second number is
    /// the lowest rule, from 1 to 13 of
    /// [`from_json`](xet_merkle::merkle_hash_subtree::MerkleHashSubtree::from_json), that its value breaks. It is `None`
    /// if the line isn't JSON text, if it is nested more than 32 deep, or if its subtree has a mark.
    ///
    /// For `verify`, the first line isn't the JSON text of a range proof. The second number is the lowest rule, from 1 to 8
    /// of [`from_json`](range_proof::RangeProof::from_json), that its value breaks. It is `None` if the line isn't JSON
    /// text, or is nested more than 32 deep.
    BadRange(u64, Option<u8>),
    /// No line is faulty. The lines don't have the chunks that `prove` was to prove.
    NoChunks,
    /// The proof in the line that `verify` read doesn't show the file hash, or the bytes after the line aren't the data
    /// of its chunks, or its chunks don't hold the bytes between the two places.
    Mismatch,
}

impl RangeFault {
    /// Returns the number of the fault: 1 to 5, or 8 to 10. It is the program's exit status.
    pub fn status(&self) -> u8
        ensures { result ≡ status_of self.now }
    {
        match self {
            RangeFault::BadLine(_) => 1,
            RangeFault::Sizes(_) => 2,
            RangeFault::Memory => 3,
            RangeFault::Read => 4,
            RangeFault::Write => 5,
            RangeFault::BadRange(..) => 8,
            RangeFault::NoChunks => 9,
            RangeFault::Mismatch => 10,
        }
    }
}

impl fmt::Display for RangeFault {
    fn fmt<W: fmt::Write>(&self, f: &mut fmt::Formatter<W>) -> fmt::Result {
        let status = self.status();
        match self {
            RangeFault::BadLine(line)
            | RangeFault::Sizes(line)
            | RangeFault::BadRange(line, None) => {
                write!(f, "xetrange: fault {status} at line {line}")
            }
            RangeFault::BadRange(line, Some(rule)) => {
                write!(f, "xetrange: fault {status} at line {line}: rule {rule}")
            }
            RangeFault::Memory
            | RangeFault::Read
            | RangeFault::Write
            | RangeFault::NoChunks
            | RangeFault::Mismatch => { write!(f, "xetrange: fault {status}") }
        }
    }
}

impl From<AllocError> for RangeFault {
    ghost from_gives = { λ _ fault. fault ≡ Memory };

    fn from(_error: AllocError) -> RangeFault {
        RangeFault::Memory
    }
}

impl From<InputFault<LongLine>> for RangeFault {
    ghost from_gives = { λ of fault. fault ≡ line_fault_of of };

    fn from(of: InputFault<LongLine>) -> RangeFault {
        match of {
            InputFault::Line(line, LongLine) => RangeFault::BadLine(line),
            InputFault::Memory => RangeFault::Memory,
            InputFault::Read => RangeFault::Read,
        }
    }
}

impl From<AnswerFault<PairFault, Infallible>> for RangeFault {
    ghost from_gives = { λ of fault. fault ≡ make_fault_of of };

    fn from(of: AnswerFault<PairFault, Infallible>) -> RangeFault {
        match of {
            AnswerFault::Input(InputFault::Line(line, PairFault::Bad)) => RangeFault::BadLine(line),
            AnswerFault::Input(InputFault::Line(line, PairFault::Sizes)) => RangeFault::Sizes(line),
            AnswerFault::Input(InputFault::Memory) | AnswerFault::Answer(_) => RangeFault::Memory,
            AnswerFault::Input(InputFault::Read) => RangeFault::Read,
            AnswerFault::Write => RangeFault::Write,
        }
    }
}

impl From<AnswerFault<PairFault, NoChunks>> for RangeFault {
    ghost from_gives = { λ of fault. fault ≡ prove_fault_of of };

    fn from(of: AnswerFault<PairFault, NoChunks>) -> RangeFault {
        match of {
            AnswerFault::Input(InputFault::Line(line, PairFault::Bad)) => RangeFault::BadLine(line),
            AnswerFault::Input(InputFault::Line(line, PairFault::Sizes)) => RangeFault::Sizes(line),
            AnswerFault::Answer(Refusal::Faulty(NoChunks)) => RangeFault::NoChunks,
            AnswerFault::Input(InputFault::Memory) | AnswerFault::Answer(Refusal::Memory) => {
                RangeFault::Memory
            }
            AnswerFault::Input(InputFault::Read) => RangeFault::Read,
            AnswerFault::Write => RangeFault::Write,
        }
    }
}

impl From<AnswerFault<LineFault, Infallible>> for RangeFault {
    ghost from_gives = { λ of fault. fault ≡ range_fault_of of };

    fn from(of: AnswerFault<LineFault, Infallible>) -> RangeFault {
        match of {
            AnswerFault::Input(InputFault::Line(line, LineFault::Bad)) => RangeFault::BadLine(line),
            AnswerFault::Input(InputFault::Line(line, LineFault::Sizes)) => RangeFault::Sizes(line),
            AnswerFault::Input(InputFault::Line(line, LineFault::NoRange(rule))) => {
                RangeFault::BadRange(line, rule)
            }
            AnswerFault::Input(InputFault::Memory) | AnswerFault::Answer(_) => RangeFault::Memory,
            AnswerFault::Input(InputFault::Read) => RangeFault::Read,
            AnswerFault::Write => RangeFault::Write,
        }
    }
}

impl From<WriteFailed> for RangeFault {
    ghost from_gives = { λ _ fault. fault ≡ Write };

    fn from(_error: WriteFailed) -> RangeFault {
        RangeFault::Write
    }
}
