//! Why the program ends without an answer.

ghost use Rattle.std.specs.Prelude.{◌≡◌};
ghost use Rattle.xetroot_text.specs.Status.{fault_of, status_of};
ghost use Rattle.xetroot_text.specs.declared.fault.Fault.TheVariants.{Memory, Write};

use line_io::devices::WriteFailed;
use line_io::fault::{AnswerFault, InputFault, Refusal};
use std::alloc::AllocError;
use std::fmt;

/// Why a line is faulty, after lines that aren't.
#[derive(Clone, Copy, Debug, PartialEq, Eq)]
pub enum LineFault {
    /// The line is bad.
    Bad,
    /// An earlier line took the position of its pair.
    Overlap,
    /// With its pair, the sizes add up to more than `u64::MAX`.
    Sizes,
}

/// The taken positions aren't exactly those from 0 to their number minus 1.
#[derive(Clone, Copy, Debug, PartialEq, Eq)]
pub struct Gap;

/// Why [`run`](crate::run::run) failed. Line numbers count from 1, and are those of the first faulty line.
#[derive(Clone, Copy, Debug, PartialEq, Eq)]
pub enum Fault {
    /// The line is bad: it isn't a pair, a chunk, a position or a separator, or it is a pair or a chunk whose position
    /// would be `u64::MAX`, or it contains byte number 2^40 + 1 of the input.
    BadLine(u64),
    /// The line isn't bad, and the position of its pair is free. With its pair, the sizes add up to more than
    /// `u64::MAX`.
    Sizes(u64),
    /// An allocation failed.
    Memory,
    /// A read failed.
    Read,
    /// A write or the flush failed, or a write took nothing.
    Write,
    /// The line isn't bad. An earlier line took the position of its pair.
    Overlap(u64),
    /// No line is faulty. The taken positions aren't exactly those from 0 to their number minus 1.
    Gap,
}

impl Fault {
    /// Returns the number of the fault, from 1 to 7. It is the program's exit status.
    pub fn status(&self) -> u8
        ensures { result ≡ status_of self.now }
    {
        match self {
            Fault::BadLine(_) => 1,
            Fault::Sizes(_) => 2,
            Fault::Memory => 3,
            Fault::Read => 4,
            Fault::Write => 5,
            Fault::Overlap(_) => 6,
            Fault::Gap => 7,
        }
    }
}

impl fmt::Display for Fault {
    fn fmt<W: fmt::Write>(&self, f: &mut fmt::Formatter<W>) -> fmt::Result {
        let status = self.status();
        match self {
            Fault::BadLine(line) | Fault::Sizes(line) | Fault::Overlap(line) => {
                write!(f, "xetroot: fault {status} at line {line}")
            }
            Fault::Memory | Fault::Read | Fault::Write | Fault::Gap => {
                write!(f, "xetroot: fault {status}")
            }
        }
    }
}

impl From<AllocError> for Fault {
    ghost from_gives = { λ _ fault. fault ≡ Memory };

    fn from(_error: AllocError) -> Fault {
        Fault::Memory
    }
}

impl From<AnswerFault<LineFault, Gap>> for Fault {
    ghost from_gives = { λ of fault. fault ≡ fault_of of };

    fn from(of: AnswerFault<LineFault, Gap>) -> Fault {
        match of {
            AnswerFault::Input(InputFault::Line(line, LineFault::Bad)) => Fault::BadLine(line),
            AnswerFault::Input(InputFault::Line(line, LineFault::Overlap)) => Fault::Overlap(line),
            AnswerFault::Input(InputFault::Line(line, LineFault::Sizes)) => Fault::Sizes(line),
            AnswerFault::Answer(Refusal::Faulty(Gap)) => Fault::Gap,
            AnswerFault::Input(InputFault::Memory) | AnswerFault::Answer(Refusal::Memory) => {
                Fault::Memory
            }
            AnswerFault::Input(InputFault::Read) => Fault::Read,
            AnswerFault::Write => Fault::Write,
        }
    }
}

impl From<WriteFailed> for Fault {
    ghost from_gives = { λ _ fault. fault ≡ Write };

    fn from(_error: WriteFailed) -> Fault {
        Fault::Write
    }
}
