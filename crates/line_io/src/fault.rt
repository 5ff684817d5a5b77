//! Why an input has no answer.

ghost use Rattle.std.specs.Prelude.{◌≡◌};
ghost use Rattle.line_io.specs.Steps.Taken.{fault_at};
ghost use Rattle.line_io.specs.declared.fault.AnswerFault.TheVariants.{Answer, Input, Write};
ghost use Rattle.line_io.specs.declared.fault.InputFault.TheVariants.{Memory as input_memory};
ghost use Rattle.line_io.specs.declared.fault.Refusal.TheVariants.{Memory};

use crate::devices::WriteFailed;
use std::alloc::{AllocError, AllocFailed};

/// Why a line isn't taken, or why lines aren't answered.
#[derive(Clone, Copy, Debug, PartialEq, Eq)]
pub enum Refusal<F> {
    /// They are faulty.
    Faulty(F),
    /// An allocation failed.
    Memory,
}

impl<F> From<AllocError> for Refusal<F> {
    ghost from_gives = { λ _ refusal. refusal ≡ Memory };

    fn from(_error: AllocError) -> Refusal<F> {
        Refusal::Memory
    }
}

impl<F, T: Drop> From<AllocFailed<T>> for Refusal<F> {
    ghost from_gives = { λ _ refusal. refusal ≡ Memory };

    fn from(_error: AllocFailed<T>) -> Refusal<F> {
        Refusal::Memory
    }
}

/// Why the lines of an input weren't taken.
#[derive(Clone, Copy, Debug, PartialEq, Eq)]
pub enum InputFault<F> {
    /// The number of the first faulty line, from 1, and its fault.
    Line(u64, F),
    /// An allocation failed.
    Memory,
    /// A read failed.
    Read,
}

impl<F> From<AllocError> for InputFault<F> {
    ghost from_gives = { λ _ fault. fault ≡ input_memory };

    fn from(_error: AllocError) -> InputFault<F> {
        InputFault::Memory
    }
}

impl<F> InputFault<F> {
    // Returns the fault of an input if the line of this number isn't taken.
    pub(crate) fn at_line(number: u64, refusal: Refusal<F>) -> Self
        ensures { result ≡ fault_at number refusal }
    {
        match refusal {
            Refusal::Faulty(fault) => InputFault::Line(number, fault),
            Refusal::Memory => InputFault::Memory,
        }
    }
}

/// Why an input has no answer. `F` is the fault of a line. `T` is the fault of lines none of which is faulty.
#[derive(Clone, Copy, Debug, PartialEq, Eq)]
pub enum AnswerFault<F, T> {
    /// The lines weren't taken.
    Input(InputFault<F>),
    /// The lines were taken, and have no answer.
    Answer(Refusal<T>),
    /// A write or the flush failed, or a write took nothing.
    Write,
}

impl<F, T> From<InputFault<F>> for AnswerFault<F, T> {
    ghost from_gives = { λ of fault. fault ≡ Input of };

    fn from(of: InputFault<F>) -> AnswerFault<F, T> {
        AnswerFault::Input(of)
    }
}

impl<F, T> From<Refusal<T>> for AnswerFault<F, T> {
    ghost from_gives = { λ of fault. fault ≡ Answer of };

    fn from(of: Refusal<T>) -> AnswerFault<F, T> {
        AnswerFault::Answer(of)
    }
}

impl<F, T> From<WriteFailed> for AnswerFault<F, T> {
    ghost from_gives = { λ _ fault. fault ≡ Write };

    fn from(_error: WriteFailed) -> AnswerFault<F, T> {
        AnswerFault::Write
    }
}
